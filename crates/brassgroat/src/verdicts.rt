// Exports of the verdicts on a curve's shape.
ghost use Rattle.degeneration.specs.Promises.{DegeneratedPromise};
ghost use Rattle.monotonic.specs.Promises.{MonotonicPromise};
ghost use Rattle.brassgroat.specs.Carried.{Carried};
ghost use Rattle.plain_answers.specs.Answers.{as_direction, as_monotony, as_degeneration};

use degeneration::is_curve_degenerated;
use monotonic::is_curve_monotonic;
use plain_answers::inside::as_direction;
use plain_answers::{Degeneration, Monotony};

#[unsafe(no_mangle)]
pub extern "C" fn bg_is_curve_monotonic(table: &[u16], rising: bool) -> Monotony
    ensures { Carried as_monotony (MonotonicPromise table.now (as_direction rising)) result }
{
    is_curve_monotonic(table, as_direction(rising)).into()
}

#[unsafe(no_mangle)]
pub extern "C" fn bg_is_curve_degenerated(table: &[u16]) -> Degeneration
    ensures { Carried as_degeneration (DegeneratedPromise table.now) result }
{
    is_curve_degenerated(table).into()
}
