// Exports that start, accept and nudge a curve's table.
ghost use Rattle.table.specs.Answers.{number_of_answer};
ghost use Rattle.curve.specs.Promises.{sitting_on, StartPromise, AcceptPromise};
ghost use Rattle.nudge.specs.Promises.{NudgePromise};
ghost use Rattle.brassgroat.specs.Carried.{Carried};

use curve::{accept, start};
use nudge::nudge;
use plain_answers::inside::number_of_answer;
use table::Density;

#[unsafe(no_mangle)]
pub extern "C" fn bg_start(table: &mut [u16]) -> u32
    ensures { Carried number_of_answer
        (λ d. StartPromise (sitting_on table.old) d (sitting_on table.new)) result }
{
    number_of_answer(start(table))
}

#[unsafe(no_mangle)]
pub extern "C" fn bg_accept(table: &[u16]) -> u32
    ensures { Carried number_of_answer
        (λ d. AcceptPromise (sitting_on table.now) d (sitting_on table.now)) result }
{
    number_of_answer(accept(table))
}

#[unsafe(no_mangle)]
pub extern "C" fn bg_nudge(table: &mut [u16], index: usize, density: Density) -> u32
    ensures { Carried number_of_answer
        (λ d. NudgePromise (sitting_on table.old) index density d (sitting_on table.new)) result }
{
    number_of_answer(nudge(table, index, density))
}
