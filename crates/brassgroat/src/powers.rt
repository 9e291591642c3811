// Exports on gamma curves worked out on whole numbers.
ghost use Rattle.table.specs.Answers.{number_of_answer};
ghost use Rattle.power_curve.specs.Curve.{exponent_of};
ghost use Rattle.power_curve.specs.Promises.{PowerPromise, PowerTablePromise};
ghost use Rattle.brassgroat.specs.Carried.{Carried};
ghost use Rattle.plain_answers.specs.Answers.{as_sample};

use plain_answers::Sample;
use plain_answers::inside::number_of_answer;
use power_curve::{power, power_table, tag_power, tag_power_table};
use table::Drive;

#[unsafe(no_mangle)]
pub extern "C" fn bg_power(x: Drive, exponent: u64) -> Sample
    ensures { Carried as_sample (PowerPromise x exponent) result }
{
    power(x, exponent).into()
}

#[unsafe(no_mangle)]
pub extern "C" fn bg_power_table(out: &mut [u16], n: usize, exponent: u64) -> u32
    ensures { Carried number_of_answer (λ d.
        PowerTablePromise out.old n exponent d out.new) result }
{
    number_of_answer(power_table(out, n, exponent))
}

#[unsafe(no_mangle)]
pub extern "C" fn bg_tag_power(x: Drive, gamma: u16) -> Sample
    ensures { Carried as_sample (PowerPromise x (exponent_of gamma)) result }
{
    tag_power(x, gamma).into()
}

#[unsafe(no_mangle)]
pub extern "C" fn bg_tag_power_table(out: &mut [u16], n: usize, gamma: u16) -> u32
    ensures { Carried number_of_answer (λ d.
        PowerTablePromise out.old n (exponent_of gamma) d out.new) result }
{
    number_of_answer(tag_power_table(out, n, gamma))
}
