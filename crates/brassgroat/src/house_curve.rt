// Exports on the house curve.
ghost use Rattle.table.specs.Answers.{number_of_answer};
ghost use Rattle.house.specs.Promises.{EntryPromise, FillPromise};
ghost use Rattle.brassgroat.specs.Carried.{Carried};
ghost use Rattle.plain_answers.specs.Answers.{as_sample};

use plain_answers::Sample;
use plain_answers::inside::number_of_answer;

#[unsafe(no_mangle)]
pub extern "C" fn bg_house_entry(index: usize) -> Sample
    ensures { Carried as_sample (EntryPromise index) result }
{
    house::entry(index).into()
}

#[unsafe(no_mangle)]
pub extern "C" fn bg_house_fill(out: &mut [u16]) -> u32
    ensures { Carried number_of_answer (λ d. FillPromise out.old d out.new) result }
{
    number_of_answer(house::fill(out))
}
