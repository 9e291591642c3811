// The house curve: a fixed table of 1,024 numbers, gamma 2.5. A call gives one entry of it, another all.
#![tactic(auto)]

ghost use Rattle.std.specs.Prelude.{◌≡◌, length};
ghost use Rattle.house.specs.House.{IsHouse};
ghost use Rattle.house.specs.Promises.{EntryPromise, FillPromise};

use entries::curve;
use table::{Density, Refusal};

mod entries;

// Entry i. The constant table is made anew at each call, so whoever wants many fills a buffer.
pub fn entry(i: usize) -> Result<Density, Refusal>
    ensures { EntryPromise i result }
{
    if 1023 < i {
        return Err(Refusal::IndexBeyond);
    }
    let curve = curve();
    let density = curve[i];
    Ok(Density(density))
}

// Fills a buffer of 1,024 entries with the curve.
pub fn fill(out: &mut [u16]) -> Result<(), Refusal>
    ensures { FillPromise out.old result out.new }
{
    if out.len() != 1024 {
        return Err(Refusal::OutputLength);
    }
    out.copy_from_slice(&curve());
    Ok(())
}
