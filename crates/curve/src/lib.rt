// How work on a curve begins: `start` makes the straight curve, `accept` tests whether a table may be worked on.
#![tactic(auto)]

ghost use Rattle.std.specs.Prelude.{◌≡◌, true, length};
ghost use Rattle.table.specs.Sizes.{spanned};
ghost use Rattle.curve.specs.Ramp.{ramp_of};
ghost use Rattle.curve.specs.Promises.{sitting_on, StartPromise, AcceptPromise};

use table::inside::fill;
use table::{Refusal, in_order, sized, spanned};

pub mod inside;

// Whether the table, from wherever it came, may be nudged and read backwards. It is lent to be read, so what it holds
// after is what it held.
pub fn accept(table: &[u16]) -> Result<(), Refusal>
    ensures { AcceptPromise (sitting_on table.now) result (sitting_on table.now) }
{
    if !sized(table.len()) {
        return Err(Refusal::TableLength);
    }
    if !in_order(table) {
        return Err(Refusal::NotNondecreasing);
    }
    Ok(())
}

// The straight curve over the whole table.
fn fill_ramp(table: &mut [u16])
    requires { spanned (length table.old) ≡ true }
    ensures { table.new ≡ ramp_of (length table.old) }
{
    let n = table.len();
    fill(table, |i| inside::ramp(n, i));
}

// Makes the lent table the straight curve of as many entries as it has.
pub fn start(table: &mut [u16]) -> Result<(), Refusal>
    ensures { StartPromise (sitting_on table.old) result (sitting_on table.new) }
{
    if !spanned(table.len()) {
        return Err(Refusal::TableLength);
    }
    fill_ramp(table);
    Ok(())
}
