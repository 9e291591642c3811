// The nudge of one entry of a curve's table, and what a sitting is. What holds throughout every sitting, demand 3's
// part on the table, is in specs/Demand.antt.
#![tactic(auto)]

ghost use Rattle.curve.specs.Promises.{sitting_on};
ghost use Rattle.nudge.specs.Promises.{NudgePromise};

use table::inside::{suits, wide};
use table::{Density, Refusal, in_order, sized};

// Sets entry i to v, where v fits between the entries beside it. Refusal 3 comes between the two tests of `accept`
// (`nudge_verdict`), so that they are made here one by one.
pub fn nudge(table: &mut [u16], i: usize, v: Density) -> Result<(), Refusal>
    ensures { NudgePromise (sitting_on table.old) i v result (sitting_on table.new) }
{
    if !sized(table.len()) {
        return Err(Refusal::TableLength);
    }
    if table.len() <= i {
        return Err(Refusal::IndexBeyond);
    }
    if !in_order(table) {
        return Err(Refusal::NotNondecreasing);
    }
    if !suits(table, i, wide(v.0)) {
        return Err(Refusal::OutsideNeighbours);
    }
    table[i] = v.0;
    Ok(())
}
