// The least-input inverse, the smallest drive whose density is at least a value; and demand 3, whole
// (specs/Demand.antt).
#![tactic(auto)]

ghost use Rattle.least.specs.Promises.{LeastPromise};

use inside::PassedTable;
use table::{Density, Drive, Refusal};

pub mod inside;

// The smallest position whose lookup is at least v. Once the table has passed its tests, only its last entry decides
// whether there is one.
pub fn least_input(table: &[u16], v: Density) -> Result<Drive, Refusal>
    ensures { LeastPromise table.now v result }
{
    let table = PassedTable::of(table)?;
    if table.last() < v.0 {
        return Err(Refusal::AboveLast);
    }
    Ok(Drive(table.least(v.0) as u16))
}
