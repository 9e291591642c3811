// The Rust's inverse, whole: a position for a value, as moxcms works it out. It is not the least position; that is
// `least`.
#![tactic(auto)]

ghost use Rattle.inverse.specs.Promises.{InversePromise};

use inside::Counted;
use table::inside::SizedTable;
use table::{Density, Drive, Refusal};

pub mod inside;

// The position for a value, by the Rust's own steps.
pub fn lut_inverse_interp16(table: &[u16], value: Density) -> Result<Drive, Refusal>
    ensures { InversePromise table.now value result }
{
    let table = SizedTable::of(table)?;
    let counted = Counted::of(table);
    Ok(Drive(counted.inverse(value.0)))
}
