// The 16-bit lookup, the density at a drive, and what it shares with the gamma lookup.
#![tactic(auto)]

ghost use Rattle.lookup.specs.Promises.{LookupPromise};

use table::inside::SizedTable;
use table::{Density, Drive, Refusal};

pub mod inside;

// The sample at a position. The table stands first in every call, where the Rust has it last.
pub fn lut_interp_linear16(table: &[u16], p: Drive) -> Result<Density, Refusal>
    ensures { LookupPromise table.now p result }
{
    let table = SizedTable::of(table)?;
    Ok(Density(inside::lookup(table.entries, p.0)))
}
