// A whole table inverted by the Rust's inverse.
#![tactic(auto)]

ghost use Rattle.std.specs.Prelude.{◌≡◌, true, length};
ghost use Rattle.table.specs.Sizes.{spanned};
ghost use Rattle.invert.specs.Invert.{inverted_of};
ghost use Rattle.invert.specs.Promises.{InvertPromise};

use inverse::inside::Counted;
use rounding::inside::floor_f64;
use table::inside::{SizedTable, fill};
use table::{Refusal, spanned};

// The inverse of each question, in f64 steps, which are not those of the start ramp.
fn fill_inverted(table: SizedTable, out: &mut [u16])
    requires { spanned (length out.old) ≡ true }
    ensures { out.new ≡ inverted_of table.entry.entries.now (length out.old) }
{
    let counted = Counted::of(table);
    let scale = 65535.0 / ((out.len() - 1) as f64);
    fill(
        out,
        |i| counted.inverse(floor_f64((i as f64) * scale + 0.5) as u16),
    );
}

// Fills `out` with the table inverted: the positions for values spread evenly from 0 to 65535, as many as `out` has
// entries.
pub fn invert_lut(table: &[u16], out: &mut [u16]) -> Result<(), Refusal>
    ensures { InvertPromise table.now out.old result out.new }
{
    let table = SizedTable::of(table)?;
    if !spanned(out.len()) {
        return Err(Refusal::OutsideRange);
    }
    fill_inverted(table, out);
    Ok(())
}
