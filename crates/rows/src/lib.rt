// Many lookups in one table: at a row of drives, and at every drive (the baked table).
#![tactic(auto)]

ghost use Rattle.std.specs.Prelude.{◌≡◌, length};
ghost use Rattle.rows.specs.Rows.{row_of, baked_of};
ghost use Rattle.rows.specs.Promises.{RowPromise, BakePromise};

use lookup::inside::lookup;
use table::Refusal;
use table::inside::{SizedTable, fill, wide};

// The lookup at each position. That both slices have one length stays a precondition of three functions: a struct of
// both would be made once and taken apart at once.
fn fill_by_lookup(table: SizedTable, positions: &[u16], out: &mut [u16])
    requires { length out.old ≡ length positions.now }
    ensures { out.new ≡ row_of table.entry.entries.now positions.now }
{
    fill(out, |i| lookup(table.entries, positions[i]));
}

// The same for a table of 65,536 entries, where the lookup at a position is that entry: one load for each.
fn fill_by_load(baked: &[u16], positions: &[u16], out: &mut [u16])
    requires baked_len { length baked.now ≡ 65536 }
    requires out_len { length out.old ≡ length positions.now }
    ensures { out.new ≡ row_of baked.now positions.now }
{
    fill(out, |i| baked[wide(positions[i])]);
}

// The quicker of the two that the table allows.
fn fill_row(table: SizedTable, positions: &[u16], out: &mut [u16])
    requires { length out.old ≡ length positions.now }
    ensures { out.new ≡ row_of table.entry.entries.now positions.now }
{
    if table.entries.len() == 65536 {
        fill_by_load(table.entries, positions, out);
        return;
    }
    fill_by_lookup(table, positions, out);
}

// The samples at a row of positions, the table tested once.
pub fn lut_interp_linear16_row(
    table: &[u16],
    positions: &[u16],
    out: &mut [u16],
) -> Result<(), Refusal>
    ensures { RowPromise table.now positions.now out.old result out.new }
{
    let table = SizedTable::of(table)?;
    if out.len() != positions.len() {
        return Err(Refusal::OutputLength);
    }
    fill_row(table, positions, out);
    Ok(())
}

// The lookup at every position.
fn fill_baked(table: SizedTable, out: &mut [u16])
    requires { length out.old ≡ 65536 }
    ensures { out.new ≡ baked_of table.entry.entries.now }
{
    fill(out, |i| lookup(table.entries, i as u16));
}

// Fills `out` with the table's answers at every position. The 16-bit lookup in it answers as in the table, and a row of
// them takes one load each.
pub fn bake(table: &[u16], out: &mut [u16]) -> Result<(), Refusal>
    ensures { BakePromise table.now out.old result out.new }
{
    let table = SizedTable::of(table)?;
    if out.len() != 65536 {
        return Err(Refusal::OutputLength);
    }
    fill_baked(table, out);
    Ok(())
}
