// The least inputs of a row of values.
#![tactic(auto)]

ghost use Rattle.std.specs.Prelude.{◌≤◌, ◌≡◌, length};
ghost use Rattle.table.specs.Order.{last_entry};
ghost use Rattle.least.specs.Inside.{FirstReaching};
ghost use Rattle.least_row.specs.Promises.{row_position, least_row_of, LeastRowPromise};

use four::four_reaching;
use least::inside::PassedTable;
use table::{Refusal, sized};

mod four;

// What a row holds for v: its least input, or one past the last position where there is none. Entry `next` is the first
// that is not below v, where there is one.
fn row_position_at(table: PassedTable, v: u16, next: usize) -> u32
    requires { v ≤ last_entry table.table.now → FirstReaching table.table.now v next }
    ensures { result ≡ row_position table.entry.table.now v }
{
    if table.last() < v {
        return 65536;
    }
    table.least_at(v, next) as u32
}

// The same, with that entry searched for.
fn row_position(table: PassedTable, v: u16) -> u32
    ensures { result ≡ row_position table.entry.table.now v }
{
    row_position_at(table, v, table.first_reaching(v))
}

// The same for each value, four at a time while there are four. By an index: the edits row_rest_begins_one_late and
// row_rest_not_written are slips of where the rest begins.
fn fill_least_row(table: PassedTable, values: &[u16], out: &mut [u32])
    requires { length out.old ≡ length values.now }
    ensures { out.new ≡ least_row_of table.entry.table.now values.now }
{
    let fours = values.len() / 4;
    for k in 0..fours {
        let i = 4 * k;
        let next = four_reaching(table, values, i);
        for j in 0..4 {
            out[i + j] = row_position_at(table, values[i + j], next[j]);
        }
    }
    for i in 4 * fours..values.len() {
        out[i] = row_position(table, values[i]);
    }
}

// The least inputs of a row of values, the table tested once. A value above the last entry, which a single call
// refuses, has 65,536 in its place.
pub fn least_input_row(table: &[u16], values: &[u16], out: &mut [u32]) -> Result<(), Refusal>
    ensures { LeastRowPromise table.now values.now out.old
        result out.new }
{
    // Refusal 6 comes between the two tests of `PassedTable::of` (`least_row_verdict`), so the first is made before.
    if !sized(table.len()) {
        return Err(Refusal::TableLength);
    }
    if out.len() != values.len() {
        return Err(Refusal::OutputLength);
    }
    fill_least_row(PassedTable::of(table)?, values, out);
    Ok(())
}
