// A table written as the curv tag of ICC.1, and both round trips. The round trips are proved in proofs/RoundTrip.antt.
#![tactic(auto)]

ghost use Rattle.std.specs.Prelude.{◌≡◌, ◌++◌, ◌≤◌, length, take};
ghost use Rattle.curv.specs.Tag.{tag_length};
ghost use Rattle.curv_writer.specs.Written.{bytes_of, head};
ghost use Rattle.curv_writer.specs.Promises.{WritePromise};

use curv::inside::{MOST, SIGNATURE, tag_length};
use icc::inside::{put_opening, put_u16, put_u32};
use table::Refusal;

// The first twelve bytes of a tag of n entries.
fn put_head(out: &mut [u8], n: u32)
    requires { 12 ≤ length out.old }
    ensures { take 12 out.new ≡ head n }
{
    put_opening(out, SIGNATURE);
    put_u32(out, 8, n);
}

// The entries' bytes, after the first twelve.
fn put_entries(table: &[u16], out: &mut [u8])
    requires { length out.old ≡ tag_length (length table.now) }
    ensures { out.new ≡ take 12 out.old ++ bytes_of table.now }
{
    for (i, entry) in table.iter().enumerate() {
        put_u16(out, 12 + 2 * i, *entry);
    }
}

// Writes a table as a tag.
pub fn write_curv(table: &[u16], out: &mut [u8]) -> Result<(), Refusal>
    ensures { WritePromise table.now out.old result out.new }
{
    if MOST < table.len() {
        return Err(Refusal::TableLength);
    }
    if out.len() != tag_length(table.len()) {
        return Err(Refusal::OutputLength);
    }
    put_head(out, table.len() as u32);
    put_entries(table, out);
    Ok(())
}
