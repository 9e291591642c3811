// The entries of a curv tag read into a lent buffer.
#![tactic(auto)]

ghost use Rattle.std.specs.Prelude.{◌≡◌, ◌≤◌, length};
ghost use Rattle.table.specs.Fill.{tabulated};
ghost use Rattle.curv.specs.Tag.{entry_at, tag_length};
ghost use Rattle.curv_reader.specs.Promises.{ReadPromise};

use curv::count_entries;
use icc::inside::u16_at;
use table::Refusal;

// Fills `out` with as many entries as it holds.
#[tactic(auto, unfolding(curv::specs::Tag::entry_at))]
fn fill(tag: &[u8], out: &mut [u16])
    requires { tag_length (length out.old) ≤ length tag.now }
    ensures { out.new ≡ tabulated (entry_at tag.now) (length out.old) }
{
    table::inside::fill(out, |i| u16_at(tag, 12 + 2 * i));
}

// Reads a tag's entries into `out`.
pub fn read_curv(tag: &[u8], out: &mut [u16]) -> Result<(), Refusal>
    ensures { ReadPromise tag.now out.old result out.new }
{
    let n = count_entries(tag)?;
    if out.len() != n {
        return Err(Refusal::OutputLength);
    }
    fill(tag, out);
    Ok(())
}
