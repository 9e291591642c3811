// The curv tag of ICC.1 checked, and its entries counted.
#![tactic(auto)]

ghost use Rattle.curv.specs.Promises.{CountPromise};

use icc::inside::u32_at;
use table::Refusal;

pub mod inside;

// How many entries a tag has, and so how long a buffer `read_curv` asks for. Its first tests are not shared with
// para's: edits of each crate are slips of their order.
pub fn count_entries(tag: &[u8]) -> Result<usize, Refusal>
    ensures { CountPromise tag.now result }
{
    if tag.len() < 12 {
        return Err(Refusal::TagLength);
    }
    if u32_at(tag, 0) != inside::SIGNATURE {
        return Err(Refusal::WrongSignature);
    }
    if u32_at(tag, 4) != 0 {
        return Err(Refusal::ReservedNotZero);
    }
    let n = u32_at(tag, 8) as usize;
    if inside::MOST < n {
        return Err(Refusal::TableLength);
    }
    if tag.len() != inside::tag_length(n) {
        return Err(Refusal::TagLength);
    }
    Ok(n)
}
