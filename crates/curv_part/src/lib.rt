// The entries of a curv tag handed back as bytes of the tag itself.
#![tactic(auto)]

ghost use Rattle.curv_part.specs.Promises.{PartPromise};

use curv::count_entries;
use curv::inside::tag_length;
use table::number;

// The bytes of a tag's entries, as that part of the tag and no copy; `why` is the refusal's number, or 0.
// Not a Result: PartPromise says where a refused part lies; the edit refused_part_not_empty hands back a wrong one.
pub fn entry_bytes<'a, 'b>(tag: &'a [u8], why: &'b mut u32) -> &'a [u8]
    ensures { PartPromise tag.entry result why.new }
{
    match count_entries(tag) {
        Err(refusal) => {
            *why = number(refusal);
            return &tag[0..0];
        }
        Ok(n) => {
            *why = 0;
            let end = tag_length(n);
            return &tag[12..end];
        }
    }
}
