// Exports on the curv tag.
ghost use Rattle.table.specs.Answers.{number_of_answer};
ghost use Rattle.curv.specs.Promises.{CountPromise};
ghost use Rattle.curv_reader.specs.Promises.{ReadPromise};
ghost use Rattle.curv_writer.specs.Promises.{WritePromise};
ghost use Rattle.brassgroat.specs.Carried.{Carried, PartCarried};
ghost use Rattle.plain_answers.specs.Answers.{as_count};

use curv::count_entries;
use curv_part::entry_bytes;
use curv_reader::read_curv;
use curv_writer::write_curv;
use plain_answers::Count;
use plain_answers::inside::number_of_answer;

// Which part of a tag its entries' bytes are: a slice does not cross back, so where it starts and how long it is.
#[repr(C)]
#[derive(Clone, Copy)]
pub struct Part {
    pub refusal: u32,
    pub start: usize,
    pub len: usize,
}

#[unsafe(no_mangle)]
pub extern "C" fn bg_curv_count(tag: &[u8]) -> Count
    ensures { Carried as_count (CountPromise tag.now) result }
{
    count_entries(tag).into()
}

#[unsafe(no_mangle)]
pub extern "C" fn bg_curv_read(tag: &[u8], out: &mut [u16]) -> u32
    ensures { Carried number_of_answer
        (λ d. ReadPromise tag.now out.old d out.new) result }
{
    number_of_answer(read_curv(tag, out))
}

#[unsafe(no_mangle)]
pub extern "C" fn bg_curv_part(tag: &[u8]) -> Part
    ensures { PartCarried tag.entry result }
{
    let mut refusal: u32 = 0;
    let part = entry_bytes(tag, &mut refusal);
    if refusal != 0 {
        return Part {
            refusal,
            start: 0,
            len: 0,
        };
    }
    Part {
        refusal: 0,
        start: 12,
        len: part.len(),
    }
}

#[unsafe(no_mangle)]
pub extern "C" fn bg_curv_write(table: &[u16], out: &mut [u8]) -> u32
    ensures { Carried number_of_answer
        (λ d. WritePromise table.now out.old d out.new) result }
{
    number_of_answer(write_curv(table, out))
}
