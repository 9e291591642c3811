// What the calls over a log are made of. Shared helpers, not public; `word` has a precondition.
ghost use Rattle.std.specs.Prelude.{◌≡◌, ◌<◌};
ghost use Rattle.nudge_log.specs.Records.{word as word_of, new_of, old_of, index_of, goes_with};

use table::inside::{entry, suits, wide};

// How many nudges a log holds.
pub const PLACES: usize = 63;

// A granted nudge as one word.
pub fn word(index: usize, old: u16, new: u16) -> u64
    requires { index < 65536 }
    ensures { result ≡ word_of index old new }
{
    index as u64 * 0x1_0000_0000 + u64::from(old) * 0x1_0000 + u64::from(new)
}

pub fn new_of(word: u64) -> u16
    ensures { result ≡ new_of word }
{
    (word % 0x1_0000) as u16
}

pub fn old_of(word: u64) -> u16
    ensures { result ≡ old_of word }
{
    (word / 0x1_0000 % 0x1_0000) as u16
}

pub fn index_of(word: u64) -> usize
    ensures { result ≡ index_of word }
{
    (word / 0x1_0000_0000) as usize
}

// Whether the word may be the table's last nudge, so that it can be taken back.
pub fn goes_with(table: &[u16], word: u64) -> bool
    ensures { result ≡ goes_with table.now word }
{
    let i = index_of(word);
    if table.len() <= i {
        return false;
    }
    if entry(table, i) != wide(new_of(word)) {
        return false;
    }
    suits(table, i, wide(old_of(word)))
}
