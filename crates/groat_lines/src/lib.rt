// The bench program's input and output: request lines read as words, numbers and lists, and answers written as bytes.
// Nothing is held as text but a path, so a line may be as long as it likes. Each reading leaves the input at the byte
// after what it read, and answers with what it read or with what is wrong with the line.
#![tactic(auto)]

ghost use Rattle.std.specs.Prelude.{◌≡◌, take};

mod bytes;
mod codes;
mod lists;
mod numbers;
mod problems;
mod rows;
mod streams;
mod words;

pub use bytes::Tag;
pub use codes::{double, raw, short, single};
pub use lists::{Codes, List};
pub use numbers::Place;
pub use problems::Problem;
pub use streams::{Bench, Now, hex_digit};
pub use words::{Name, Path, name_of};

// The first n items of a buffer, or all.
pub fn first<T>(items: &[T], n: usize) -> &[T]
    ensures { result.now ≡ take n items.now }
{
    if n < items.len() {
        return &items[..n];
    }
    items
}
