// What the crates share: `Drive` and `Density`, refusals and answers, table lengths, order, runs, filled buffers, calls
// in turn.
#![tactic(auto)]

ghost use Rattle.std.specs.Prelude.{◌≡◌};
ghost use Rattle.table.specs.Refusals.{number_of};
ghost use Rattle.table.specs.Sizes.{within, sized, spanned, not_above};
ghost use Rattle.table.specs.Order.{nondecreasing};

pub mod inside;

// A position, the input side of a curve. The lab calls it drive.
#[repr(C)]
#[derive(Clone, Copy)]
pub struct Drive(pub u16);

// A sample value, the output side of a curve. The lab calls it density.
#[repr(C)]
#[derive(Clone, Copy)]
pub struct Density(pub u16);

// Why a call is refused: a case for each row of document 01, and for each that a request of document 02 has added, in
// the order of their numbers. What each means stands once, as a sentence in `bg_refusal_text` of include/brassgroat.h.
#[derive(Clone, Copy)]
pub enum Refusal {
    TableLength = 1,
    NotNondecreasing = 2,
    IndexBeyond = 3,
    OutsideNeighbours = 4,
    AboveLast = 5,
    OutputLength = 6,
    ParameterCount = 7,
    TagLength = 8,
    WrongSignature = 9,
    ReservedNotZero = 10,
    FunctionType = 11,
    OutsideRange = 12,
    OutsideUnit = 13,
    LogFull = 15,
    NothingToTakeBack = 16,
    BadLog = 17,
    Exponent = 18,
}

// The documents' number of a refusal. By name, and no From: docs/PROMISES.md and `number_of` in specs/ have it so.
pub fn number(why: Refusal) -> u32
    ensures { result ≡ number_of why }
{
    why as u32
}

// Whether n is from low to high, both included.
pub fn within(low: usize, high: usize, n: usize) -> bool
    ensures { result ≡ within low high n }
{
    if n < low {
        return false;
    }
    n <= high
}

// Whether a table may have n entries, for most calls.
pub fn sized(n: usize) -> bool
    ensures { result ≡ sized n }
{
    within(1, 65536, n)
}

// Whether a table may have n entries where the first and the last must be two.
pub fn spanned(n: usize) -> bool
    ensures { result ≡ spanned n }
{
    within(2, 65536, n)
}

// Whether a table may have n entries where it may be empty.
pub fn not_above(n: usize) -> bool
    ensures { result ≡ not_above n }
{
    n <= 65536
}

// Whether no entry is below the one before it. All pairs are compared, and what came of it is tested once at the end:
// without a way out of the loop the compiler compares eight pairs at a time. By an index: the edit
// order_first_pair_skipped is a slip of where it begins.
pub fn in_order(table: &[u16]) -> bool
    ensures { result ≡ nondecreasing table.now }
{
    let mut fallen = false;
    for i in 1..table.len() {
        fallen |= table[i] < table[i - 1];
    }
    !fallen
}
