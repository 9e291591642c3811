// The verdict monotonic: 20 × violations < entries, where a violation is a step against the given direction. A table of
// fewer than 2 entries is monotonic.
#![tactic(auto)]

ghost use Rattle.std.specs.Prelude.{◌≡◌, ◌*◌, ◌≤◌, length, ltb};
ghost use Rattle.monotonic.specs.Steps.{yes_no, against, violations, few_enough};
ghost use Rattle.monotonic.specs.Promises.{MonotonicPromise};

use table::inside::{entry, wide};
use table::{Refusal, not_above};

// Which way a curve is to go. The Rust works this out by a routine that is not in its text, so here the caller says it.
#[derive(Clone, Copy)]
pub enum Direction {
    Rising,
    Falling,
}

// The verdict, with the violations: how many steps are against the direction.
#[derive(Clone, Copy)]
pub enum Monotonic {
    Yes(usize),
    No(usize),
}

// 1 for a step against the direction, 0 for any other: a number, so that the count needs no branch.
fn against(direction: Direction, previous: usize, current: usize) -> u16
    ensures { (result ≡ yes_no (against direction previous current)) × (result ≤ 1) }
{
    match direction {
        Direction::Rising => u16::from(current < previous),
        Direction::Falling => u16::from(previous < current),
    }
}

// How many steps from an entry to the next are against the direction. The count is as wide as an entry, so that the
// compiler counts eight steps at a time. The table is no SizedTable, as an empty one gets a verdict too. By an
// index: the edit first_pair_skipped is a slip of where it begins.
fn violations(table: &[u16], direction: Direction) -> usize
    requires { length table.now ≤ 65536 }
    ensures { result ≡ violations direction table.now }
{
    let mut count: u16 = 0;
    for i in 1..table.len() {
        count += against(direction, entry(table, i - 1), entry(table, i));
    }
    wide(count)
}

// 20 × count < n.
fn below_a_twentieth(n: usize, count: usize) -> bool
    requires { count ≤ 65536 }
    ensures { result ≡ ltb (20 * count) n }
{
    20 * count < n
}

// Whether a table of n entries with `count` violations is monotonic.
fn few_enough(n: usize, count: usize) -> bool
    requires { count ≤ 65536 }
    ensures { result ≡ few_enough n count }
{
    if n < 2 {
        return true;
    }
    below_a_twentieth(n, count)
}

// Monotonic: 20 × violations < entries, or fewer than 2 entries. The verdict comes with the violations.
pub fn is_curve_monotonic(table: &[u16], direction: Direction) -> Result<Monotonic, Refusal>
    ensures { MonotonicPromise table.now direction result }
{
    if !not_above(table.len()) {
        return Err(Refusal::TableLength);
    }
    let count = violations(table, direction);
    if few_enough(table.len(), count) {
        return Ok(Monotonic::Yes(count));
    }
    Ok(Monotonic::No(count))
}
