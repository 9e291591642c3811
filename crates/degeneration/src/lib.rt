// The verdict degenerated: a run of 20 or more equal entries at either end of a curve.
#![tactic(auto)]

ghost use Rattle.std.specs.Prelude.{◌≡◌, ◌<◌, ◌-◌, ◌==◌, length, take_while, get_or, reverse};
ghost use Rattle.degeneration.specs.Runs.{degenerated};
ghost use Rattle.degeneration.specs.Promises.{DegeneratedPromise};

use table::{Refusal, not_above};

// How many entries in a row, from the first on, equal it.
fn leading(table: &[u16]) -> usize
    requires { 0 < length table.now }
    ensures { result ≡ length (take_while (λ x. x == get_or table.now 0 0) table.now) }
{
    let first = table[0];
    table.iter().take_while(|x| **x == first).count()
}

// How many entries in a row, from the last back, equal it.
fn trailing(table: &[u16]) -> usize
    requires { 0 < length table.now }
    ensures { result ≡ length (take_while (λ x. x == get_or table.now (length table.now - 1) 0) (reverse table.now)) }
{
    let last = table[table.len() - 1];
    table.iter().rev().take_while(|x| **x == last).count()
}

// Whether the run at either end has at least 20 entries. The Rust's names say percentage; they are counts.
fn stands_still(table: &[u16]) -> bool
    ensures { result ≡ degenerated table.now }
{
    if table.len() < 2 {
        return false;
    }
    if 20 <= leading(table) {
        return true;
    }
    20 <= trailing(table)
}

// Degenerated: the run of equal entries at either end has 20 entries or more.
pub fn is_curve_degenerated(table: &[u16]) -> Result<bool, Refusal>
    ensures { DegeneratedPromise table.now result }
{
    if !not_above(table.len()) {
        return Err(Refusal::TableLength);
    }
    if stands_still(table) {
        return Ok(true);
    }
    Ok(false)
}
