// The f64 steps. Not public: they have preconditions, that the table's length is tested and that x is not 0.
ghost use Rattle.std.specs.Prelude.{◌≡◌, true, ◌<◌, length};
ghost use Rattle.table.specs.Sizes.{sized};
ghost use Rattle.inverse_tail.specs.Tail.{rounded, between, tail};
ghost use Rattle.inverse_tail.specs.Inside.{CellsFit};

use rounding::abs_f64;
use rounding::inside::{ceil_f64, floor_f64};

// The position that the f64 steps come to, as 16 bits. The tests stand so that a NaN would answer 0, as the Rust's cast
// has it, with no test of its own.
fn rounded(f: f64) -> u16
    ensures { result ≡ rounded f }
{
    if f >= 65535.0 {
        return 65535;
    }
    if f >= 0.0 {
        return floor_f64(f + 0.5) as u16;
    }
    0
}

// The position on the line through two entries where it reaches the value, or x where they are one or the line is
// nearly flat. `mlaf` is a product and a sum here, each rounded.
fn between(table: &[u16], x: u16, v: u16, cell0: usize, cell1: usize) -> u16
    requires { CellsFit (length table.now) cell0 cell1 }
    ensures { result ≡ between table.now x v cell0 cell1 }
{
    if cell0 == cell1 {
        return x;
    }
    let steps = (table.len() - 1) as f64;
    let y0 = table[cell0] as f64;
    let x0 = 65535.0 * (cell0 as f64) / steps;
    let y1 = table[cell1] as f64;
    let x1 = 65535.0 * (cell1 as f64) / steps;
    let a = (y1 - y0) / (x1 - x0);
    if abs_f64(a) < 0.01 {
        return x;
    }
    let b = y0 + (-a) * x0;
    rounded(((v as f64) - b) / a)
}

// The f64 steps, after a search that probed x last and met no hit.
pub fn tail(table: &[u16], x: u16, v: u16) -> u16
    requires table_sized { sized (length table.now) ≡ true }
    requires above_zero { 0 < x }
    ensures { result ≡ tail table.now x v }
{
    let p = x - 1;
    let place = ((table.len() - 1) as f64) * ((p as f64) / 65535.0);
    let cell0 = floor_f64(place);
    let cell1 = ceil_f64(place);
    between(table, x, v, cell0, cell1)
}
