// The float lookups: a table looked up at a float from 0 to 1.
#![tactic(auto)]

ghost use Rattle.std.specs.Prelude.{◌≡◌, true, false, length};
ghost use Rattle.table.specs.Sizes.{sized};
ghost use Rattle.interp.specs.Interp.{unit, float_looked_up, outside_unit, weighed_up};
ghost use Rattle.interp.specs.Promises.{FloatPromise, LinearPromise};

use rounding::inside::{ceil_f32, ceil_f64, floor_f32, floor_f64};
use rounding::{min_f32, nearest_f64_to_f32};
use table::inside::SizedTable;
use table::{Refusal, not_above, sized};

// The Rust's `x.min(1.).max(0.)`.
fn unit(x: f32) -> f32
    ensures { result ≡ unit x }
{
    let most = min_f32(x, 1.0);
    if most < 0.0 {
        return 0.0;
    }
    most
}

// The float lookup, for whoever has tested the table's length. A `SizedTable` holds 16-bit entries: `Copy` is not
// derived for a struct of any entries that has a ghost field, and this is the one function that would take it.
fn interp_float(table: &[f32], x: f32) -> f32
    requires { sized (length table.now) ≡ true }
    ensures { result ≡ float_looked_up table.now x }
{
    let value = unit(x) * ((table.len() - 1) as f32);
    let upper = ceil_f32(value);
    let lower = floor_f32(value);
    let diff = (upper as f32) - value;
    let tu = table[upper];
    (tu - tu * diff) + table[lower] * diff
}

// The float at x from 0 to 1 in a table of floats. The table stands first, where the Rust has it last.
pub fn lut_interp_linear_float(table: &[f32], x: f32) -> Result<f32, Refusal>
    ensures { FloatPromise table.now x result }
{
    if !sized(table.len()) {
        return Err(Refusal::TableLength);
    }
    Ok(interp_float(table, x))
}

// Whether x is a NaN, below 0 or above 1.
fn outside_unit(x: f64) -> bool
    ensures { result ≡ outside_unit x }
{
    if x != x {
        return true;
    }
    if x < 0.0 {
        return true;
    }
    x > 1.0
}

// The two entries about x weighed in f64, for whoever has tested that x is from 0 to 1.
fn interp_wide(table: SizedTable, x: f64) -> f64
    requires { outside_unit x ≡ false }
    ensures { result ≡ weighed_up table.entry.entries.now x }
{
    let value = x * (table.last() as f64);
    let upper = ceil_f64(value);
    let lower = floor_f64(value);
    let w0 = table.entries[upper] as f64;
    let w1 = 1.0 - ((upper as f64) - value);
    let w2 = table.entries[lower] as f64;
    let w3 = (upper as f64) - value;
    w2 * w3 + w0 * w1
}

// The float, where 1 stands for 65535, at x from 0 to 1 in a table of 16-bit entries. An empty table passes x through.
pub fn lut_interp_linear(table: &[u16], x: f64) -> Result<f32, Refusal>
    ensures { LinearPromise table.now x result }
{
    if !not_above(table.len()) {
        return Err(Refusal::TableLength);
    }
    if outside_unit(x) {
        return Err(Refusal::OutsideUnit);
    }
    if table.len() == 0 {
        return Ok(nearest_f64_to_f32(x));
    }
    let table = SizedTable { entries: table };
    let value = nearest_f64_to_f32(interp_wide(table, x));
    Ok(value * (1.0 / 65535.0))
}
