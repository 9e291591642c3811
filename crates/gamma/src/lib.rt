// The integer gamma lookup: as the 16-bit lookup, but with N - 1 for its divisor and an answer of `depth` bits.
#![tactic(auto)]

ghost use Rattle.std.specs.Prelude.{◌≡◌, ◌-◌, ◌*◌, ◌≤◌, ◌^◌};
ghost use Rattle.gamma.specs.Inside.{GammaFits};
ghost use Rattle.gamma.specs.Gamma.{gamma_unit, gamma_up};
ghost use Rattle.gamma.specs.Promises.{GammaPromise};

use lookup::inside::weighted;
use table::inside::SizedTable;
use table::{Refusal, spanned, within};

// The largest number that `depth` bits hold.
fn max_colors(depth: usize) -> usize
    requires { (1 ≤ depth) × (depth ≤ 16) }
    ensures { (result ≡ 2 ^ depth - 1) × (1 ≤ result) × (result ≤ 65535) }
{
    (1usize << depth) - 1
}

// How much of the weighted sum makes one step of the gamma lookup's answer.
fn gamma_unit(inputs: usize, depth: usize) -> usize
    requires { (2 ≤ inputs) × (inputs ≤ 65536) × (1 ≤ depth) × (depth ≤ 16) }
    ensures { (result ≡ gamma_unit inputs depth) × (inputs - 1 ≤ result) × (result ≤ 65535 * 65535) }
{
    let cap_value = inputs - 1;
    cap_value * 65535 / max_colors(depth)
}

// The gamma lookup, once its numbers are tested. The sum and half a unit can together pass the Rust's 32 bits, so they
// are worked wide.
fn gamma(table: SizedTable, inputs: usize, depth: usize, input: usize) -> u16
    requires { GammaFits inputs depth input }
    ensures { result ≡ gamma_up table.entry.entries.now inputs depth input }
{
    let value = weighted(table.entries, input * table.last(), inputs - 1);
    let unit = gamma_unit(inputs, depth);
    ((value + unit / 2) / unit) as u16
}

// The Rust's integer gamma lookup with N = inputs, BIT_DEPTH = depth and T = u16. Its answer is a code of about `depth`
// bits, which can be one more than these hold, and so is no sample.
pub fn lut_interp_linear_gamma_impl(
    table: &[u16],
    inputs: usize,
    depth: usize,
    input: usize,
) -> Result<u16, Refusal>
    ensures { GammaPromise table.now inputs depth input result }
{
    let table = SizedTable::of(table)?;
    if !spanned(inputs) {
        return Err(Refusal::OutsideRange);
    }
    if !within(1, 16, depth) {
        return Err(Refusal::OutsideRange);
    }
    if inputs <= input {
        return Err(Refusal::IndexBeyond);
    }
    Ok(gamma(table, inputs, depth, input))
}
