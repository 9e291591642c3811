// Gamma curves worked out on whole numbers: one value or a whole table, by an exponent in 65536ths or by a gamma tag's
// entry.
#![tactic(auto)]

ghost use Rattle.std.specs.Prelude.{◌≡◌, true, length};
ghost use Rattle.table.specs.Sizes.{spanned};
ghost use Rattle.power_curve.specs.Curve.{added, value_at, table_of, exponent_of};
ghost use Rattle.power_curve.specs.Promises.{allowed_exponent, PowerPromise, PowerTablePromise};

use curve::inside::ramp;
use power::inside::power as power_of;
use table::inside::fill;
use table::{Density, Drive, Refusal, spanned, within};

// Whether a curve may have the exponent: above 0 and at most 4. Like every `exponent` here it counts 65536ths.
fn allowed(exponent: u64) -> bool
    ensures { result ≡ allowed_exponent exponent }
{
    within(1, 262144, exponent as usize)
}

// What is added before the last division: below an exponent of 1 it rounds up, from 1 on to the nearest.
fn added(exponent: u64) -> u64
    ensures { result ≡ added exponent }
{
    if exponent < 65536 {
        return 65535;
    }
    32768
}

// The curve's value at x.
fn value(x: u16, exponent: u64) -> u16
    ensures { result ≡ value_at exponent x }
{
    ((power_of(x as u64 * 65536, exponent) + added(exponent)) / 65536) as u16
}

// The curve over the whole buffer.
fn fill_values(out: &mut [u16], exponent: u64)
    requires { spanned (length out.old) ≡ true }
    ensures { out.new ≡ table_of exponent (length out.old) }
{
    let n = out.len();
    fill(out, |i| value(ramp(n, i), exponent));
}

// The curve's value at x: 65535·(x/65535)^(exponent/65536), to within one.
pub fn power(x: Drive, exponent: u64) -> Result<Density, Refusal>
    ensures { PowerPromise x exponent result }
{
    if !allowed(exponent) {
        return Err(Refusal::Exponent);
    }
    Ok(Density(value(x.0, exponent)))
}

// Fills a buffer of n entries with the curve: entry i is the value at entry i of the straight curve of n entries.
pub fn power_table(out: &mut [u16], n: usize, exponent: u64) -> Result<(), Refusal>
    ensures { PowerTablePromise out.old n exponent result out.new }
{
    if !spanned(n) {
        return Err(Refusal::TableLength);
    }
    if !allowed(exponent) {
        return Err(Refusal::Exponent);
    }
    if out.len() != n {
        return Err(Refusal::OutputLength);
    }
    fill_values(out, exponent);
    Ok(())
}

// The value at x of the curve that a gamma tag's entry means, which counts 256ths.
pub fn tag_power(x: Drive, gamma: u16) -> Result<Density, Refusal>
    ensures { PowerPromise x (exponent_of gamma) result }
{
    power(x, 256 * gamma as u64)
}

// Fills a buffer of n entries with the curve that a gamma tag's entry means.
pub fn tag_power_table(out: &mut [u16], n: usize, gamma: u16) -> Result<(), Refusal>
    ensures { PowerTablePromise out.old n (exponent_of gamma) result out.new }
{
    power_table(out, n, 256 * gamma as u64)
}
