// Rounding, by the Rust's rules: f64 and fixed-point numbers to the nearest f32; floor, ceil, min and abs. Floor and
// ceil, which have a precondition, stand in `inside`.
#![tactic(auto)]

ghost use Rattle.std.specs.Prelude.{◌+◌, ◌/◌, ◌%◌, ◌<◌, ◌≤◌, ◌≡◌, Bool, cond};
ghost use Rattle.std.specs.Float.{binary32, binary64};
ghost use Rattle.std.specs.Float.Ieee.{of_bits, of_fields};
ghost use Rattle.std.specs.Float.Ieee.Nearest.{closest};
ghost use Rattle.rounding.specs.Nearest.{narrow, NarrowPromise, U8Fixed8Promise, S15Fixed16Promise};
ghost use Rattle.rounding.specs.Size.{MinPromise, AbsPromise};

pub mod inside; // inside.rt: floor and ceil

// Not std::num's rounding to f32: the edits narrow_.. are slips of the steps from here to nearest_f64_to_f32.
// n / d to the nearest whole number, a tie to the even one. One test decides, so that no branch hangs on digits that
// are as good as random.
fn nearest_quotient(n: u64, d: u64) -> u64
    requires some { 0 < d }
    requires d_small { d ≤ 0x4000_0000_0000_0000 }
    requires n_small { n < 0x4000_0000_0000_0000 }
    ensures { result ≡ closest n d }
{
    let q = n / d;
    let twice = n % d * 2;
    if d < twice + q % 2 {
        return q + 1;
    }
    q
}

// The same without a test, for an even d. Half of d, less one, and one more where the quotient is odd, are added first:
// the sum reaches the next multiple of d exactly where the quotient goes up.
fn nearest_even_quotient(n: u64, d: u64) -> u64
    requires some { 2 ≤ d }
    requires even { d % 2 ≡ 0 }
    requires d_small { d ≤ 0x4000_0000_0000_0000 }
    requires n_small { n < 0x4000_0000_0000_0000 }
    ensures { result ≡ closest n d }
{
    (n + d / 2 + n / d % 2 - 1) / d
}

// The bit pattern, without its sign, of the f32 nearest to the f64 that has the bit pattern `bits` without its sign.
// Its upper bits are the exponent, which is 896 above an f32's of the same number (0x380), and its digits are 29 more.
// From the exponent 1151 (0x47f) on the number is too large, up to 872 it is less than half of the smallest f32, and
// from 873 (0x369) to 896 the f32 is subnormal, with one digit less for each step down.
fn magnitude_of(bits: u64) -> u64
    requires { bits ≤ 0x7ff0_0000_0000_0000 }
    ensures in_range { result ≤ 0x7f80_0000 }
    ensures nearest { ((s : Bool) → of_bits binary32 (cond s 0x8000_0000 0 + result)
        ≡ narrow (of_fields binary64 s (bits / 0x10_0000_0000_0000) (bits % 0x10_0000_0000_0000))) }
{
    if bits >= 0x47f0_0000_0000_0000 {
        return 0x7f80_0000;
    }
    if bits >= 0x3810_0000_0000_0000 {
        // exponent and digits as one number: digits that are rounded up to 2^24 carry into the exponent, as they should
        return nearest_even_quotient(bits - 0x3800_0000_0000_0000, 0x2000_0000);
    }
    if bits >= 0x3690_0000_0000_0000 {
        return nearest_quotient(
            0x10_0000_0000_0000 + bits % 0x10_0000_0000_0000,
            1 << (926 - bits / 0x10_0000_0000_0000),
        );
    }
    0
}

// The same of the f64 that has `exponent` in its exponent's field and `digits` in the one below.
fn magnitude(exponent: u64, digits: u64) -> u64
    requires exponent_fits { exponent ≤ 2047 }
    requires digits_fit { digits < 0x10_0000_0000_0000 }
    requires no_nan { (exponent ≡ 2047 → digits ≡ 0) }
    ensures in_range { result ≤ 0x7f80_0000 }
    ensures nearest { ((s : Bool) → of_bits binary32 (cond s 0x8000_0000 0 + result)
        ≡ narrow (of_fields binary64 s exponent digits)) }
{
    magnitude_of(exponent * 0x10_0000_0000_0000 + digits)
}

// Rust's `x as f32`.
pub fn nearest_f64_to_f32(x: f64) -> f32
    ensures { NarrowPromise x result }
{
    if x != x {
        return 0.0 / 0.0;
    }
    let bits = f64::to_bits(x);
    let exponent = bits % 0x8000_0000_0000_0000 / 0x10_0000_0000_0000;
    let digits = bits % 0x10_0000_0000_0000;
    let pattern = magnitude(exponent, digits);
    if bits >= 0x8000_0000_0000_0000 {
        return f32::from_bits((0x8000_0000 + pattern) as u32);
    }
    f32::from_bits(pattern as u32)
}

// An unsigned 8.8 number: x / 256, which an f32 holds.
pub fn u8_fixed_8number_to_float(x: u16) -> f32
    ensures { U8Fixed8Promise x result }
{
    nearest_f64_to_f32((x as f64) / 256.0)
}

// A signed 16.16 number: x / 65536, which an f64 holds, rounded once.
pub fn s15_fixed16_number_to_float(x: i32) -> f32
    ensures { S15Fixed16Promise x result }
{
    nearest_f64_to_f32((x as f64) / 65536.0)
}

// Rust's `x.min(bound)`. Not std's own: that doesn't say which of two zeros it gives, and `minimum` in specs/Size does.
pub fn min_f32(x: f32, bound: f32) -> f32
    ensures { MinPromise x bound result }
{
    if x != x {
        return bound;
    }
    if x > bound {
        return bound;
    }
    x
}

// Rust's `x.abs()`. A function for each format: a trait over both would be longer.
pub fn abs_f32(x: f32) -> f32
    ensures { AbsPromise x result }
{
    f32::abs(x)
}

pub fn abs_f64(x: f64) -> f64
    ensures { AbsPromise x result }
{
    f64::abs(x)
}
