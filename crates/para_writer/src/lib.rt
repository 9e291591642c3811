// A function type and its numbers written as the para tag of ICC.1, and both round trips. The round trips are proved in
// proofs/RoundTrip.antt.
#![tactic(auto)]

ghost use Rattle.std.specs.Prelude.{◌≡◌, ◌++◌, ◌≤◌, length, take};
ghost use Rattle.icc.specs.Bytes.{bytes32};
ghost use Rattle.icc.specs.Words.{in_turn};
ghost use Rattle.para.specs.Tag.{tag_length};
ghost use Rattle.para_writer.specs.Written.{head, patterns};
ghost use Rattle.para_writer.specs.Promises.{WritePromise};

use icc::inside::{put_opening, put_u16, put_u32};
use para::Numbers;
use para::inside::{SIGNATURE, count_of, tag_length};
use table::Refusal;

// The first twelve bytes of a tag of type t.
fn put_head(out: &mut [u8], t: u16)
    requires { 12 ≤ length out.old }
    ensures { take 12 out.new ≡ head t }
{
    put_opening(out, SIGNATURE);
    put_u16(out, 8, t);
    put_u16(out, 10, 0);
}

// The patterns' bytes, after the first twelve.
fn put_patterns(patterns: &[u32], out: &mut [u8])
    requires { length out.old ≡ tag_length (length patterns.now) }
    ensures { out.new ≡ take 12 out.old ++ in_turn bytes32 patterns.now }
{
    for (k, pattern) in patterns.iter().enumerate() {
        put_u32(out, 12 + 4 * k, *pattern);
    }
}

// The bytes of the first n numbers, after the first twelve.
fn put_numbers(numbers: Numbers, n: usize, out: &mut [u8])
    requires few { n ≤ 7 }
    requires out_len { length out.old ≡ tag_length n }
    ensures { out.new ≡ take 12 out.old ++ in_turn bytes32 (take n (patterns numbers)) }
{
    let listed = [
        numbers.g, numbers.a, numbers.b, numbers.c, numbers.d, numbers.e, numbers.f,
    ];
    let patterns = listed.map(|number| number.cast_unsigned());
    put_patterns(&patterns[..n], out);
}

// Writes a function type and the numbers that it uses as a tag.
pub fn write_para(t: usize, numbers: Numbers, out: &mut [u8]) -> Result<(), Refusal>
    ensures { WritePromise t numbers out.old result out.new }
{
    if 4 < t {
        return Err(Refusal::FunctionType);
    }
    let n = count_of(t);
    if out.len() != tag_length(n) {
        return Err(Refusal::OutputLength);
    }
    put_head(out, t as u16);
    put_numbers(numbers, n, out);
    Ok(())
}
