// The para tag of ICC.1 checked, and its numbers read.
#![tactic(auto)]

ghost use Rattle.std.specs.Prelude.{◌≡◌, ◌≤◌, length};
ghost use Rattle.para.specs.Tag.{tag_length, used_at, used, raw_at};
ghost use Rattle.para.specs.Promises.{ReadPromise};

use icc::inside::{u16_at, u32_at};
use table::Refusal;

pub mod inside;

// Seven raw 16.16 numbers in a tag's order, by ICC.1's letters. C and Rust see them as they stand here.
#[repr(C)]
#[derive(Clone, Copy, Default)]
pub struct Numbers {
    pub g: i32,
    pub a: i32,
    pub b: i32,
    pub c: i32,
    pub d: i32,
    pub e: i32,
    pub f: i32,
}

// Number k of a tag that has n, or 0 where it has no such.
fn number_at(tag: &[u8], n: usize, k: usize) -> i32
    requires { tag_length n ≤ length tag.now }
    ensures { result ≡ used_at n (raw_at tag.now) k }
{
    if k < n {
        return u32_at(tag, 12 + 4 * k).cast_signed();
    }
    0
}

// The n numbers of a tag, and 0 for the rest.
fn numbers_of(tag: &[u8], n: usize) -> Numbers
    requires { tag_length n ≤ length tag.now }
    ensures { result ≡ used n (raw_at tag.now) }
{
    Numbers {
        g: number_at(tag, n, 0),
        a: number_at(tag, n, 1),
        b: number_at(tag, n, 2),
        c: number_at(tag, n, 3),
        d: number_at(tag, n, 4),
        e: number_at(tag, n, 5),
        f: number_at(tag, n, 6),
    }
}

// Reads a tag's count and its raw numbers.
pub fn read_para(tag: &[u8]) -> Result<(usize, Numbers), Refusal>
    ensures { ReadPromise tag.now result }
{
    if tag.len() < 12 {
        return Err(Refusal::TagLength);
    }
    if u32_at(tag, 0) != inside::SIGNATURE {
        return Err(Refusal::WrongSignature);
    }
    if u32_at(tag, 4) != 0 {
        return Err(Refusal::ReservedNotZero);
    }
    if u16_at(tag, 10) != 0 {
        return Err(Refusal::ReservedNotZero);
    }
    let function_type = usize::from(u16_at(tag, 8));
    if 4 < function_type {
        return Err(Refusal::FunctionType);
    }
    let n = inside::count_of(function_type);
    if tag.len() != inside::tag_length(n) {
        return Err(Refusal::TagLength);
    }
    Ok((n, numbers_of(tag, n)))
}
