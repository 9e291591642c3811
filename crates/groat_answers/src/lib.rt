// What the bench program's requests share: what is kept, and answers as text. Here are the answers: `ok`, `refused N`,
// and lists of numbers, floats and bytes.
#![tactic(auto)]

pub mod inside;

use groat_lines::Bench;
pub use inside::{Kept, Log};
use parametric::ParametricCurve;
use table::{Density, Drive, Refusal, number};

// What stands as an item in a list of answers.
pub trait Item {
    fn put(&self, bench: &mut Bench);
}

impl Item for u16 {
    fn put(&self, bench: &mut Bench) {
        bench.put_decimal(u64::from(*self));
    }
}

impl Item for u32 {
    fn put(&self, bench: &mut Bench) {
        bench.put_decimal(u64::from(*self));
    }
}

impl Item for f32 {
    fn put(&self, bench: &mut Bench) {
        if self.is_nan() {
            bench.put(b"nan");
        } else {
            bench.put_hex(u64::from(self.to_bits()), 8);
        }
    }
}

impl Item for Density {
    fn put(&self, bench: &mut Bench) {
        self.0.put(bench);
    }
}

impl Item for Drive {
    fn put(&self, bench: &mut Bench) {
        self.0.put(bench);
    }
}

// The comma before every item but the first.
pub fn put_comma(bench: &mut Bench, place: usize) {
    if place > 0 {
        bench.put_byte(b',');
    }
}

// Where a list has no items.
pub fn put_none(bench: &mut Bench, n: usize) {
    if n == 0 {
        bench.put_byte(b'-');
    }
}

pub fn put_list<T: Item>(bench: &mut Bench, list: &[T]) {
    put_none(bench, list.len());
    for (place, item) in list.iter().enumerate() {
        put_comma(bench, place);
        item.put(bench);
    }
}

// An item of a list, or why it is refused.
pub fn put_item<T: Item + Drop>(bench: &mut Bench, answer: Result<T, Refusal>) {
    match answer {
        Ok(item) => item.put(bench),
        Err(why) => {
            bench.fault();
            bench.put_byte(b'!');
            bench.put_decimal(u64::from(number(why)));
        }
    }
}

pub fn put_bytes(bench: &mut Bench, bytes: &[u8]) {
    put_none(bench, bytes.len());
    for &byte in bytes {
        bench.put_hex(u64::from(byte), 2);
    }
}

pub fn put_ok(bench: &mut Bench, n: usize) {
    bench.put(b"ok ");
    bench.put_decimal(n as u64);
}

pub fn put_refused_number(bench: &mut Bench, why: u32) {
    bench.fault();
    bench.put(b"refused ");
    bench.put_decimal(u64::from(why));
}

pub fn put_refused(bench: &mut Bench, why: Refusal) {
    put_refused_number(bench, number(why));
}

pub fn put_done(bench: &mut Bench, done: Result<(), Refusal>) {
    match done {
        Ok(()) => bench.put(b"ok"),
        Err(why) => put_refused(bench, why),
    }
}

// The same where the answer says how many there are.
pub fn put_count(bench: &mut Bench, count: Result<usize, Refusal>) {
    match count {
        Ok(n) => put_ok(bench, n),
        Err(why) => put_refused(bench, why),
    }
}

pub fn put_yes_no(bench: &mut Bench, answer: bool) {
    bench.put(if answer { b"yes" } else { b"no" });
}

fn put_curve(bench: &mut Bench, curve: ParametricCurve) {
    put_list(
        bench,
        &[
            curve.g, curve.a, curve.b, curve.c, curve.d, curve.e, curve.f,
        ],
    );
}

// The seven floats of a curve.
pub fn put_unified(bench: &mut Bench, answer: Result<ParametricCurve, Refusal>) {
    match answer {
        Ok(curve) => put_curve(bench, curve),
        Err(why) => put_refused(bench, why),
    }
}
