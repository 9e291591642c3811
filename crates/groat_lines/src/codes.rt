// What a code stands for. Every number of a line is read as a code of 64 bits. The codes of one kind of number count up
// from 0. No conversion of std's has their offset and their patterns.
use patterns::{double_of, float_of};

// The number of a code that suits a place of 16 bits: nothing is cut.
pub fn short(code: u64) -> u16 {
    (code % 65536) as u16
}

// The raw number of a code, which is 2^31 more.
pub fn raw(code: u64) -> i32 {
    if code < 0x8000_0000 {
        return !((0x7fff_ffff - code) as i32);
    }
    (code % 0x8000_0000) as i32
}

// The f32 of a code, which is a pattern of 32 bits.
pub fn single(code: u64) -> f32 {
    float_of((code % 0x1_0000_0000) as u32)
}

// The f64 of a code, which is a pattern of 64 bits.
pub fn double(code: u64) -> f64 {
    double_of(code)
}
