// A decimal number as its digits come in, however many, and whether it is within its range.
#![tactic(auto)]

ghost use Rattle.std.specs.Prelude.{true, false, ◌≡◌, ◌+◌, ◌*◌, ◌≤◌};
ghost use Rattle.decimal.specs.Decimal.{is_digit, has_digit, Stands, GrowsBy, Grows, comes_to, Comes, code_of};
ghost use Rattle.decimal.specs.Decimal.{ComesCoded};

const DIGIT_0: u16 = b'0' as u16;

const DIGIT_9: u16 = b'9' as u16;

// 2^64 is ten times this, and 6.
const TENTH: u64 = 1844674407370955161;

// How far a raw number of 32 bits is from its code, so that codes count up from 0.
const HALF: u64 = 0x8000_0000;

// What a number comes to in its place. In `A:B` the number B may be one above the largest of its place: so OneAbove is
// an answer there, and this no Result.
#[derive(Clone, Copy)]
pub enum Sum {
    Suits(u64),
    OneAbove,
    Wrong,
}

// A number so far.
#[derive(Clone, Copy)]
pub enum Natural {
    // It has no digit yet.
    NoDigit,
    // It is this number, below 2^64.
    Exact(u64),
    // It is 2^64.
    Edge,
    // It is more than 2^64.
    Above,
}

// No digit yet.
pub fn none() -> Natural
    ensures { (has_digit result ≡ false) × Stands result 0 }
{
    Natural::NoDigit
}

pub fn is_digit(byte: u16) -> bool
    ensures { result ≡ is_digit byte }
{
    if byte < DIGIT_0 {
        return false;
    }
    byte <= DIGIT_9
}

// The value of a digit, and 0 for any other byte.
fn digit_value(byte: u16) -> u64
    ensures { (result ≤ 9) × (48 ≤ byte → byte ≤ 57 → byte ≡ 48 + result) }
{
    match byte {
        DIGIT_0..=DIGIT_9 => u64::from(byte - DIGIT_0),
        _ => 0,
    }
}

// The number 10 * value + digit.
fn grown_below(value: u64, digit: u64) -> Natural
    requires { digit ≤ 9 }
    ensures { (has_digit result ≡ true) × Stands result (value * 10 + digit) }
{
    if value < TENTH {
        return Natural::Exact(value * 10 + digit);
    }
    if value > TENTH {
        return Natural::Above;
    }
    if digit < 6 {
        return Natural::Exact(TENTH * 10 + digit);
    }
    if digit == 6 {
        return Natural::Edge;
    }
    Natural::Above
}

fn grown_by(n: Natural, digit: u64) -> Natural
    requires { digit ≤ 9 }
    ensures { (has_digit result ≡ true) × GrowsBy n digit result }
{
    match n {
        Natural::NoDigit => Natural::Exact(digit),
        Natural::Exact(value) => grown_below(value, digit),
        Natural::Edge => Natural::Above,
        Natural::Above => Natural::Above,
    }
}

// With a digit more.
pub fn grown(n: Natural, byte: u16) -> Natural
    ensures { (has_digit result ≡ true) × Grows n byte result }
{
    grown_by(n, digit_value(byte))
}

// A number below 2^64 in a place that has none below 0.
fn placed(value: u64, largest: u64) -> Sum
    ensures { result ≡ comes_to largest value }
{
    if value <= largest {
        return Sum::Suits(value);
    }
    if value - 1 == largest {
        return Sum::OneAbove;
    }
    Sum::Wrong
}

// The number 2^64 in such a place.
fn placed_edge(largest: u64) -> Sum
    ensures { result ≡ comes_to largest 18446744073709551616 }
{
    if largest == u64::MAX {
        return Sum::OneAbove;
    }
    Sum::Wrong
}

// A number in a place that has none below 0.
pub fn unsigned(n: Natural, largest: u64) -> Sum
    ensures { Comes n largest result }
{
    match n {
        Natural::NoDigit => Sum::Wrong,
        Natural::Exact(value) => placed(value, largest),
        Natural::Edge => placed_edge(largest),
        Natural::Above => Sum::Wrong,
    }
}

// The code of a raw number below 2^64.
fn coded(value: u64, minus: bool) -> Sum
    ensures { result ≡ code_of minus value }
{
    if value > HALF {
        return Sum::Wrong;
    }
    if minus {
        return Sum::Suits(HALF - value);
    }
    if value == HALF {
        return Sum::OneAbove;
    }
    Sum::Suits(HALF + value)
}

// The code of a raw number, whose size this is and before which a minus sign may have stood.
pub fn signed(n: Natural, minus: bool) -> Sum
    ensures { ComesCoded n minus result }
{
    match n {
        Natural::Exact(value) => coded(value, minus),
        Natural::NoDigit => Sum::Wrong,
        Natural::Edge => Sum::Wrong,
        Natural::Above => Sum::Wrong,
    }
}
