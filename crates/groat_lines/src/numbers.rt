// Numbers: decimal ones of each kind, records of three, and the bit patterns of floats.
ghost use Rattle.std.specs.Prelude.{◌≤◌, IfSome};

use crate::problems::Problem;
use crate::streams::{Bench, Now};
use decimal::{Natural, Sum, grown, is_digit, signed, unsigned};

// What a number is for, which says how it is written and how large it may be.
#[derive(Clone, Copy, PartialEq, Eq)]
pub enum Place {
    // a position, a density, a table entry, an 8.8 number: 16 bits
    Short,
    // a length, an index, and whatever else a routine refuses by itself: below 2^64
    Any,
    // a raw 16.16 number: signed, 32 bits. Its code is 2^31 more
    Raw,
    // a log's record, I:OLD:NEW, of 16 bits each. Its code is the word of 64 bits that a log has for it
    Record,
    // the 8 hexadecimal digits of an f32
    Single,
    // the 16 of an f64
    Double,
}

impl Place {
    // The largest code of a place.
    pub(crate) fn largest(self) -> u64 {
        match self {
            Place::Short => 65535,
            Place::Raw => 0xffff_ffff,
            Place::Any | Place::Record | Place::Single | Place::Double => u64::MAX,
        }
    }

    pub(crate) fn is_decimal(self) -> bool {
        match self {
            Place::Short | Place::Any | Place::Raw => true,
            Place::Record | Place::Single | Place::Double => false,
        }
    }
}

// The value of a hexadecimal digit.
fn hex_value(byte: u8) -> Option<u8>
    ensures { IfSome result (λ d. d ≤ 15) }
{
    match byte {
        b'0'..=b'9' => Some(byte - b'0'),
        b'A'..=b'F' => Some(byte - b'A' + 10),
        b'a'..=b'f' => Some(byte - b'a' + 10),
        _ => None,
    }
}

fn suiting(code: Option<u64>) -> Sum {
    match code {
        Some(value) => Sum::Suits(value),
        None => Sum::Wrong,
    }
}

impl Bench {
    // The decimal digit that is looked at, if it is one.
    fn digit(&self) -> Option<u16> {
        match self.now {
            Now::Byte(byte) if is_digit(u16::from(byte)) => Some(u16::from(byte)),
            _ => None,
        }
    }

    // The value of the hexadecimal digit that is looked at, if it is one.
    pub(crate) fn hex_digit(&self) -> Option<u8> {
        match self.now {
            Now::Byte(byte) => hex_value(byte),
            Now::LineEnd | Now::InputEnd => None,
        }
    }

    // The decimal digits from here on, as many as there are.
    fn read_natural(&mut self) -> Natural {
        let mut n = decimal::none();
        for _ in 0..u64::MAX {
            let Some(digit) = self.digit() else {
                break;
            };
            n = grown(n, digit);
            self.advance();
        }
        n
    }

    fn read_unsigned(&mut self, largest: u64) -> Sum {
        let n = self.read_natural();
        unsigned(n, largest)
    }

    fn read_signed(&mut self, minus: bool) -> Sum {
        let n = self.read_natural();
        signed(n, minus)
    }

    // One of a record's numbers.
    fn read_part(&mut self) -> Option<u64> {
        match self.read_unsigned(65535) {
            Sum::Suits(part) => Some(part),
            Sum::OneAbove | Sum::Wrong => None,
        }
    }

    // The same, after a colon.
    fn read_next_part(&mut self) -> Option<u64> {
        if !self.is_at(b':') {
            return None;
        }
        self.advance();
        self.read_part()
    }

    fn read_record(&mut self) -> Option<u64> {
        let index = self.read_part()?;
        let old = self.read_next_part()?;
        let new = self.read_next_part()?;
        Some((index << 32) | (old << 16) | new)
    }

    // A float's bit pattern, of exactly `width` hexadecimal digits.
    fn read_pattern(&mut self, width: u64) -> Option<u64> {
        let mut value: u64 = 0;
        let mut digits: u64 = 0;
        for _ in 0..u64::MAX {
            let Some(digit) = self.hex_digit() else {
                break;
            };
            value = (value << 4) | u64::from(digit);
            digits = digits.saturating_add(1);
            self.advance();
        }
        (digits == width).then_some(value)
    }

    // A number as its place has it.
    fn read_positive(&mut self, place: Place) -> Sum {
        match place {
            Place::Short | Place::Any => self.read_unsigned(place.largest()),
            Place::Raw => self.read_signed(false),
            Place::Record => suiting(self.read_record()),
            Place::Single => suiting(self.read_pattern(8)),
            Place::Double => suiting(self.read_pattern(16)),
        }
    }

    // The same where a minus sign has been read, which only a raw number begins with.
    pub(crate) fn read_negative(&mut self, place: Place) -> Sum {
        if place == Place::Raw {
            return self.read_signed(true);
        }
        Sum::Wrong
    }

    // A number up to the first byte that is none of its digits.
    pub(crate) fn read_sum(&mut self, place: Place) -> Sum {
        if self.is_at(b'-') {
            self.advance();
            return self.read_negative(place);
        }
        self.read_positive(place)
    }

    // The next word of the line as a number. A word counts only where it is whole. The blanks after it are read too,
    // also after a wrong word: no line is answered while its next word is still to come.
    pub fn read_number(&mut self, place: Place) -> Result<u64, Problem> {
        self.next_word()?;
        let sum = self.read_sum(place);
        self.checked()?;
        let whole = self.ends_word();
        self.skip_spaces();
        match sum {
            Sum::Suits(code) if whole => Ok(code),
            _ => Err(Problem::BadNumber),
        }
    }

    // The last word of the line as a number.
    pub fn last_number(&mut self, place: Place) -> Result<u64, Problem> {
        let code = self.read_number(place);
        self.last(code)
    }

    // The last two words of the line as numbers. The second is read after a first that is wrong too.
    pub fn last_numbers(&mut self, first: Place, second: Place) -> Result<(u64, u64), Problem> {
        let one = self.read_number(first);
        let other = self.last_number(second);
        Ok((one?, other?))
    }
}
