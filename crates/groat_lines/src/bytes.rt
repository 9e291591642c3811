// Bytes, as pairs of hexadecimal digits, or `-` for none.
use crate::first;
use crate::problems::Problem;
use crate::streams::Bench;

// As many bytes as a tag may have that is kept: some more than the longest that is read or written.
pub type Tag = [u8; 131200];

// The byte that holds digit n of a row of bytes, with that digit put in, where there is room for it. The first of a
// byte's two digits is the upper. No ArrayVec: digits past its end are counted too, so that a tag too long is told.
fn keep_digit(bytes: &mut Tag, n: usize, digit: u8) {
    if let Some(byte) = bytes.get_mut(n / 2) {
        *byte = (*byte << 4) | digit;
    }
}

impl Bench {
    // The digits from here on, put into a lent buffer, and how many there were.
    fn read_digits(&mut self, room: &mut Tag) -> usize {
        let mut n: usize = 0;
        for _ in 0..u64::MAX {
            let Some(digit) = self.hex_digit() else {
                break;
            };
            keep_digit(room, n, digit);
            n = n.saturating_add(1);
            self.advance();
        }
        n
    }

    // The next word of the line as bytes, which are put into a lent buffer. A minus sign has no digits after it.
    fn read_bytes<'a>(&mut self, room: &'a mut Tag) -> Result<&'a [u8], Problem> {
        self.next_word()?;
        let mut digits = 0;
        if self.is_at(b'-') {
            self.advance();
        } else {
            digits = self.read_digits(room);
        }
        self.checked()?;
        if digits > 2 * 131200 {
            return Err(Problem::TooManyBytes);
        }
        if !self.ends_word() || digits % 2 == 1 {
            return Err(Problem::BadNumber);
        }
        Ok(first(room, digits / 2))
    }

    // The last word of the line as bytes.
    pub fn last_bytes<'a>(&mut self, room: &'a mut Tag) -> Result<&'a [u8], Problem> {
        let bytes = self.read_bytes(room);
        self.last(bytes)
    }
}
