// Words and where they end, the end of a line, names and paths.
ghost use Rattle.std.specs.Prelude.{◌≤◌, IfSome};

use crate::first;
use crate::problems::Problem;
use crate::streams::{Bench, Now};

// A path or a title that is being read. One that fills its buffer may go on: no file is opened under it (groat_tags).
pub type Path = [u8; 4096];

// 37^11: a name of this size or above has twelve letters or more.
const TWELVE_LETTERS: u64 = 177917621779460413;

// A letter's number among those of names, from 1 up.
fn letter(byte: u8) -> Option<u64>
    ensures { IfSome result (λ l. l ≤ 36) }
{
    match byte {
        b'a'..=b'z' => Some(u64::from(byte - b'a') + 1),
        b'0'..=b'9' => Some(u64::from(byte - b'0') + 27),
        _ => None,
    }
}

// The name that a text begins with, up to its end or to a byte that no name has, and how many letters it has. A name
// is a number, since nothing may be held as text of any length: its letters are digits to the base 37, so that no two
// names have one number. It has at most twelve letters, small ones and digits. What is no name has no number.
#[derive(Clone, Copy)]
pub struct Name {
    pub code: Option<u64>,
    pub letters: usize,
}

// A name with a letter more.
fn longer(name: Option<u64>, byte: u8) -> Option<u64> {
    let code = name?;
    let l = letter(byte)?;
    if code >= TWELVE_LETTERS {
        return None;
    }
    Some(code * 37 + l)
}

pub fn name_of(text: &[u8]) -> Name {
    let mut name = Name {
        code: Some(0),
        letters: 0,
    };
    for (place, &byte) in text.iter().enumerate() {
        if letter(byte).is_none() {
            break;
        }
        name = Name {
            code: longer(name.code, byte),
            letters: place + 1,
        };
    }
    name
}

// Puts a byte into a lent buffer after n others, where there is room for it, and gives how many there are.
fn keep_byte(text: &mut Path, n: usize, byte: u8) -> usize {
    if n < 4096 {
        text[n] = byte;
        return n + 1;
    }
    n
}

impl Bench {
    pub fn is_at(&self, byte: u8) -> bool {
        self.now == Now::Byte(byte)
    }

    pub fn ends_line(&self) -> bool {
        match self.now {
            Now::Byte(_) => false,
            Now::LineEnd | Now::InputEnd => true,
        }
    }

    pub fn ends_word(&self) -> bool {
        self.is_at(b' ') || self.ends_line()
    }

    // The byte that is looked at, where it is one of a word.
    fn in_word(&self) -> Option<u8> {
        match self.now {
            Now::Byte(b' ') | Now::LineEnd | Now::InputEnd => None,
            Now::Byte(byte) => Some(byte),
        }
    }

    pub fn skip_spaces(&mut self) {
        for _ in 0..u64::MAX {
            if !self.is_at(b' ') {
                break;
            }
            self.advance();
        }
    }

    // At the next word of the line, which must have one.
    pub(crate) fn next_word(&mut self) -> Result<(), Problem> {
        self.skip_spaces();
        self.checked()?;
        if self.ends_line() {
            return Err(Problem::TooFewWords);
        }
        Ok(())
    }

    // At the end of the line, which must have no more words.
    pub fn no_more_words(&mut self) -> Result<(), Problem> {
        self.skip_spaces();
        self.checked()?;
        if self.ends_line() {
            return Ok(());
        }
        Err(Problem::TooManyWords)
    }

    // A word that was read, where it is the last of the line. After a wrong word too the blanks are read up to the next
    // byte, before the line is answered; what is wrong with the word comes first.
    pub(crate) fn last<T: Copy>(&mut self, word: Result<T, Problem>) -> Result<T, Problem> {
        let end = self.no_more_words();
        let read = word?;
        end?;
        Ok(read)
    }

    // At the end of the line, the rest of which is passed over.
    pub fn pass_line(&mut self) {
        for _ in 0..u64::MAX {
            if self.ends_line() {
                break;
            }
            self.advance();
        }
    }

    // At the first byte of the next line, or at the end of the input. What was wrong with the line is done with.
    pub fn next_line(&mut self) {
        if self.now == Now::LineEnd {
            self.problem = None;
            self.advance();
        }
    }

    // The next word of the line as a name, if it is one.
    pub fn read_name(&mut self) -> Result<Option<u64>, Problem> {
        self.next_word()?;
        let mut name = Some(0);
        for _ in 0..u64::MAX {
            let Some(byte) = self.in_word() else {
                break;
            };
            name = longer(name, byte);
            self.advance();
        }
        self.checked()?;
        Ok(name)
    }

    // The last word of the line as a name.
    pub fn last_name(&mut self) -> Result<Option<u64>, Problem> {
        let name = self.read_name();
        self.last(name)
    }

    // Puts the word that begins here into a lent buffer after `before` bytes, and gives how many bytes there are.
    fn copy_word(&mut self, text: &mut Path, before: usize) -> usize {
        let mut n = before;
        for _ in 0..u64::MAX {
            let Some(byte) = self.in_word() else {
                break;
            };
            n = keep_byte(text, n, byte);
            self.advance();
        }
        n
    }

    // The next word of the line as a path, which is put into a lent buffer.
    pub fn read_path<'a>(&mut self, room: &'a mut Path) -> Result<&'a [u8], Problem> {
        self.next_word()?;
        let n = self.copy_word(room, 0);
        self.checked()?;
        Ok(first(room, n))
    }

    // The last word of the line as a path.
    pub fn last_path<'a>(&mut self, room: &'a mut Path) -> Result<&'a [u8], Problem> {
        let path = self.read_path(room);
        self.last(path)
    }

    // All further words of the line, with a blank between each two, put into a lent buffer. There may be none.
    pub fn last_words<'a>(&mut self, room: &'a mut Path) -> Result<&'a [u8], Problem> {
        self.skip_spaces();
        let mut n = self.copy_word(room, 0);
        self.skip_spaces();
        for _ in 0..u64::MAX {
            if self.ends_line() {
                break;
            }
            let spaced = keep_byte(room, n, b' ');
            n = self.copy_word(room, spaced);
            self.skip_spaces();
        }
        self.checked()?;
        Ok(first(room, n))
    }
}
