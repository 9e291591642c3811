// The bench: where it stands in its standard input, what it has still to write to its standard output, and what it
// knows of the line that it reads. Input comes in byte by byte out of a buffer, which is filled again whenever it is
// used up. Output is gathered in another, and written out when that is full and wherever `settle` is called: before
// the program may have to wait for input, so that nobody waits for an answer.
ghost use Rattle.std.specs.Prelude.{◌≡◌, ◌+◌, ◌*◌, ◌%◌, ◌^◌, ◌<◌, ◌≤◌};
ghost use Rattle.arrayvec.specs.ArrayVec.{array_vec_len};

use crate::problems::Problem;
use crate::rows::Asked;
use arrayvec::ArrayVec;
use itoa::Buffer;
use std::fmt::InlineText;
use std::io::{Error, Read};

// A terminal passes a line on when its end is typed, and drops what it has no room for: so many bytes of a line come
// through and no more, so one that has as many may have been cut.
const TERMINAL_ROOM: usize = 4095;

// What is looked at: a byte of the line, or one of the two ends.
#[derive(Clone, Copy, PartialEq, Eq)]
pub enum Now {
    Byte(u8),
    LineEnd,
    InputEnd,
}

#[derive(Drop)]
pub struct Bench {
    host: HostRuntime,
    // No heap: a BufReader would allocate. 65,535 places are read into, so that each 16-bit number is a place.
    input: [u8; 65536],
    // the next byte of the input, and how many there are
    at: u16,
    held: u16,
    // what waits to be written
    output: ArrayVec<u8, 65535>,
    // whether a write to standard output has failed: nothing more is written then
    broken: bool,
    // whether lines come from a terminal, which cuts a long one
    typed: bool,
    // whether a person reads the answers at a terminal, and is to be prompted
    prompts: bool,
    // whether the person has asked to end
    over: bool,
    pub(crate) now: Now,
    // what is wrong with the input, of this line or at the first byte of the next
    pub(crate) problem: Option<Problem>,
    // what the line asks of the rows of all requests
    pub(crate) asked: Asked,
    // whether this line has been refused in any part or could not be read, and of how many lines before it that holds
    pub(crate) faulty: bool,
    pub(crate) faults: u64,
}

// The system's reason, without the number that std puts after it.
fn reason(told: &str) -> &str {
    match told.rsplit_once(" (os error ") {
        Some((before, _)) => before,
        None => told,
    }
}

// Says on standard error what failed and why.
fn fail(host: HostRuntime, what: &str, why: Error) {
    let told = InlineText::<256>::of(why);
    let because = reason(told.as_str());
    let _ = eprintln!(host; "groat: {what}: {because}");
}

// How many hexadecimal digits a number is written with: as many as `width` says, or as it has where they are more.
fn hex_width(n: u64, width: usize) -> usize
    ensures most { result ≤ 16 }
    ensures whole { n < 2 ^ (4 * result) }
{
    let needed = (67 - n.leading_zeros() as usize) / 4;
    width.max(needed).clamp(1, 16)
}

// The last hexadecimal digit of a number.
pub fn hex_digit(n: u64) -> u8
    ensures decimal { n % 16 < 10 → result ≡ 48 + n % 16 }
    ensures letter { 10 ≤ n % 16 → result ≡ 87 + n % 16 }
{
    let digit = (n % 16) as u8;
    if digit < 10 {
        return b'0' + digit;
    }
    b'a' - 10 + digit
}

impl Bench {
    // Before the first byte.
    pub fn new(host: HostRuntime, typed: bool, prompts: bool) -> Bench {
        Bench {
            host,
            input: [0; 65536],
            at: 0,
            held: 0,
            output: ArrayVec::new(),
            broken: false,
            typed,
            prompts,
            over: false,
            now: Now::LineEnd,
            problem: None,
            asked: Asked::Answered,
            faulty: false,
            faults: 0,
        }
    }

    // The system itself, for what is no stream.
    pub fn host(&self) -> HostRuntime {
        self.host
    }

    pub fn now(&self) -> Now {
        self.now
    }

    pub fn prompts(&self) -> bool {
        self.prompts
    }

    // The person asks to end.
    pub fn end(&mut self) {
        self.over = true;
    }

    pub fn is_over(&self) -> bool {
        self.over
    }

    pub fn is_broken(&self) -> bool {
        self.broken
    }

    // Reads into the input's places. Where that fails, standard error says why.
    fn read_input(&mut self) -> Option<u16> {
        let mut stdin = self.host.stdin();
        match stdin.read(&mut self.input[0..65535]) {
            Ok(n) => Some(n as u16),
            Err(why) => {
                fail(self.host, "standard input", why);
                None
            }
        }
    }

    // Whether a line that a terminal brought may have been cut. It comes by one read, with its line end after it,
    // unless a person passes its beginning on with Ctrl-D.
    fn is_cut(&self) -> bool {
        let held = usize::from(self.held);
        if held == TERMINAL_ROOM {
            return self.input[TERMINAL_ROOM - 1] != b'\n';
        }
        held > TERMINAL_ROOM
    }

    // With so many bytes of input.
    fn hold(&mut self, n: u16) {
        self.at = 0;
        self.held = n;
        if self.typed && self.is_cut() {
            self.found(Problem::LineTooLong);
        }
    }

    // With a byte at hand, unless the input has ended. Input that cannot be read counts as ended, and the line that it
    // ends is wrong.
    fn make_ready(&mut self) {
        if self.is_at_hand() {
            return;
        }
        match self.read_input() {
            Some(n) => self.hold(n),
            None => {
                self.hold(0);
                self.found(Problem::CannotRead);
            }
        }
    }

    // Whether the next byte can be looked at without waiting for input.
    pub(crate) fn is_at_hand(&self) -> bool {
        self.at < self.held
    }

    // After a carriage return, which is dropped where the line or the input ends with it.
    fn after_return(&mut self) -> Now {
        self.make_ready();
        if self.at >= self.held {
            return Now::InputEnd;
        }
        if self.input[usize::from(self.at)] == b'\n' {
            self.at += 1;
            return Now::LineEnd;
        }
        Now::Byte(b'\r')
    }

    fn next(&mut self) -> Now {
        self.make_ready();
        if self.at >= self.held {
            return Now::InputEnd;
        }
        let byte = self.input[usize::from(self.at)];
        self.at += 1;
        match byte {
            b'\n' => Now::LineEnd,
            b'\r' => self.after_return(),
            _ => Now::Byte(byte),
        }
    }

    // Looks at the next byte.
    pub fn advance(&mut self) {
        self.now = self.next();
    }

    // Whether what waits could be written. Where it could not, standard error says why.
    fn is_sent(&self) -> bool {
        match self.host.write_all(self.output.as_slice()) {
            Ok(()) => true,
            Err(why) => {
                fail(self.host, "standard output", why);
                false
            }
        }
    }

    // Writes out what waits.
    pub fn flush(&mut self)
        ensures { array_vec_len self.new.output ≡ 0 }
    {
        if !self.broken && !self.is_sent() {
            self.broken = true;
        }
        self.output.clear();
    }

    // Whether a line, from here on, can be read to its end without waiting for input.
    fn holds_line(&self) -> bool {
        if self.at >= self.held {
            return false;
        }
        self.input[usize::from(self.at)..usize::from(self.held)].contains(&b'\n')
    }

    // With nothing waiting to be written, unless a whole line is at hand: many short lines are answered by few writes,
    // and none waits for input.
    pub fn settle(&mut self) {
        if !self.holds_line() {
            self.flush();
        }
    }

    pub fn put_byte(&mut self, byte: u8) {
        if self.output.is_full() {
            self.flush();
        }
        self.output.push(byte);
    }

    pub fn put(&mut self, text: &[u8]) {
        for &byte in text {
            self.put_byte(byte);
        }
    }

    pub fn put_decimal(&mut self, n: u64) {
        let mut digits = Buffer::new();
        self.put(digits.format(n).as_bytes());
    }

    // As many hexadecimal digits as `width` says.
    pub fn put_hex(&mut self, n: u64, width: usize) {
        for place in (0..hex_width(n, width)).rev() {
            self.put_byte(hex_digit(n >> (4 * place)));
        }
    }
}
