// Text in the buffer that a caller lends: bytes as they are or escaped for XML, and numbers below 100,000 in decimal
// digits.
ghost use Rattle.std.specs.Prelude.{◌≡◌, ◌+◌, ◌≤◌, ◌<◌, length};
ghost use Rattle.picture.specs.Text.{escaped_width, escaped_length};

use itoa::Buffer;

// A lent buffer that is written from its front on, and where what is written ends.
#[derive(Drop)]
pub struct Writer<'a> {
    out: &'a mut [u8; 512],
    pub end: usize,
    ghost inside: { end ≤ 512 },
}

impl<'a> Writer<'a> {
    pub fn new(out: &'a mut [u8; 512]) -> Writer<'a>
        ensures { result.end ≡ 0 }
    {
        Writer { out, end: 0 }
    }

    pub fn put(&mut self, text: &[u8])
        requires { self.old.end + length text.now ≤ 512 }
        ensures { self.new.end ≡ self.old.end + length text.now }
    {
        let start = self.end;
        let end = start + text.len();
        let out = &mut *self.out;
        out[start..end].copy_from_slice(text);
        self.end = end;
    }

    pub fn put_byte(&mut self, b: u8)
        requires { self.old.end + 1 ≤ 512 }
        ensures { self.new.end ≡ self.old.end + 1 }
    {
        self.out[self.end] = b;
        self.end += 1;
    }

    pub fn put_number(&mut self, n: usize)
        requires { (self.old.end + 5 ≤ 512) × (n < 100000) }
        ensures { (self.old.end < self.new.end) × (self.new.end ≤ self.old.end + 5) }
    {
        let mut digits = Buffer::new();
        self.put(digits.format(n).as_bytes());
    }

    // A text, and a number after it.
    pub fn put_with(&mut self, text: &[u8], n: usize)
        requires { (self.old.end + length text.now + 5 ≤ 512) × (n < 100000) }
        ensures { (self.old.end < self.new.end) × (self.new.end ≤ self.old.end + length text.now + 5) }
    {
        self.put(text);
        self.put_number(n);
    }

    // A byte of a text, which may not be taken for the XML around it.
    fn put_escaped_byte(&mut self, b: u8)
        requires { self.old.end + escaped_width b ≤ 512 }
        ensures { self.new.end ≡ self.old.end + escaped_width b }
    {
        match b {
            b'&' => self.put(b"&amp;"),
            b'<' => self.put(b"&lt;"),
            b'>' => self.put(b"&gt;"),
            _ => self.put_byte(b),
        }
    }

    pub fn put_escaped(&mut self, text: &[u8])
        requires { self.old.end + escaped_length text.now ≤ 512 }
        ensures { self.new.end ≡ self.old.end + escaped_length text.now }
    {
        for b in text {
            self.put_escaped_byte(*b);
        }
    }
}
