// The inverse's search, and all its steps in the Rust's order. Not public: `inverse` has preconditions, that the
// table's length is tested and that `ends` are the table's.
ghost use Rattle.std.specs.Prelude.{◌≡◌, true, length};
ghost use Rattle.table.specs.Sizes.{sized};
ghost use Rattle.inverse_start.specs.Start.{leading_zeros, trailing_tops};
ghost use Rattle.inverse.specs.Inverse.{searched, inverted};
ghost use Rattle.inverse.specs.Inside.{EndsOf, Ready};

use inverse_start::inside::{first_left, first_right, leading_zeros, trailing_tops, zero_at_once};
use inverse_tail::inside::tail;
use lookup::inside::lookup;
use table::inside::SizedTable;

// The runs at a table's ends: document 01's z, the leading 0 entries, and w, the trailing 65535 entries.
#[derive(Clone, Copy)]
pub struct Ends {
    pub z: usize,
    pub w: usize,
}

// Those of a table of any length, counted once however many values are asked of it. The Rust counts them for each.
pub fn ends_of(table: &[u16]) -> Ends
    ensures { EndsOf table.now result }
{
    Ends {
        z: leading_zeros(table),
        w: trailing_tops(table),
    }
}

// A table with its ends counted.
#[derive(Clone, Copy)]
pub struct Counted<'a> {
    pub table: SizedTable<'a>,
    pub z: usize,
    pub w: usize,
    pub ghost zeros: { z ≡ leading_zeros table.entries.now },
    pub ghost tops: { w ≡ trailing_tops table.entries.now },
}

// The bisection, left by `break` at the first exact hit, the form that document 01 names. As std's `binary_search` it
// answers Ok with the position of that hit or, with none, Err with the x that it probed last. The last candidate,
// r = l, is not probed: the answers would leave the Rust's.
fn search(table: SizedTable, v: u16, left: usize, right: usize) -> Result<u16, u16>
    requires { Ready table.entries.now v left right }
    ensures { result ≡ searched table.entry.entries.now v left right }
{
    let mut l = left;
    let mut r = right;
    let mut x: usize = 0;
    let found = loop {
        if r <= l {
            break Err(x as u16);
        }
        x = (l + r) / 2;
        let p = (x - 1) as u16;
        let y = lookup(table.entries, p);
        if y == v {
            break Ok(p);
        }
        if v < y {
            r = x - 1;
        } else {
            l = x + 1;
        }
    };
    found
}

impl<'a> Counted<'a> {
    // Counted once for a table, however many values are asked of it. The Rust counts them for each.
    pub fn of(table: SizedTable<'a>) -> Self
        ensures { result.table.entries.now ≡ table.entry.entries.now }
    {
        let ends = ends_of(table.entries);
        Counted {
            table,
            z: ends.z,
            w: ends.w,
        }
    }

    // The position for a value.
    pub fn inverse(&self, v: u16) -> u16
        ensures { result ≡ inverted self.now.table.entries.now v }
    {
        if zero_at_once(v, self.z, self.w) {
            return 0;
        }
        let n = self.table.entries.len();
        let l = first_left(n, self.z);
        let r = first_right(n, self.w);
        if l >= r {
            return 0;
        }
        match search(self.table, v, l, r) {
            Ok(p) => p,
            Err(x) => tail(self.table.entries, x, v),
        }
    }
}

// The same, for whoever has tested the table's length and counted its ends.
pub fn inverse(table: &[u16], ends: Ends, v: u16) -> u16
    requires table_sized { sized (length table.now) ≡ true }
    requires ends_found { EndsOf table.now ends }
    ensures { result ≡ inverted table.now v }
{
    let counted = Counted {
        table: SizedTable { entries: table },
        z: ends.z,
        w: ends.w,
    };
    counted.inverse(v)
}
