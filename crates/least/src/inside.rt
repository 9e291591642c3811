// A table that has passed its tests, and the search for a least input in it. Shared with `least_row`; not public, for
// all searches but one have preconditions.
ghost use Rattle.std.specs.Prelude.{◌≡◌, ◌≤◌, ◌+◌, true, length, IfOk};
ghost use Rattle.table.specs.Answers.{number_of_answer};
ghost use Rattle.table.specs.Order.{nondecreasing, last_entry};
ghost use Rattle.table.specs.Refusals.{number_in};
ghost use Rattle.table.specs.Sizes.{sized};
ghost use Rattle.curve.specs.Promises.{sitting_on, accept_verdict};
ghost use Rattle.lookup.specs.Lookup.{looked_up};
ghost use Rattle.least.specs.Inside.{Searchable, FirstReaching, Cell};
ghost use Rattle.least.specs.Least.{least_of};

use curve::accept;
use table::Refusal;
use table::inside::{div_ceil, entry, wide};

// A table of 1 to 65,536 entries, none below the one before it. So it has a last entry, and may be searched by halves.
#[derive(Clone, Copy)]
pub struct PassedTable<'a> {
    pub table: &'a [u16],
    pub ghost size: { sized (length table.now) ≡ true },
    pub ghost order: { nondecreasing table.now ≡ true },
}

impl<'a> PassedTable<'a> {
    // The table, if it passes.
    pub fn of(table: &'a [u16]) -> Result<PassedTable<'a>, Refusal>
        ensures number { number_of_answer result ≡ number_in (accept_verdict (sitting_on table.now)) }
        ensures same { IfOk result (λ p. p.table.now ≡ table.now) }
    {
        accept(table)?;
        Ok(PassedTable { table })
    }

    // The index of the last entry.
    pub fn top(self) -> usize
        ensures { length self.entry.table.now ≡ result + 1 }
    {
        self.table.len() - 1
    }

    pub fn last(self) -> u16
        ensures { result ≡ last_entry self.entry.table.now }
    {
        self.table[self.top()]
    }

    // The index of the first entry that is not below v, if the last entry is not; else nothing is said of it.
    pub fn first_reaching(self, v: u16) -> usize
        ensures { v ≤ last_entry self.entry.table.now → FirstReaching self.entry.table.now v result }
    {
        self.table.partition_point(|&x| x < v)
    }

    // The least input of v, where entry c is below v and the next is not: how many of the 65535 steps from the one to
    // the other it takes, and how many positions make that many steps.
    fn in_cell(self, v: u16, c: usize) -> usize
        requires { Cell self.table.now v c }
        ensures { (result ≡ least_of (looked_up self.entry.table.now) v) × (result ≤ 65535) }
    {
        let top = self.top();
        let before = entry(self.table, c);
        let steps = div_ceil(
            (wide(v) - before) * 65535,
            entry(self.table, c + 1) - before,
        );
        div_ceil(c * 65535 + steps, top)
    }

    // The least position at which the lookup is at least v, where entry `next` is the first that is not below v.
    pub fn least_at(self, v: u16, next: usize) -> usize
        requires { FirstReaching self.table.now v next }
        ensures { (result ≡ least_of (looked_up self.entry.table.now) v) × (result ≤ 65535) }
    {
        if next == 0 {
            return 0;
        }
        self.in_cell(v, next - 1)
    }

    // The least position at which the lookup is at least v, in a table that comes to v.
    pub fn least(self, v: u16) -> usize
        requires { v ≤ last_entry self.table.now }
        ensures { (result ≡ least_of (looked_up self.entry.table.now) v) × (result ≤ 65535) }
    {
        self.least_at(v, self.first_reaching(v))
    }
}

// The three searches for a caller that has tested the table by itself, and knows its last index. Each answers as the
// method of its name does.
pub fn first_reaching(table: &[u16], top: usize, v: u16) -> usize
    requires { Searchable table.now top }
    ensures { v ≤ last_entry table.now → FirstReaching table.now v result }
{
    PassedTable { table }.first_reaching(v)
}

pub fn least_at(table: &[u16], top: usize, v: u16, next: usize) -> usize
    requires searchable { Searchable table.now top }
    requires first_reaching { FirstReaching table.now v next }
    ensures { (result ≡ least_of (looked_up table.now) v) × (result ≤ 65535) }
{
    PassedTable { table }.least_at(v, next)
}

pub fn least(table: &[u16], top: usize, v: u16) -> usize
    requires searchable { Searchable table.now top }
    requires reached { v ≤ last_entry table.now }
    ensures { (result ≡ least_of (looked_up table.now) v) × (result ≤ 65535) }
{
    PassedTable { table }.least(v)
}
