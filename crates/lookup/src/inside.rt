// The steps of both lookups. Shared helpers with preconditions; not public.
ghost use Rattle.std.specs.Prelude.{◌≡◌, true, ◌+◌, ◌*◌, ◌≤◌, ◌<◌, ◌^◌, ltb, length};
ghost use Rattle.table.specs.Choice.{pick};
ghost use Rattle.table.specs.Sizes.{sized};
ghost use Rattle.lookup.specs.Inside.{StepsFit};
ghost use Rattle.lookup.specs.Lookup.{weighted, entries_of, looked_up};

use table::inside::{entry, wide};

// The index after i where `more` is above 0, else i.
fn next_if(i: usize, more: usize) -> usize
    requires { i + more < 2 ^ 64 }
    ensures { result ≡ pick (ltb 0 more) (i + 1) i }
{
    if 0 < more {
        return i + 1;
    }
    i
}

// Two entries weighed by how near each is, `past` steps after the lower one and with `left` steps to the upper one.
fn mix(hi: usize, lo: usize, past: usize, left: usize) -> usize
    requires { (hi ≤ 65535) × (lo ≤ 65535) × (past + left < 2 ^ 32) }
    ensures { (result ≡ hi * past + lo * left) × (result ≤ 65535 * (past + left)) }
{
    hi * past + lo * left
}

// The gamma lookup's sum of the two weighted entries, `value` steps into the table, with cap steps from each entry to
// the next. One division of the machine gives both quotient and rest.
pub fn weighted(table: &[u16], value: usize, cap: usize) -> usize
    requires { StepsFit cap (length table.now) value }
    ensures { (result ≡ weighted cap (entries_of table.now) value) × (result ≤ 65535 * cap) }
{
    let lower = value / cap;
    let interp = value % cap;
    let upper = next_if(lower, interp);
    mix(
        entry(table, upper),
        entry(table, lower),
        interp,
        cap - interp,
    )
}

// The 16-bit lookup in a table whose last index is `top`, for whoever has worked that out. It makes 65535 · 65537 steps
// from each entry to the next, and that is 2^32 - 1: so of a 64-bit number of steps the upper half is the cell, the
// index of an entry that they pass, and both halves added are the steps past it. Steps that end on an entry other than
// the first are counted from the one before it. So the upper entry is always the next, but in a table of one entry. The
// sum is 65537 times document 01's, and with 65537 more its upper half is the answer. The weights are worked out in 32
// bits, and before the entries are read: that takes the fewest instructions.
pub fn lookup_to(table: &[u16], top: usize, p: u16) -> u16
    requires { (length table.now ≡ top + 1) × (top ≤ 65535) }
    ensures { result ≡ looked_up table.now p }
{
    let steps = wide(p) * top * 65537;
    let cell = steps >> 32;
    let halves = (steps % 4294967296) as u32 + cell as u32;
    let past = halves as usize;
    let left = (4294967295 - halves) as usize;
    let upper = next_if(cell, top);
    let sum = mix(entry(table, upper), entry(table, cell), past, left);
    ((sum + 65537) >> 32) as u16
}

// The 16-bit lookup, for whoever has tested the table's length.
pub fn lookup(table: &[u16], p: u16) -> u16
    requires { sized (length table.now) ≡ true }
    ensures { result ≡ looked_up table.now p }
{
    lookup_to(table, table.len() - 1, p)
}
