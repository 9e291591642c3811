// A table whose length is tested once, for whatever is then asked of it; and shared helpers, some with preconditions.
// Not public.
ghost use Rattle.std.specs.Prelude.{◌≡◌, ℕ, ◌+◌, ◌-◌, ◌≤◌, ◌<◌, true, false, length, get_or, MatchResult};
ghost use Rattle.table.specs.Fill.{tabulated};
ghost use Rattle.table.specs.Order.{not_below_left, not_above_right, suits};
ghost use Rattle.table.specs.Quotient.{div_ceil};
ghost use Rattle.table.specs.Sizes.{sized};

use crate::{Refusal, sized};

// A table of 1 to 65,536 entries.
#[derive(Clone, Copy)]
pub struct SizedTable<'a> {
    pub entries: &'a [u16],
    pub ghost tested: { sized (length entries.now) ≡ true },
}

impl<'a> SizedTable<'a> {
    // These entries, where a table may have so many.
    pub fn of(entries: &'a [u16]) -> Result<Self, Refusal>
        ensures { MatchResult
            result
            (λ t. t.entries.now ≡ entries.now)
            (λ why. (why ≡ Refusal.TableLength) × (sized (length entries.now) ≡ false)) }
    {
        if !sized(entries.len()) {
            return Err(Refusal::TableLength);
        }
        Ok(SizedTable { entries })
    }

    // The last index.
    pub fn last(self) -> usize
        ensures { (length self.entry.entries.now ≡ result + 1)
            × (result ≤ 65535)
            × (result ≡ length self.entry.entries.now - 1) }
    {
        self.entries.len() - 1
    }
}

// A 16-bit number at the width of an index, so that sums and products of it do not wrap: its bound is what proofs cite.
pub fn wide(x: u16) -> usize
    ensures { (result ≡ x) × (result ≤ 65535) }
{
    usize::from(x)
}

// Entry i, read wide. `i < length` stays a precondition, here and below: a type for an index would hold its table too.
pub fn entry(table: &[u16], i: usize) -> usize
    requires { i < length table.now }
    ensures { (result ≡ get_or table.now i 0) × (result ≤ 65535) }
{
    wide(table[i])
}

// The quotient rounded up. A function of our own, for the edits quotient_rounded_down and quotient_always_one_more.
pub fn div_ceil(value: usize, cap: usize) -> usize
    requires { 0 < cap }
    ensures { result ≡ div_ceil value cap }
{
    value.div_ceil(cap)
}

// Whether x in place of entry i is not below the entry to its left, where there is one.
fn not_below_left(table: &[u16], i: usize, x: usize) -> bool
    requires { i < length table.now }
    ensures { result ≡ not_below_left table.now i x }
{
    if i == 0 {
        return true;
    }
    entry(table, i - 1) <= x
}

// Whether x in place of entry i is not above the entry to its right, where there is one.
fn not_above_right(table: &[u16], i: usize, x: usize) -> bool
    requires { i < length table.now }
    ensures { result ≡ not_above_right table.now i x }
{
    if i + 1 == table.len() {
        return true;
    }
    x <= entry(table, i + 1)
}

// Whether x in place of entry i fits between its neighbours.
pub fn suits(table: &[u16], i: usize, x: usize) -> bool
    requires { i < length table.now }
    ensures { result ≡ suits table.now i x }
{
    if !not_below_left(table, i, x) {
        return false;
    }
    not_above_right(table, i, x)
}

// Fills a lent buffer: entry i with what the rule gives at i.
pub fn fill<T: Copy, F: Fn(usize) -> T>(out: &mut [T], rule: F)
    requires { (i : ℕ) → i < length out.old → F.pre rule i }
    ensures { (f : ℕ → T) → ((i : ℕ) (x : T) → i < length out.old → F.post rule i x → x ≡ f i)
        → out.new ≡ tabulated f (length out.old) }
{
    for (i, x) in out.iter_mut().enumerate() {
        *x = rule(i);
    }
}
