// Four searches side by side. A search has to read one entry before it knows which to read next; with four under way a
// processor does not stand idle meanwhile. No step has a branch, since which way it goes is as good as random, and a
// wrong guess would cost more than the step.
ghost use Rattle.std.specs.Prelude.{◌≡◌, ℕ, ◌+◌, ◌-◌, ◌≤◌, ◌<◌, ltb, length, get_or};
ghost use Rattle.table.specs.Choice.{pick};
ghost use Rattle.table.specs.Fill.{tabulated};
ghost use Rattle.table.specs.Order.{last_entry};
ghost use Rattle.least.specs.Inside.{FirstReaching};

use least::inside::PassedTable;
use table::inside::{entry, wide};

// 1 where x is at least v, else 0. Of a comparison the compiler would make a branch, of a quotient it does not.
fn reaches(x: usize, v: u16) -> usize
    requires { x ≤ 65535 }
    ensures { (x < v → result ≡ 0) × (v ≤ x → result ≡ 1) }
{
    (x + 65536 - wide(v)) / 65536
}

// It and the next ask that the table is short (`few`), not for a PassedTable: neither needs its order.
// A step of one search: `half` entries further where the last of them is below v, else no further.
fn closer(table: &[u16], v: u16, low: usize, half: usize) -> usize
    requires some_left { 0 < half }
    requires within { low + half ≤ length table.now }
    requires few { length table.now ≤ 65536 }
    ensures { result ≡ pick (ltb (get_or table.now (low + half - 1) 0) v) (low + half) low }
{
    let middle = low + half;
    middle - reaches(entry(table, middle - 1), v) * half
}

// A step of the searches for the four values from the i-th on.
fn all_closer(table: &[u16], values: &[u16], i: usize, low: [usize; 4], half: usize) -> [usize; 4]
    requires four_values { i + 4 ≤ length values.now }
    requires four_searches { length low ≡ 4 }
    requires some_left { 0 < half }
    requires few { length table.now ≤ 65536 }
    requires within { ((j : ℕ) → j < 4 → get_or low j 0 + half ≤ length table.now) }
    ensures { result ≡ tabulated (λ j. pick (ltb (get_or table.now (get_or low j 0 + half - 1) 0)
        (get_or values.now (i + j) 0)) (get_or low j 0 + half) (get_or low j 0)) 4 }
{
    let mut further = low;
    for j in 0..4 {
        further[j] = closer(table, values[i + j], low[j], half);
    }
    further
}

// For each of the four values from the i-th on, the index of the first entry that is not below it, if the last entry is
// not; else any index. Each search has `left` entries to go, and a step leaves half of them, rounded down.
pub fn four_reaching(table: PassedTable, values: &[u16], i: usize) -> [usize; 4]
    requires { i + 4 ≤ length values.now }
    ensures { (j : ℕ) → j < 4 → get_or values.now (i + j) 0 ≤ last_entry table.entry.table.now
        → FirstReaching table.entry.table.now (get_or values.now (i + j) 0) (get_or result j 0) }
{
    let mut low = [0; 4];
    let mut left = table.top();
    while left > 0 {
        let further = all_closer(table.table, values, i, low, (left + 1) / 2);
        low = further;
        left = left / 2;
    }
    low
}
