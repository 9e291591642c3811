// Start, accept, nudge and take-back over a table and its log, and what a sitting with a log is. Whoever calls lends
// the table, the log's words and how many nudges stand. What the calls keep throughout a sitting is in
// specs/Sitting.antt. The three stand apart in every call because C lends them apart (bg_log_nudge and its like).
#![tactic(auto)]

ghost use Rattle.std.specs.Prelude.{◌≡◌};
ghost use Rattle.logged.specs.State.{logged_on};
ghost use Rattle.logged.specs.Promises.{start, accept, nudge, take_back, count_after, LogPromise};

use nudge_log::inside::{PLACES, goes_with, index_of, old_of, word};
use table::inside::{suits, wide};
use table::{Density, Refusal, in_order, sized};

// Empties the log where the call was granted.
fn emptied(answer: Result<(), Refusal>, count: &mut usize) -> Result<(), Refusal>
    ensures { (result ≡ answer) × (count.new ≡ count_after answer count.old) }
{
    answer?;
    *count = 0;
    Ok(())
}

// Makes the lent table the straight curve, and empties the log.
pub fn log_start(
    table: &mut [u16],
    log: &mut [u64; PLACES],
    count: &mut usize,
) -> Result<(), Refusal>
    ensures { LogPromise start (logged_on table.old log.old count.old) result
        (logged_on table.new log.new count.new) }
{
    emptied(curve::start(table), count)
}

// Accepts the table, and empties the log.
pub fn log_accept(table: &[u16], log: &mut [u64; PLACES], count: &mut usize) -> Result<(), Refusal>
    ensures { LogPromise accept (logged_on table.now log.old count.old) result
        (logged_on table.now log.new count.new) }
{
    emptied(curve::accept(table), count)
}

// Sets entry i to v, where v fits between the entries beside it, and logs what it was and is. Its tests are made
// one by one, and not by `accept`, since 17 and 3 come between 1 and 2.
pub fn log_nudge(
    table: &mut [u16],
    log: &mut [u64; PLACES],
    count: &mut usize,
    i: usize,
    v: Density,
) -> Result<(), Refusal>
    ensures { LogPromise (nudge i v) (logged_on table.old log.old count.old) result
        (logged_on table.new log.new count.new) }
{
    if !sized(table.len()) {
        return Err(Refusal::TableLength);
    }
    let standing = *count;
    if PLACES < standing {
        return Err(Refusal::BadLog);
    }
    if table.len() <= i {
        return Err(Refusal::IndexBeyond);
    }
    if !in_order(table) {
        return Err(Refusal::NotNondecreasing);
    }
    if !suits(table, i, wide(v.0)) {
        return Err(Refusal::OutsideNeighbours);
    }
    if standing == PLACES {
        return Err(Refusal::LogFull);
    }
    log[standing] = word(i, table[i], v.0);
    *count = standing + 1;
    table[i] = v.0;
    Ok(())
}

// Undoes the last nudge that stands.
pub fn take_back(
    table: &mut [u16],
    log: &mut [u64; PLACES],
    count: &mut usize,
) -> Result<(), Refusal>
    ensures { LogPromise take_back (logged_on table.old log.old count.old) result
        (logged_on table.new log.new count.new) }
{
    curve::accept(table)?;
    let standing = *count;
    if PLACES < standing {
        return Err(Refusal::BadLog);
    }
    if standing == 0 {
        return Err(Refusal::NothingToTakeBack);
    }
    let last = log[standing - 1];
    if !goes_with(table, last) {
        return Err(Refusal::BadLog);
    }
    table[index_of(last)] = old_of(last);
    *count = standing - 1;
    Ok(())
}
