// Exports that work on a curve's table with a log beside it.
ghost use Rattle.table.specs.Answers.{number_of_answer};
ghost use Rattle.logged.specs.State.{logged_on};
ghost use Rattle.logged.specs.Promises.{start, accept, nudge, take_back, LogPromise};
ghost use Rattle.brassgroat.specs.Carried.{Carried};

use logged::{log_accept, log_nudge, log_start, take_back};
use nudge_log::inside::PLACES;
use plain_answers::inside::number_of_answer;
use table::Density;

#[unsafe(no_mangle)]
pub extern "C" fn bg_log_start(table: &mut [u16], log: &mut [u64; PLACES], count: &mut usize) -> u32
    ensures { Carried number_of_answer (λ d.
        LogPromise start (logged_on table.old log.old count.old) d
        (logged_on table.new log.new count.new)) result }
{
    number_of_answer(log_start(table, log, count))
}

#[unsafe(no_mangle)]
pub extern "C" fn bg_log_accept(table: &[u16], log: &mut [u64; PLACES], count: &mut usize) -> u32
    ensures { Carried number_of_answer (λ d.
        LogPromise accept (logged_on table.now log.old count.old) d
        (logged_on table.now log.new count.new)) result }
{
    number_of_answer(log_accept(table, log, count))
}

#[unsafe(no_mangle)]
pub extern "C" fn bg_log_nudge(
    table: &mut [u16],
    log: &mut [u64; PLACES],
    count: &mut usize,
    index: usize,
    density: Density,
) -> u32
    ensures { Carried number_of_answer (λ d.
        LogPromise (nudge index density) (logged_on table.old log.old count.old) d
        (logged_on table.new log.new count.new)) result }
{
    number_of_answer(log_nudge(table, log, count, index, density))
}

#[unsafe(no_mangle)]
pub extern "C" fn bg_take_back(table: &mut [u16], log: &mut [u64; PLACES], count: &mut usize) -> u32
    ensures { Carried number_of_answer (λ d.
        LogPromise take_back (logged_on table.old log.old count.old) d
        (logged_on table.new log.new count.new)) result }
{
    number_of_answer(take_back(table, log, count))
}
