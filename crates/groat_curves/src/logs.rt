// The requests on the table and the log of its nudges. Both are lent to each call as they are kept: a refused call
// leaves them as they were.
use groat_answers::inside::hold;
use groat_answers::{Kept, Log, put_comma, put_done, put_none};
use groat_lines::{Bench, Place, Problem, first, short};
use logged::{log_accept, log_nudge, log_start, take_back};
use nudge_log::inside::{PLACES, index_of, new_of, old_of};
use table::{Density, Refusal};

pub fn answer(bench: &mut Bench, kept: &mut Kept) -> Result<(), Problem> {
    if bench.at_row(
        b"logstart: the straight curve is the table, with an empty log",
        b"answer: ok\nrefused: 1",
    )? {
        put_logged(bench, kept, log_start);
        return Ok(());
    }
    if bench.at_row(
        b"logaccept: accept the table, with an empty log",
        b"answer: ok\nrefused: 1, 2",
    )? {
        put_logged(bench, kept, |table, words, standing| {
            log_accept(table, words, standing)
        });
        return Ok(());
    }
    if bench.at_row(
        b"lognudge I V: set entry I of the table to V, and log it",
        b"words: I below 2^64, counted from 0; V 0 to 65535\nanswer: ok\nrefused: 1, 17, 3, 2, 4, 15",
    )? {
        return nudge(bench, kept);
    }
    if bench.at_row(
        b"takeback: undo the last logged nudge that stands",
        b"answer: ok\nrefused: 1, 2, 17, 16",
    )? {
        put_logged(bench, kept, take_back);
        return Ok(());
    }
    if bench.at_row(
        b"log: the logged nudges that stand, each as I:OLD:NEW",
        b"answer: the records as a list",
    )? {
        put_records(bench, &kept.log);
        return Ok(());
    }
    if bench.at_row(
        b"setlog COUNT RECORDS: keep the count and the records as the log",
        b"words: COUNT below 2^64; RECORDS with commas, each I:OLD:NEW of 0 to 65535, or - for none\nanswer: ok",
    )? {
        return hold_log(bench, kept);
    }
    Ok(())
}

// What a call answers that is lent the table and the log.
fn put_logged<F: FnOnce(&mut [u16], &mut [u64; PLACES], &mut usize) -> Result<(), Refusal>>(
    bench: &mut Bench,
    kept: &mut Kept,
    call: F,
)
    requires { F.IsAlwaysCallable call }
{
    let log = &mut kept.log;
    let done = call(kept.table.items_mut(), &mut log.words, &mut log.standing);
    put_done(bench, done);
}

fn nudge(bench: &mut Bench, kept: &mut Kept) -> Result<(), Problem> {
    let (i, v) = bench.last_numbers(Place::Any, Place::Short)?;
    let (i, v) = (i as usize, Density(short(v)));
    put_logged(bench, kept, |table, words, standing| {
        log_nudge(table, words, standing, i, v)
    });
    Ok(())
}

// `I:OLD:NEW`, as the word says, whatever it is.
fn put_record(bench: &mut Bench, word: u64) {
    bench.put_decimal(index_of(word) as u64);
    bench.put_byte(b':');
    bench.put_decimal(u64::from(old_of(word)));
    bench.put_byte(b':');
    bench.put_decimal(u64::from(new_of(word)));
}

// The nudges that stand. Where a damaged log's count is above the places, they are all there is to show.
fn put_records(bench: &mut Bench, log: &Log) {
    let standing = first(&log.words, log.standing);
    put_none(bench, standing.len());
    for (place, &word) in standing.iter().enumerate() {
        put_comma(bench, place);
        put_record(bench, word);
    }
}

// Any log at all is taken, so that a damaged one can be tried. It is changed only where the whole line is fine. The
// places past the records are 0, and a record's code is its word.
fn hold_log(bench: &mut Bench, kept: &mut Kept) -> Result<(), Problem> {
    let standing = bench.read_number(Place::Any)? as usize;
    let records = bench.last_records(&mut kept.codes, PLACES)?;
    kept.log = Log {
        words: [0; PLACES],
        standing,
    };
    hold(records, &mut kept.log.words, |code| code);
    bench.put(b"ok");
    Ok(())
}
