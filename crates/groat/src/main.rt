// The bench program: the whole library, asked one request a line and answering each with a line. It reads standard
// input to its end. docs/GROAT.md is its language, and the script ./groat starts it.
#![tactic(auto)]

mod refusals;
mod starting;
mod terminal;

use groat_answers::Kept;
use groat_lines::{Bench, Now, Problem};
use starting::{report, started};
use terminal::{close, put_hint, put_opening, put_prompt};

// Whether a line that begins here gets no answer: it is empty, or a comment.
fn is_silent(bench: &Bench) -> bool {
    bench.is_at(b'#') || bench.ends_line()
}

// Answers the request that the line names, past the rows of all that there are.
fn answer(bench: &mut Bench, kept: &mut Kept) -> Result<(), Problem> {
    bench.before_rows()?;
    groat_curves::answer(bench, kept)?;
    groat_tags::answer(bench, kept)?;
    terminal::answer(bench)?;
    bench.after_rows()
}

// Ends an answer. Nothing stands on the line of a request that ends the program.
fn put_end(bench: &mut Bench, answered: Result<(), Problem>) {
    if bench.is_over() {
        return;
    }
    if let Err(problem) = answered {
        bench.put_problem(problem);
    }
    bench.count_fault();
    bench.put_byte(b'\n');
    if answered.is_err() {
        put_hint(bench);
    }
}

// At the next line. What was answered is written out before the rest of this line or the next one is waited for.
fn turn(bench: &mut Bench) {
    if bench.is_over() {
        return;
    }
    bench.settle();
    bench.pass_line();
    put_prompt(bench);
    bench.settle();
    bench.next_line();
}

// One line, up to the first byte of the next. A line that a terminal has cut is wrong from its first byte on.
fn line(bench: &mut Bench, kept: &mut Kept) {
    bench.skip_spaces();
    if !is_silent(bench) || !bench.is_fine() {
        let answered = answer(bench, kept);
        put_end(bench, answered);
    }
    turn(bench);
}

// Whether no further line is to be answered.
fn is_done(bench: &Bench) -> bool {
    bench.now() == Now::InputEnd || bench.is_broken() || bench.is_over()
}

// A proved loop has to end, and nothing says that the input does: no run uses up as many lines as are counted here.
fn main(rt: HostRuntime) {
    let mut kept = Kept::new();
    let mut bench = started(rt);
    put_opening(&mut bench);
    bench.settle();
    bench.advance();
    for _ in 0..u64::MAX {
        if is_done(&bench) {
            break;
        }
        line(&mut bench, &mut kept);
    }
    close(&mut bench);
    report(&bench, &rt);
}
