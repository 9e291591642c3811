// The bench program's requests on curves, their logs and floats. Each has a row: the line that `help` shows of it,
// which begins with its name and its words. What answers it stands below the row. A new request is a row more and a
// function of its own. One that asks a list of questions is a row and a call of `ask_each`, with what answers one.
#![tactic(auto)]

mod floats;
mod logs;
mod powers;
mod questions;
mod tables;

use groat_answers::Kept;
use groat_lines::{Bench, Problem};

// Answers the line where it names one of these requests. What it gives the table, the log or the floats is kept.
pub fn answer(bench: &mut Bench, kept: &mut Kept) -> Result<(), Problem> {
    tables::answer(bench, kept)?;
    logs::answer(bench, kept)?;
    questions::answer(bench, kept)?;
    powers::answer(bench, kept)?;
    floats::answer(bench, kept)
}
