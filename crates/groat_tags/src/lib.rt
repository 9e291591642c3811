// The bench program's requests on tags, files and pictures, each with its row as in groat_curves.
#![tactic(auto)]

mod files;
mod pictures;
mod tags;

use groat_answers::Kept;
use groat_lines::{Bench, Problem};

// Answers the line where it names one of these requests. What it gives the table or the tag is kept.
pub fn answer(bench: &mut Bench, kept: &mut Kept) -> Result<(), Problem> {
    tags::answer(bench, kept)?;
    pictures::answer(bench, kept)
}
