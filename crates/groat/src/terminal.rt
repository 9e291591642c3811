// The program at a terminal, where a person types the requests and reads the answers: an opening line, a prompt, a hint
// after an error, and requests that no other caller has. To a program at the other end of a pipe none of this is said.
use crate::refusals::meaning;
use groat_lines::{Bench, Now, Place, Problem};
use plain_answers::version;

// The library's version, as three numbers.
fn put_version(bench: &mut Bench) {
    let version = u64::from(version());
    bench.put_decimal(version / 10000);
    bench.put_byte(b'.');
    bench.put_decimal(version / 100 % 100);
    bench.put_byte(b'.');
    bench.put_decimal(version % 100);
}

// Before a line that is to be waited for.
pub fn put_prompt(bench: &mut Bench) {
    if bench.prompts() && bench.now() != Now::InputEnd {
        bench.put(b"> ");
    }
}

// Before the first line.
pub fn put_opening(bench: &mut Bench) {
    if bench.prompts() {
        bench.put(b"groat ");
        put_version(bench);
        bench.put(b": help lists the requests, quit ends\n");
        put_prompt(bench);
    }
}

// After a line that could not be read.
pub fn put_hint(bench: &mut Bench) {
    if bench.prompts() {
        bench.put(b"type help for the requests, or help WORD for one of them\n");
    }
}

// After the last line, with all that was answered written out. Where the input ended at a prompt, the line of that
// prompt ends too.
pub fn close(bench: &mut Bench) {
    if bench.prompts() && !bench.is_over() {
        bench.put_byte(b'\n');
    }
    bench.flush();
}

fn explain(bench: &mut Bench) -> Result<(), Problem> {
    let refusal = bench.last_number(Place::Any)?;
    bench.put(meaning(refusal).as_bytes());
    Ok(())
}

fn answer_person(bench: &mut Bench) -> Result<(), Problem> {
    if bench.at_row(
        b"why N: what refusal N means",
        b"words: N below 2^64\nanswer: a sentence",
    )? {
        return explain(bench);
    }
    if bench.at_row(b"quit: end", b"answer: none")?
        || bench.at_row(b"exit: end", b"answer: none")?
    {
        bench.end();
    }
    Ok(())
}

// Answers the line where it names one of a person's requests.
pub fn answer(bench: &mut Bench) -> Result<(), Problem> {
    if bench.prompts() {
        return answer_person(bench);
    }
    Ok(())
}
