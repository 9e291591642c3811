// How the program is started and how it ends. The script ./groat starts it with one word for each thing that holds:
// `typed`, that its lines come from a terminal; `prompts`, that a person reads the answers there; `strict`, that it is
// to say at its end whether all went well. It has no exit status to give: what it says on standard error, the script
// turns into one.
use groat_lines::{Bench, name_of};
use std::env::FillError;
use std::rt::Env;

// Whether the program was started with a word at a place, which counts from 1. A word that is longer than the buffer
// fills it.
fn is_word(env: &impl Env, place: usize, word: &[u8]) -> bool {
    let mut room = [0; 16];
    let n = match env.arg(place, &mut room) {
        Ok(n) => n,
        Err(FillError::TooLong) => 16,
        Err(FillError::NotPresent) => 0,
    };
    name_of(&room[..n]).code == name_of(word).code
}

// Whether it was started with a word at any of the three places.
fn has_word(env: &impl Env, word: &[u8]) -> bool {
    (1..=3).any(|place| is_word(env, place, word))
}

pub fn started(rt: HostRuntime) -> Bench {
    Bench::new(rt, has_word(&rt, b"typed"), has_word(&rt, b"prompts"))
}

// Says how many requests were refused or not read, where that is asked for and there are any.
pub fn report(bench: &Bench, rt: &(impl Env + Eprint)) {
    let faults = bench.faults();
    if faults > 0 && has_word(rt, b"strict") {
        let _ = eprintln!(rt; "groat: requests refused or not read: {faults}");
    }
}
