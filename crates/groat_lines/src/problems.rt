// What can be wrong with a request line. The first thing that is wrong is the line's answer, and nothing after it
// counts. What is wrong with the input itself shows at any byte, so the bench keeps it beside what it reads.
use crate::streams::Bench;
use std::fmt::InlineText;
use thiserror::Error;

#[derive(Clone, Copy, Debug, PartialEq, Eq, Error)]
pub enum Problem {
    #[error("no such request")]
    NoSuchRequest,
    #[error("bad number")]
    BadNumber,
    #[error("too few words")]
    TooFewWords,
    #[error("too many words")]
    TooManyWords,
    #[error("too many items")]
    TooManyItems,
    #[error("too many bytes")]
    TooManyBytes,
    #[error("cannot open")]
    CannotOpen,
    #[error("cannot write")]
    CannotWrite,
    #[error("not seven numbers")]
    NotSevenNumbers,
    #[error("no such direction")]
    NoSuchDirection,
    #[error("not a regular file")]
    NotARegularFile,
    #[error("bad title")]
    BadTitle,
    #[error("line too long for a terminal: put it in a file, and start with ./groat FILE")]
    LineTooLong,
    #[error("cannot read")]
    CannotRead,
}

impl Bench {
    // Whether the input is as it should be, up to where it has been read in this line.
    pub fn is_fine(&self) -> bool {
        self.problem.is_none()
    }

    // What is wrong with the input. Each reading ends with it, since what was found while it read comes first.
    pub(crate) fn checked(&self) -> Result<(), Problem> {
        match self.problem {
            Some(found) => Err(found),
            None => Ok(()),
        }
    }

    // With something wrong with the input, unless something was wrong with it before.
    pub(crate) fn found(&mut self, problem: Problem) {
        if self.problem.is_none() {
            self.problem = Some(problem);
        }
    }

    // With a request, or an item of one, that was refused.
    pub fn fault(&mut self) {
        self.faulty = true;
    }

    // Says what is wrong with the line.
    pub fn put_problem(&mut self, problem: Problem) {
        self.fault();
        self.put(b"error ");
        self.put(InlineText::<128>::of(problem).as_str().as_bytes());
    }

    // At the end of an answer: a line that was refused in any part or could not be read is counted.
    pub fn count_fault(&mut self) {
        if self.faulty {
            self.faulty = false;
            self.faults = self.faults.wrapping_add(1);
        }
    }

    // How many lines were refused in any part or could not be read.
    pub fn faults(&self) -> u64 {
        self.faults
    }
}
