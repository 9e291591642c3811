// How a line finds its request: it is held against the rows of all requests, one by one. A row is a text: a request's
// name, its words, a colon, and what the request does. A name has at most twelve letters, a to z and 0 to 9. With each
// row goes what its words may be, what it answers and with what it is refused, for a person who asks for help with it.
use crate::problems::Problem;
use crate::streams::Bench;
use crate::words::name_of;

// What a line asks of the rows.
#[derive(Clone, Copy, PartialEq, Eq)]
pub(crate) enum Asked {
    // the row of the request that the line names, if it names any
    Request(Option<u64>),
    // all rows, to be shown
    AllRows,
    // the row of a request with that name, to be explained
    Help(Option<u64>),
    // nothing more: one of them has answered the line
    Answered,
}

// The row of help itself, which is the last.
const HELP: [u8; 17] = *b"help: these lines";

// What help says of itself, and what stands below all rows, to a person.
const HELP_ANSWERS: [u8; 86] =
    *b"words: none, or a request's name\nanswer: a line for each request, or some for that one";

const BELOW_ROWS: [u8; 140] = *b"\nhelp WORD: what the request WORD takes and answers\n\
    A LIST is items with commas, as 0,500*3,7:10 (0, 500 three times, 7 to 9), or - for none";

// Whether a row's name has no words after it.
fn stands_alone(row: &[u8], letters: usize) -> bool {
    match row.get(letters) {
        Some(&byte) => byte == b':',
        None => true,
    }
}

impl Bench {
    // After the word `help`. Only a person may ask for one request.
    fn read_help(&mut self) -> Result<Asked, Problem> {
        self.skip_spaces();
        if self.prompts() && !self.ends_line() {
            return Ok(Asked::Help(self.last_name()?));
        }
        self.no_more_words()?;
        Ok(Asked::AllRows)
    }

    // Before the first row: the line's first word says what is asked of them.
    pub fn before_rows(&mut self) -> Result<(), Problem> {
        let name = self.read_name()?;
        if name == name_of(&HELP).code {
            self.asked = self.read_help()?;
        } else {
            self.asked = Asked::Request(name);
        }
        Ok(())
    }

    fn show(&mut self, row: &[u8]) {
        self.put(row);
        self.put_byte(b'\n');
    }

    fn explain(&mut self, row: &[u8], answers: &[u8]) {
        self.show(row);
        self.put(answers);
        self.asked = Asked::Answered;
    }

    // At the row of the line's request. Where words are left over after a row of one word, nothing answers the line.
    fn take(&mut self, row: &[u8], letters: usize) -> Result<(), Problem> {
        if stands_alone(row, letters) {
            self.no_more_words()?;
        }
        self.asked = Asked::Answered;
        Ok(())
    }

    // At a row: whether what stands below it is to answer the line.
    pub fn at_row(&mut self, row: &[u8], answers: &[u8]) -> Result<bool, Problem> {
        match self.asked {
            Asked::Request(asked) => {
                let name = name_of(row);
                if name.code == asked {
                    self.take(row, name.letters)?;
                    return Ok(true);
                }
            }
            Asked::AllRows => self.show(row),
            Asked::Help(asked) => {
                if name_of(row).code == asked {
                    self.explain(row, answers);
                }
            }
            Asked::Answered => {}
        }
        Ok(false)
    }

    // The last row, which has no line end after it.
    fn show_last(&mut self) {
        self.put(&HELP);
        if self.prompts() {
            self.put(&BELOW_ROWS);
        }
        self.asked = Asked::Answered;
    }

    // Past the last row of a request: what is left is help, which explains itself too, or a name that no row has.
    pub fn after_rows(&mut self) -> Result<(), Problem> {
        if self.asked == Asked::AllRows {
            self.show_last();
        }
        self.at_row(&HELP, &HELP_ANSWERS)?;
        if self.asked != Asked::Answered {
            return Err(Problem::NoSuchRequest);
        }
        Ok(())
    }
}
