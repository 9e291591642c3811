// Lists: `V`, `V*K` and `A:B`, or a log's records, separated by commas; or `-` for none.
use crate::first;
use crate::numbers::Place;
use crate::problems::Problem;
use crate::streams::Bench;
use decimal::Sum;

// The codes of a list that the program holds: at most one more than a table may have.
pub type Codes = [u64; 65537];

// Values that are left of an item that was read: `value` comes next, and then `more` others, each `step` above the one
// before it.
#[derive(Clone, Copy)]
struct Run {
    value: u64,
    step: u64,
    more: u64,
}

// How far a list has been read.
#[derive(Clone, Copy)]
enum Stage {
    // an item comes next
    Item,
    // the rest of an item, of which the minus sign has been read
    Negative,
    // values of the item that was read
    Run(Run),
    // none are left of it: a comma or the list's end comes next
    Past,
    // at its end
    Ended,
    // at what is wrong with it
    Failed(Problem),
}

// A list that is being read.
#[derive(Clone, Copy)]
pub struct List {
    place: Place,
    stage: Stage,
}

impl Run {
    fn once(value: u64) -> Run {
        Run {
            value,
            step: 0,
            more: 0,
        }
    }

    // With its first value taken.
    fn shortened(self) -> Stage {
        if self.more == 0 {
            return Stage::Past;
        }
        Stage::Run(Run {
            value: self.value.wrapping_add(self.step),
            step: self.step,
            more: self.more - 1,
        })
    }
}

// `V*K`.
fn repeated(value: u64, times: Sum) -> Option<Stage> {
    match times {
        Sum::Suits(0) => Some(Stage::Past),
        Sum::Suits(k) => Some(Stage::Run(Run {
            value,
            step: 0,
            more: k - 1,
        })),
        Sum::OneAbove | Sum::Wrong => None,
    }
}

fn counted_up(from: u64, more: u64) -> Stage {
    Stage::Run(Run {
        value: from,
        step: 1,
        more,
    })
}

// `A:B`. One above the largest B leaves all from A on, and A is no larger than that.
fn ranged(place: Place, from: u64, end: Sum) -> Option<Stage> {
    match end {
        Sum::Suits(to) if to <= from => Some(Stage::Past),
        Sum::Suits(to) => Some(counted_up(from, to - from - 1)),
        Sum::OneAbove => Some(counted_up(from, place.largest().wrapping_sub(from))),
        Sum::Wrong => None,
    }
}

impl Bench {
    // The next word of the line as a list of which nothing is read yet. A minus sign is a list of no items, or begins
    // the first.
    pub fn open_list(&mut self, place: Place) -> Result<List, Problem> {
        self.next_word()?;
        if !self.is_at(b'-') {
            return Ok(List {
                place,
                stage: Stage::Item,
            });
        }
        self.advance();
        if self.ends_word() {
            return Ok(List {
                place,
                stage: Stage::Ended,
            });
        }
        Ok(List {
            place,
            stage: Stage::Negative,
        })
    }

    // What is wrong with an item, unless something was wrong with the input before it.
    fn bad_item(&self) -> Stage {
        Stage::Failed(self.problem.unwrap_or(Problem::BadNumber))
    }

    // The rest of an item after its first number, of which a record has none.
    fn after_first(&mut self, place: Place, value: u64) -> Option<Stage> {
        if place != Place::Record && self.is_at(b'*') {
            self.advance();
            return repeated(value, self.read_sum(Place::Any));
        }
        if place.is_decimal() && self.is_at(b':') {
            self.advance();
            return ranged(place, value, self.read_sum(place));
        }
        Some(Stage::Run(Run::once(value)))
    }

    fn read_rest(&mut self, place: Place, number: Sum) -> Option<Stage> {
        match number {
            Sum::Suits(value) => self.after_first(place, value),
            Sum::OneAbove | Sum::Wrong => None,
        }
    }

    // After an item's number. An item counts only where it is whole.
    fn read_item(&mut self, place: Place, number: Sum) -> Stage {
        match self.read_rest(place, number) {
            Some(stage) if self.is_at(b',') || self.ends_word() => stage,
            _ => self.bad_item(),
        }
    }

    // At the next item, or at the list's end.
    fn after_item(&mut self) -> Stage {
        if self.is_at(b',') {
            self.advance();
            return Stage::Item;
        }
        Stage::Ended
    }

    // One step on.
    fn next_stage(&mut self, place: Place, stage: Stage) -> Stage {
        match stage {
            Stage::Item => {
                let number = self.read_sum(place);
                self.read_item(place, number)
            }
            Stage::Negative => {
                let number = self.read_negative(place);
                self.read_item(place, number)
            }
            Stage::Run(run) => run.shortened(),
            Stage::Past => self.after_item(),
            Stage::Ended | Stage::Failed(_) => stage,
        }
    }

    // The next word of the line as a list of at most so many items, whose codes are put into a lent buffer.
    fn read_at_most<'a>(
        &mut self,
        place: Place,
        room: &'a mut Codes,
        most: usize,
    ) -> Result<&'a [u64], Problem> {
        let mut list = self.open_list(place)?;
        let n = list.fill(self, room, most.saturating_add(1), false);
        list.checked()?;
        self.checked()?;
        if n > most {
            return Err(Problem::TooManyItems);
        }
        Ok(first(room, n))
    }

    // The same with as many items as the buffer holds.
    pub fn read_items<'a>(
        &mut self,
        place: Place,
        room: &'a mut Codes,
    ) -> Result<&'a [u64], Problem> {
        self.read_at_most(place, room, 65537)
    }

    // The last word of the line as such a list.
    pub fn last_items<'a>(
        &mut self,
        place: Place,
        room: &'a mut Codes,
    ) -> Result<&'a [u64], Problem> {
        let items = self.read_items(place, room);
        self.last(items)
    }

    // The last word of the line as a log's records, at most so many.
    pub fn last_records<'a>(
        &mut self,
        room: &'a mut Codes,
        most: usize,
    ) -> Result<&'a [u64], Problem> {
        let records = self.read_at_most(Place::Record, room, most);
        self.last(records)
    }
}

impl List {
    // Whether there is more of it to be read.
    pub fn goes_on(&self) -> bool {
        match self.stage {
            Stage::Item | Stage::Negative | Stage::Run(_) | Stage::Past => true,
            Stage::Ended | Stage::Failed(_) => false,
        }
    }

    // What is wrong with it, as far as it has been read.
    pub fn checked(&self) -> Result<(), Problem> {
        match self.stage {
            Stage::Failed(problem) => Err(problem),
            _ => Ok(()),
        }
    }

    // Whether what comes next may have to be waited for, with n values at hand.
    fn waits(&self, bench: &Bench, n: usize) -> bool {
        match self.stage {
            Stage::Item | Stage::Negative | Stage::Past => n > 0 && !bench.is_at_hand(),
            Stage::Run(_) | Stage::Ended | Stage::Failed(_) => false,
        }
    }

    // With the run's next value put into a lent buffer after n others, where the list is in a run; one past the
    // buffer's end is only counted.
    fn keep(&self, codes: &mut Codes, n: usize) -> usize {
        let Stage::Run(run) = self.stage else {
            return n;
        };
        if n < 65537 {
            codes[n] = run.value;
        }
        n.saturating_add(1)
    }

    // Reads on until there are `most` values, or the list ends or fails, and gives how many there are; a `prompt`
    // reader, which answers what there is, does not wait for more input either.
    pub fn fill(
        &mut self,
        bench: &mut Bench,
        codes: &mut Codes,
        most: usize,
        prompt: bool,
    ) -> usize {
        let mut n: usize = 0;
        for _ in 0..u64::MAX {
            if n >= most || !self.goes_on() || (prompt && self.waits(bench, n)) {
                break;
            }
            n = self.keep(codes, n);
            self.stage = bench.next_stage(self.place, self.stage);
        }
        n
    }
}
