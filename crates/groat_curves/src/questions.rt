// The requests that ask about the table, and `ask_each`, which answers any list of questions: each question goes to the
// library's call, and the answers are written as the questions come in.
use gamma::lut_interp_linear_gamma_impl;
use groat_answers::inside::Places;
use groat_answers::{Item, Kept, put_comma, put_item, put_list, put_none, put_refused};
use groat_lines::{Bench, Codes, List, Place, Problem, double, first, short};
use interp::lut_interp_linear;
use inverse::lut_inverse_interp16;
use invert::invert_lut;
use least::least_input;
use least_row::least_input_row;
use lookup::lut_interp_linear16;
use rows::lut_interp_linear16_row;
use table::{Density, Drive, Refusal};

pub fn answer(bench: &mut Bench, kept: &mut Kept) -> Result<(), Problem> {
    let table = kept.table.items();
    let codes = &mut kept.codes;
    if bench.at_row(
        b"lookup LIST: the density at each drive",
        b"words: LIST of 0 to 65535\nanswer: a list\nitems refused: 1",
    )? {
        return ask_each(bench, codes, Place::Short, |code| {
            lut_interp_linear16(table, Drive(short(code)))
        });
    }
    if bench.at_row(
        b"least LIST: the least drive that reaches each density",
        b"words: LIST of 0 to 65535\nanswer: a list\nitems refused: 1, 2, 5",
    )? {
        return ask(bench, codes, Place::Short, |bench, asked, before| {
            put_least(bench, table, asked, before)
        });
    }
    if bench.at_row(
        b"row LIST: the densities at the drives, by one call",
        b"words: LIST of 0 to 65535\nanswer: a list\nrefused: 1",
    )? {
        return look_up_row(bench, codes, table);
    }
    if bench.at_row(
        b"leastrow LIST: the least drives of the densities, by one call; 65536 for none",
        b"words: LIST of 0 to 65535\nanswer: a list\nrefused: 1, 2",
    )? {
        return least_row(bench, codes, table);
    }
    if bench.at_row(
        b"inverse LIST: the Rust's inverse of each density",
        b"words: LIST of 0 to 65535\nanswer: a list\nitems refused: 1",
    )? {
        return ask_each(bench, codes, Place::Short, |code| {
            lut_inverse_interp16(table, Density(short(code)))
        });
    }
    if bench.at_row(
        b"invert M: the inverted table of M entries",
        b"words: M below 2^64\nanswer: a list\nrefused: 1, 12",
    )? {
        return invert(bench, table);
    }
    if bench.at_row(
        b"gamma N DEPTH LIST: the integer gamma lookup at each input",
        b"words: N, DEPTH and each of LIST below 2^64\nanswer: a list\nitems refused: 1, 12, 3",
    )? {
        let inputs = bench.read_number(Place::Any);
        let depth = bench.read_number(Place::Any);
        let (inputs, depth) = (inputs? as usize, depth? as usize);
        return ask_each(bench, codes, Place::Any, |code| {
            lut_interp_linear_gamma_impl(table, inputs, depth, code as usize)
        });
    }
    if bench.at_row(
        b"house LIST: the house curve's entry at each index",
        b"words: LIST of numbers below 2^64\nanswer: a list\nitems refused: 3",
    )? {
        return ask_each(bench, codes, Place::Any, |code| house::entry(code as usize));
    }
    if bench.at_row(
        b"dlookup LIST: the table at each f64 from 0 to 1",
        b"words: LIST of f64, each as 16 hexadecimal digits\n\
            answer: a list of f32, each as 8 digits or nan\nitems refused: 1, 13",
    )? {
        return ask_each(bench, codes, Place::Double, |code| {
            lut_interp_linear(table, double(code))
        });
    }
    Ok(())
}

// The rest of a line that asks a list of questions, with their answers as a list. The answers to some of them, after
// so many others, are put by what is passed. What is answered is written out before more is waited for.
fn ask<F: Fn(&mut Bench, &[u64], usize)>(
    bench: &mut Bench,
    codes: &mut Codes,
    place: Place,
    put_answers: F,
) -> Result<(), Problem>
    requires { F.IsAlwaysCallable put_answers }
{
    let mut list = bench.open_list(place)?;
    let mut answers: usize = 0;
    for _ in 0..u64::MAX {
        if bench.is_broken() || !list.goes_on() {
            break;
        }
        let n = list.fill(bench, codes, 1024, true);
        put_answers(bench, first(codes, n), answers);
        bench.settle();
        answers = answers.wrapping_add(n);
    }
    put_end(bench, &list, answers)
}

// What is wrong with a list or after it.
fn ended(bench: &mut Bench, list: &List) -> Result<(), Problem> {
    let end = bench.no_more_words();
    list.checked()?;
    end
}

// What stands after so many answers: a comma before what is wrong, or `-` where there were no questions.
fn put_end(bench: &mut Bench, list: &List, answers: usize) -> Result<(), Problem> {
    let end = ended(bench, list);
    if end.is_err() {
        put_comma(bench, answers);
    } else {
        put_none(bench, answers);
    }
    end
}

// Items of a list after so many others, each what is answered to one of what was asked.
fn put_each<S: Copy, T: Item + Drop, F: Fn(S) -> Result<T, Refusal>>(
    bench: &mut Bench,
    asked: &[S],
    before: usize,
    answer: F,
)
    requires { F.IsAlwaysCallable answer }
{
    for (place, &question) in asked.iter().enumerate() {
        put_comma(bench, before.wrapping_add(place));
        put_item(bench, answer(question));
    }
}

// The rest of a line that asks a list of questions, each answered by itself.
pub fn ask_each<T: Item + Drop, F: Fn(u64) -> Result<T, Refusal>>(
    bench: &mut Bench,
    codes: &mut Codes,
    place: Place,
    answer: F,
) -> Result<(), Problem>
    requires { F.IsAlwaysCallable answer }
{
    ask(
        bench,
        codes,
        place,
        |bench, asked, before|
            requires { F.IsAlwaysCallable answer }
        { put_each(bench, asked, before, &answer) },
    )
}

// A position where one reaches the value: 65,536 says that none does.
fn reached(position: u32) -> Result<u32, Refusal> {
    if position > 65535 {
        return Err(Refusal::AboveLast);
    }
    Ok(position)
}

// Several least inputs are found by one call, which tests the table once for all of them. Each is refused with it.
fn put_least_of(bench: &mut Bench, table: &[u16], asked: &[u64], before: usize) {
    let mut values = Places::new([0u16; 1024]);
    let mut found = Places::new([0u32; 1024]);
    values.hold(asked, short);
    let values = values.items();
    match found.make(asked.len(), |room| least_input_row(table, values, room)) {
        Ok(_) => put_each(bench, found.items(), before, reached),
        Err(why) => put_each(bench, asked, before, |_| Err::<u32, Refusal>(why)),
    }
}

fn put_least(bench: &mut Bench, table: &[u16], asked: &[u64], before: usize) {
    if asked.len() > 1 {
        put_least_of(bench, table, asked, before);
    } else {
        put_each(
            bench,
            asked,
            before,
            |code| least_input(table, Density(short(code))),
        );
    }
}

// A list of n items that a call fills, or as many as there is room for.
pub fn put_made<T: Item + Copy, const N: usize, F: FnOnce(&mut [T]) -> Result<(), Refusal>>(
    bench: &mut Bench,
    room: [T; N],
    n: usize,
    fill: F,
)
    requires { F.IsAlwaysCallable fill }
{
    let mut list = Places::new(room);
    match list.make(n, fill) {
        Ok(_) => put_list(bench, list.items()),
        Err(why) => put_refused(bench, why),
    }
}

// Its twin below stays: the room of a type parameter, [T; 65537], gets no proof of its size, and where `answer` made it
// 300,000 lines of `least 5` took 19.5 s in place of 0.3.
fn look_up_row(bench: &mut Bench, codes: &mut Codes, table: &[u16]) -> Result<(), Problem> {
    let asked = bench.last_items(Place::Short, codes)?;
    let mut positions = Places::new([0; 65537]);
    positions.hold(asked, short);
    let positions = positions.items();
    put_made(bench, [0u16; 65537], asked.len(), |room| {
        lut_interp_linear16_row(table, positions, room)
    });
    Ok(())
}

fn least_row(bench: &mut Bench, codes: &mut Codes, table: &[u16]) -> Result<(), Problem> {
    let asked = bench.last_items(Place::Short, codes)?;
    let mut values = Places::new([0; 65537]);
    values.hold(asked, short);
    let values = values.items();
    put_made(bench, [0u32; 65537], asked.len(), |room| {
        least_input_row(table, values, room)
    });
    Ok(())
}

// Every length from 65,537 on is refused alike.
fn invert(bench: &mut Bench, table: &[u16]) -> Result<(), Problem> {
    let m = bench.last_number(Place::Any)? as usize;
    put_made(bench, [0u16; 65537], m, |room| invert_lut(table, room));
    Ok(())
}
