// The requests on the tag. The kept table and the kept tag are lent to each call: a refused one leaves them as they
// were.
use crate::files::{load, save};
use groat_answers::{
    Kept, put_bytes, put_comma, put_count, put_ok, put_refused, put_refused_number, put_unified,
};
use groat_lines::{Bench, Place, Problem, raw};
use itoa::Buffer;
use para::Numbers;

pub fn answer(bench: &mut Bench, kept: &mut Kept) -> Result<(), Problem> {
    if bench.at_row(
        b"tag BYTES: keep the bytes as the tag",
        b"words: BYTES as pairs of hexadecimal digits with no spaces, or - for none\nanswer: ok N, N the bytes",
    )? {
        return hold_tag(bench, kept);
    }
    if bench.at_row(
        b"hex: the tag's bytes",
        b"answer: the bytes as pairs of hexadecimal digits",
    )? {
        put_bytes(bench, kept.tag.items());
    }
    if bench.at_row(
        b"load PATH: the file's bytes are the tag",
        b"words: PATH with no spaces\nanswer: ok N, N the bytes",
    )? {
        return load(bench, kept);
    }
    if bench.at_row(
        b"save PATH: write the tag's bytes to the file",
        b"words: PATH with no spaces\nanswer: ok N, N the bytes",
    )? {
        return save(bench, kept.tag.items());
    }
    if bench.at_row(
        b"count: how many entries the curv tag has",
        b"answer: the number\nrefused: 8, 9, 10, 1, 8",
    )? {
        count(bench, kept.tag.items());
    }
    if bench.at_row(
        b"read: the curv tag's entries are the table",
        b"answer: ok N, N the entries\nrefused: 8, 9, 10, 1, 8",
    )? {
        read(bench, kept);
    }
    if bench.at_row(
        b"part: the bytes of the curv tag's entries",
        b"answer: the bytes as pairs of hexadecimal digits\nrefused: 8, 9, 10, 1, 8",
    )? {
        part(bench, kept.tag.items());
    }
    if bench.at_row(
        b"write: the curv tag of the table is the tag",
        b"answer: ok N, N the bytes\nrefused: 1",
    )? {
        write(bench, kept);
    }
    if bench.at_row(
        b"para: the para tag's count and its seven raw numbers",
        b"answer: COUNT LIST\nrefused: 8, 9, 10, 11, 8",
    )? {
        read_para(bench, kept.tag.items());
    }
    if bench.at_row(
        b"curve: the para tag as a parametric curve",
        b"answer: g,a,b,c,d,e,f\nrefused: 8, 9, 10, 11, 8",
    )? {
        put_unified(bench, para_curve::read_parametric_curve(kept.tag.items()));
    }
    if bench.at_row(
        b"writepara T LIST: the para tag of type T and seven raw numbers is the tag",
        b"words: T below 2^64; LIST of seven, -2147483648 to 2147483647\nanswer: ok N, N the bytes\nrefused: 11",
    )? {
        return write_para(bench, kept);
    }
    Ok(())
}

// Keeps bytes as the tag.
pub fn hold(bench: &mut Bench, kept: &mut Kept, bytes: &[u8]) {
    kept.tag.hold(bytes, |byte| byte);
    put_ok(bench, bytes.len());
}

// The bytes are read into another buffer first, so that nothing is kept of a line that is wrong.
fn hold_tag(bench: &mut Bench, kept: &mut Kept) -> Result<(), Problem> {
    let mut spare = [0; 131200];
    let bytes = bench.last_bytes(&mut spare)?;
    hold(bench, kept, bytes);
    Ok(())
}

fn count(bench: &mut Bench, tag: &[u8]) {
    match curv::count_entries(tag) {
        Ok(n) => bench.put_decimal(n as u64),
        Err(why) => put_refused(bench, why),
    }
}

fn part(bench: &mut Bench, tag: &[u8]) {
    let mut why = 0;
    let bytes = curv_part::entry_bytes(tag, &mut why);
    if why > 0 {
        put_refused_number(bench, why);
    } else {
        put_bytes(bench, bytes);
    }
}

// How many entries a tag that is read gives; of one that is refused any number serves, since it is refused for that.
fn entries_of(tag: &[u8]) -> usize {
    curv::count_entries(tag).unwrap_or(0)
}

fn read(bench: &mut Bench, kept: &mut Kept) {
    let tag = kept.tag.items();
    let done = kept.table.make(entries_of(tag), |table| curv_reader::read_curv(tag, table));
    put_count(bench, done);
}

// How many bytes the curv tag of a table of n entries has; of one that is too long any number serves, since it is
// refused for that.
fn curv_length(n: usize) -> usize {
    if n < 65537 {
        return 12 + 2 * n;
    }
    0
}

fn write(bench: &mut Bench, kept: &mut Kept) {
    let table = kept.table.items();
    let done = kept.tag.make(curv_length(table.len()), |tag| {
        curv_writer::write_curv(table, tag)
    });
    put_count(bench, done);
}

fn put_numbers(bench: &mut Bench, numbers: Numbers) {
    let list = [
        numbers.g, numbers.a, numbers.b, numbers.c, numbers.d, numbers.e, numbers.f,
    ];
    for (place, &number) in list.iter().enumerate() {
        put_comma(bench, place);
        bench.put(Buffer::new().format(number).as_bytes());
    }
}

fn read_para(bench: &mut Bench, tag: &[u8]) {
    match para::read_para(tag) {
        Ok((count, numbers)) => {
            bench.put_decimal(count as u64);
            bench.put_byte(b' ');
            put_numbers(bench, numbers);
        }
        Err(why) => put_refused(bench, why),
    }
}

// How many bytes the para tag of a function type has; of a type above 4 any number serves, since it is refused for
// that.
fn para_length(t: usize) -> usize {
    match t {
        0 => 16,
        1 => 24,
        2 => 28,
        3 => 32,
        _ => 40,
    }
}

// The seven numbers of a list's codes.
fn numbers_of(codes: &[u64]) -> Result<Numbers, Problem> {
    let &[g, a, b, c, d, e, f] = codes else {
        return Err(Problem::NotSevenNumbers);
    };
    Ok(Numbers {
        g: raw(g),
        a: raw(a),
        b: raw(b),
        c: raw(c),
        d: raw(d),
        e: raw(e),
        f: raw(f),
    })
}

fn write_para(bench: &mut Bench, kept: &mut Kept) -> Result<(), Problem> {
    let t = bench.read_number(Place::Any)? as usize;
    let codes = bench.last_items(Place::Raw, &mut kept.codes)?;
    let numbers = numbers_of(codes)?;
    let done = kept.tag.make(para_length(t), |tag| {
        para_writer::write_para(t, numbers, tag)
    });
    put_count(bench, done);
    Ok(())
}
