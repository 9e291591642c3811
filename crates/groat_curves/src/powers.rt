// The requests on gamma curves that are worked out, by an exponent in 65536ths or by the entry of a gamma tag. The kept
// table itself is lent to each call: a refused one leaves it as it was.
use crate::questions::ask_each;
use crate::tables::fill_table;
use groat_answers::Kept;
use groat_lines::{Bench, Place, Problem, short};
use power_curve::{power, power_table, tag_power, tag_power_table};
use table::Drive;

pub fn answer(bench: &mut Bench, kept: &mut Kept) -> Result<(), Problem> {
    if bench.at_row(
        b"power P LIST: the gamma curve of exponent P/65536 at each drive",
        b"words: P below 2^64; LIST of 0 to 65535\nanswer: a list\nitems refused: 18",
    )? {
        let exponent = bench.read_number(Place::Any)?;
        return ask_each(bench, &mut kept.codes, Place::Short, |code| {
            power(Drive(short(code)), exponent)
        });
    }
    if bench.at_row(
        b"powertable P N: the gamma curve of exponent P/65536, with N entries, is the table",
        b"words: P and N below 2^64\nanswer: ok N\nrefused: 1, 18",
    )? {
        let (exponent, n) = bench.last_numbers(Place::Any, Place::Any)?;
        return fill_table(bench, kept, n, |out, n| power_table(out, n, exponent));
    }
    if bench.at_row(
        b"tagpower K LIST: the gamma curve of a gamma tag's entry K at each drive",
        b"words: K 0 to 65535; LIST of 0 to 65535\nanswer: a list\nitems refused: 18",
    )? {
        let gamma = short(bench.read_number(Place::Short)?);
        return ask_each(bench, &mut kept.codes, Place::Short, |code| {
            tag_power(Drive(short(code)), gamma)
        });
    }
    if bench.at_row(
        b"tagtable K N: the gamma curve of a gamma tag's entry K, with N entries, is the table",
        b"words: K 0 to 65535; N below 2^64\nanswer: ok N\nrefused: 1, 18",
    )? {
        let (gamma, n) = bench.last_numbers(Place::Short, Place::Any)?;
        return fill_table(
            bench,
            kept,
            n,
            |out, n| tag_power_table(out, n, short(gamma)),
        );
    }
    Ok(())
}
