// The requests on floats and on parametric curves.
use crate::questions::{ask_each, put_made};
use crate::tables::keep_list;
use groat_answers::inside::Places;
use groat_answers::{Kept, put_unified, put_yes_no};
use groat_lines::{Bench, Codes, Place, Problem, double, raw, short, single};
use interp::lut_interp_linear_float;
use parametric::{ParametricCurve, compare_parametric};
use passthrough::passthrough_table_impl;
use rounding::{nearest_f64_to_f32, s15_fixed16_number_to_float, u8_fixed_8number_to_float};

pub fn answer(bench: &mut Bench, kept: &mut Kept) -> Result<(), Problem> {
    if bench.at_row(
        b"floats LIST: keep the list of f32",
        b"words: LIST of f32, each as 8 hexadecimal digits\nanswer: ok N, N its length",
    )? {
        return keep_list(
            bench,
            &mut kept.codes,
            Place::Single,
            &mut kept.floats,
            single,
        );
    }
    if bench.at_row(
        b"flookup LIST: the kept floats at each f32",
        b"words: LIST of f32, each as 8 hexadecimal digits\n\
            answer: a list of f32, each as 8 digits or nan\nitems refused: 1",
    )? {
        let floats = kept.floats.items();
        return ask_each(bench, &mut kept.codes, Place::Single, |code| {
            lut_interp_linear_float(floats, single(code))
        });
    }
    if bench.at_row(
        b"passthrough N: the straight line of N floats",
        b"words: N below 2^64\nanswer: a list of f32, each as 8 digits\nrefused: 12",
    )? {
        return passthrough(bench);
    }
    if bench.at_row(
        b"fixed8 LIST: the f32 of each 8.8 number",
        b"words: LIST of 0 to 65535\nanswer: a list of f32, each as 8 digits",
    )? {
        return ask_each(bench, &mut kept.codes, Place::Short, |code| {
            Ok(u8_fixed_8number_to_float(short(code)))
        });
    }
    if bench.at_row(
        b"raw LIST: the f32 of each raw 16.16 number",
        b"words: LIST of -2147483648 to 2147483647\nanswer: a list of f32, each as 8 digits",
    )? {
        return ask_each(bench, &mut kept.codes, Place::Raw, |code| {
            Ok(s15_fixed16_number_to_float(raw(code)))
        });
    }
    if bench.at_row(
        b"narrow LIST: the f32 nearest to each f64",
        b"words: LIST of f64, each as 16 hexadecimal digits\nanswer: a list of f32, each as 8 digits or nan",
    )? {
        return ask_each(bench, &mut kept.codes, Place::Double, |code| {
            Ok(nearest_f64_to_f32(double(code)))
        });
    }
    if bench.at_row(
        b"param LIST: the parametric curve of 1, 3, 4, 5 or 7 f32",
        b"words: LIST of f32, each as 8 hexadecimal digits\nanswer: g,a,b,c,d,e,f\nrefused: 7",
    )? {
        return param(bench, &mut kept.codes);
    }
    if bench.at_row(
        b"compare LIST LIST: whether two lists of f32 are close",
        b"words: each LIST of f32, each as 8 hexadecimal digits\nanswer: yes or no",
    )? {
        return compare(bench, &mut kept.codes);
    }
    Ok(())
}

// Every length from 65,537 on is refused alike. Apart from `invert` for the room's type, as the rows are.
fn passthrough(bench: &mut Bench) -> Result<(), Problem> {
    let n = bench.last_number(Place::Any)? as usize;
    put_made(bench, [0.0f32; 65537], n, passthrough_table_impl);
    Ok(())
}

// Every count from 8 on is refused alike.
fn param(bench: &mut Bench, codes: &mut Codes) -> Result<(), Problem> {
    let list = bench.last_items(Place::Single, codes)?;
    let mut parameters = Places::new([0.0; 8]);
    parameters.hold(list, single);
    put_unified(bench, ParametricCurve::new(parameters.items()));
    Ok(())
}

fn compare(bench: &mut Bench, codes: &mut Codes) -> Result<(), Problem> {
    let mut one = Places::new([0.0; 65537]);
    let mut other = Places::new([0.0; 65537]);
    let list = bench.read_items(Place::Single, codes);
    bench.skip_spaces();
    one.hold(list?, single);
    other.hold(bench.last_items(Place::Single, codes)?, single);
    put_yes_no(bench, compare_parametric(one.items(), other.items()));
    Ok(())
}
