// The requests that make, change and judge the table. The kept table itself is lent to each call: a refused one leaves
// it as it was.
use groat_answers::inside::Places;
use groat_answers::{Kept, put_count, put_done, put_list, put_ok, put_refused, put_yes_no};
use groat_lines::{Bench, Codes, Place, Problem, name_of, short};
use monotonic::{Direction, Monotonic};
use table::{Density, Refusal};

pub fn answer(bench: &mut Bench, kept: &mut Kept) -> Result<(), Problem> {
    if bench.at_row(
        b"table LIST: keep the list as the table",
        b"words: LIST of 0 to 65535\nanswer: ok N, N its length",
    )? {
        return keep_list(bench, &mut kept.codes, Place::Short, &mut kept.table, short);
    }
    if bench.at_row(b"show: the table", b"answer: the table as a list")? {
        put_list(bench, kept.table.items());
        return Ok(());
    }
    if bench.at_row(
        b"start N: the straight curve of N entries is the table",
        b"words: N below 2^64\nanswer: ok N\nrefused: 1",
    )? {
        let n = bench.last_number(Place::Any)?;
        return fill_table(bench, kept, n, |out, _| curve::start(out));
    }
    if bench.at_row(
        b"accept: whether the table may be worked on",
        b"answer: ok\nrefused: 1, 2",
    )? {
        put_done(bench, curve::accept(kept.table.items()));
        return Ok(());
    }
    if bench.at_row(
        b"nudge I V: set entry I of the table to V",
        b"words: I below 2^64, counted from 0; V 0 to 65535\nanswer: ok\nrefused: 1, 3, 2, 4",
    )? {
        return nudge(bench, kept);
    }
    if bench.at_row(
        b"usehouse: the house curve is the table",
        b"answer: ok 1024",
    )? {
        put_count(bench, kept.table.make(1024, house::fill));
        return Ok(());
    }
    if bench.at_row(
        b"bake: the table's answers at every position are the table",
        b"answer: ok 65536\nrefused: 1",
    )? {
        bake(bench, kept);
        return Ok(());
    }
    if bench.at_row(
        b"monotonic rising, monotonic falling: whether it goes that way",
        b"answer: yes V or no V, V the steps against it\nrefused: 1",
    )? {
        return monotonic(bench, kept);
    }
    if bench.at_row(
        b"degenerated: whether it stands still at an end",
        b"answer: yes or no\nrefused: 1",
    )? {
        degenerated(bench, kept);
    }
    Ok(())
}

// The rest of a line whose list is kept.
pub fn keep_list<T: Copy, F: Fn(u64) -> T>(
    bench: &mut Bench,
    codes: &mut Codes,
    place: Place,
    kept: &mut Places<[T; 65537]>,
    meaning: F,
) -> Result<(), Problem>
    requires { F.IsAlwaysCallable meaning }
{
    let list = bench.last_items(place, codes)?;
    kept.hold(list, meaning);
    put_ok(bench, list.len());
    Ok(())
}

// A table of n entries that a call fills is the table. The call tests the number first: every one from 65,537 on is
// refused alike, and any other has its places lent.
pub fn fill_table<F: FnOnce(&mut [u16], usize) -> Result<(), Refusal>>(
    bench: &mut Bench,
    kept: &mut Kept,
    n: u64,
    fill: F,
) -> Result<(), Problem>
    requires { F.IsAlwaysCallable fill }
{
    let n = n as usize;
    put_count(bench, kept.table.make(n, |out| fill(out, n)));
    Ok(())
}

fn nudge(bench: &mut Bench, kept: &mut Kept) -> Result<(), Problem> {
    let (i, v) = bench.last_numbers(Place::Any, Place::Short)?;
    put_done(
        bench,
        nudge::nudge(kept.table.items_mut(), i as usize, Density(short(v))),
    );
    Ok(())
}

// The table is read all the while, so its answers are filled into another buffer first.
fn bake(bench: &mut Bench, kept: &mut Kept) {
    let mut baked = Places::new([0; 65537]);
    let table = kept.table.items();
    let count = baked.make(65536, |room| rows::bake(table, room));
    if count.is_ok() {
        kept.table = baked;
    }
    put_count(bench, count);
}

// `yes` or `no`, and how many steps there are against it.
fn put_verdict(bench: &mut Bench, answer: bool, count: usize) {
    put_yes_no(bench, answer);
    bench.put_byte(b' ');
    bench.put_decimal(count as u64);
}

fn direction_of(name: Option<u64>) -> Result<Direction, Problem> {
    if name == name_of(b"rising").code {
        return Ok(Direction::Rising);
    }
    if name == name_of(b"falling").code {
        return Ok(Direction::Falling);
    }
    Err(Problem::NoSuchDirection)
}

fn monotonic(bench: &mut Bench, kept: &Kept) -> Result<(), Problem> {
    let direction = direction_of(bench.last_name()?)?;
    match monotonic::is_curve_monotonic(kept.table.items(), direction) {
        Ok(Monotonic::Yes(count)) => put_verdict(bench, true, count),
        Ok(Monotonic::No(count)) => put_verdict(bench, false, count),
        Err(why) => put_refused(bench, why),
    }
    Ok(())
}

fn degenerated(bench: &mut Bench, kept: &Kept) {
    match degeneration::is_curve_degenerated(kept.table.items()) {
        Ok(answer) => put_yes_no(bench, answer),
        Err(why) => put_refused(bench, why),
    }
}
