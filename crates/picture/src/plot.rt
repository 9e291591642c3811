// The plot: 20 rows of 64 columns, drive across and density up.
//
// A row is a twentieth of the densities, and a column 1,024 drives. In each column `*` stands at the row of the density
// at the column's own drive, floor(65535c/63) in column c, so that the first column shows drive 0 and the last drive
// 65535. `:` stands in every other row that the curve passes on its way to the next column, unless a `*` stands right
// beside it there. So a step is a line, and no drive's density goes undrawn.
// A number of the scales stands at the row or the column where that density or drive is drawn.
ghost use Rattle.std.specs.Prelude.{◌≡◌, ◌-◌, ◌≤◌, ◌<◌};
ghost use Rattle.placing.specs.Falls.{Tells};
ghost use Rattle.picture.specs.Plot.{star_row, right_of, Passed, Marked};

use crate::text::Writer;
use placing::inside::{drive_of, reach_over};
use placing::place::{column_of, density_at, row_of};
use table::{Density, Drive};

const ROWS: usize = 20;

const COLUMNS: usize = 64;

// The rows, the axis and the scale.
pub const LINES: usize = ROWS + 2;

// What stands left of the columns.
const MARGIN: usize = 9;

// The row of a column's star. `column < 64` stays a precondition: a type would hold the number of one `for` alone.
fn star_row(table: &[u16], column: usize) -> usize
    requires { column < 64 }
    ensures { result ≡ star_row table.now column }
{
    row_of(density_at(table, drive_of(column)))
}

// The columns beside a column. The first and the last stand for the one that they lack.
fn left_of(column: usize) -> usize
    ensures { result ≡ column - 1 }
{
    column.saturating_sub(1)
}

fn right_of(column: usize) -> usize
    requires { column < 64 }
    ensures { (result ≡ right_of column) × (result < 64) }
{
    (column + 1).min(63)
}

// Whether the curve passes a row in a column, which goes up to the next one's first drive; the last one goes to 65535.
fn passes(table: &[u16], column: usize, row: usize) -> bool
    requires { column < 64 }
    ensures { Tells result (Passed table.now column row) }
{
    let first = column * 1024;
    let r = reach_over(table, first, first + 1024 - column / 63);
    let low = r.valley;
    let high = r.peak;
    if row < row_of(high.density) {
        return false;
    }
    row <= row_of(low.density)
}

// What stands in a column at a row.
fn mark(table: &[u16], column: usize, row: usize) -> u8
    requires { column < 64 }
    ensures { Marked table.now column row result }
{
    if row == star_row(table, column) {
        return b'*';
    }
    if row == star_row(table, left_of(column)) {
        return b' ';
    }
    if row == star_row(table, right_of(column)) {
        return b' ';
    }
    if passes(table, column, row) {
        return b':';
    }
    b' '
}

// What stands left of a row: the density whose row it is, where the scale names one.
fn margin(row: usize) -> [u8; 9] {
    if row == row_of(Density(65535)) {
        return *b"  65535 |";
    }
    if row == row_of(Density(49152)) {
        return *b"density |";
    }
    if row == row_of(Density(32768)) {
        return *b"  32768 |";
    }
    if row == row_of(Density(0)) {
        return *b"      0 |";
    }
    *b"        |"
}

// A line ends after its last mark.
fn end_after(end: usize, after: usize, b: u8) -> usize
    requires after_inside { (1 ≤ after) × (after ≤ 128) }
    requires end_inside { (1 ≤ end) × (end ≤ 128) }
    ensures { (1 ≤ result) × (result ≤ 128) }
{
    if b == b' ' {
        return end;
    }
    after
}

fn row_line(table: &[u16], row: usize, out: &mut [u8; 512]) -> usize
    ensures { (1 ≤ result) × (result ≤ 128) }
{
    let mut w = Writer::new(out);
    w.put(&margin(row));
    let mut end = w.end;
    for column in 0..COLUMNS {
        let b = mark(table, column, row);
        w.put_byte(b);
        end = end_after(end, w.end, b);
    }
    end
}

// The axis, with a tick below each column of which the scale names a drive.
fn axis_line(out: &mut [u8; 512]) -> usize
    ensures { result ≡ 73 }
{
    let mut axis = *b"        +----------------------------------------------------------------";
    axis[MARGIN + column_of(Drive(32768))] = b'+';
    axis[MARGIN + column_of(Drive(65535))] = b'+';
    let mut w = Writer::new(out);
    w.put(&axis);
    w.end
}

// The drives that the scale names, each below its column.
fn scale_line(out: &mut [u8; 512]) -> usize
    ensures { (1 ≤ result) × (result ≤ 128) }
{
    let mut w = Writer::new(out);
    w.put(b"         0             drive           32768                        65535");
    w.end
}

pub fn line(table: &[u16], row: usize, out: &mut [u8; 512]) -> usize
    requires { row < 22 }
    ensures { (1 ≤ result) × (result ≤ 128) }
{
    if row < ROWS {
        return row_line(table, row, out);
    }
    if row == ROWS {
        return axis_line(out);
    }
    scale_line(out)
}
