// A curve's picture as text: a plot for a terminal, and the pieces of an svg file for a browser. Drive runs across and
// density up. Nothing is read or written here: the caller lends a buffer and sends it on.
#![tactic(auto)]

ghost use Rattle.std.specs.Prelude.{◌≡◌, length};
ghost use Rattle.picture.specs.Svg.{pieces_of};
ghost use Rattle.picture.specs.Title.{is_title};
ghost use Rattle.picture.specs.Promises.{Drawn, LinePromise, PiecePromise};

use table::sized;

mod plot;
mod svg;
mod text;
mod title;

// How many parts a picture of n parts has: none where the table has no or more than 65,536 entries.
fn drawn(table: &[u16], n: usize) -> usize
    ensures { Drawn table.now n result }
{
    if !sized(table.len()) {
        return 0;
    }
    n
}

// How many lines a plot has: its rows, the axis, and the scale below it.
pub fn plot_lines() -> usize
    ensures { result ≡ 22 }
{
    plot::LINES
}

// Writes a line of the table's plot, with no newline, and gives its length. A line that does not exist, and any line of
// a table of no or more than 65,536 entries, has length 0.
pub fn plot_line(table: &[u16], line: usize, out: &mut [u8; 512]) -> usize
    ensures { LinePromise table.now line result }
{
    if drawn(table, plot::LINES) <= line {
        return 0;
    }
    plot::line(table, line, out)
}

// How many pieces the table's svg file has: 0 for a table of no or more than 65,536 entries.
pub fn svg_pieces(table: &[u16]) -> usize
    ensures { Drawn table.now (pieces_of (length table.now)) result }
{
    drawn(table, svg::pieces(table.len()))
}

// Whether the bytes are a title: well-formed UTF-8 of at most 60 characters, none of them a control character, U+FFFE
// or U+FFFF.
pub fn is_title(title: &[u8]) -> bool
    ensures { result ≡ is_title title.now }
{
    title::suits(title)
}

// Writes piece k of the table's svg file and gives its length. The pieces from 0 on, one after the other, are the file.
// A piece that does not exist has length 0. The file has the title as its name and draws it. With an empty one, or with
// bytes that are no title, it is named Tone curve and draws none: so no caller has to ask `is_title` first, and every
// file is well-formed XML.
pub fn svg_piece(table: &[u16], title: &[u8], k: usize, out: &mut [u8; 512]) -> usize
    ensures { PiecePromise table.now k result }
{
    if svg_pieces(table) <= k {
        return 0;
    }
    svg::piece(table, title, k, out)
}
