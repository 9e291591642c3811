// The svg file. Its user units are drives across and densities up, so that each point in it can be read: x is the
// drive, y is 65535 less the density.
//
// The curve's line goes through the lookup's answers at every 51st drive, both ends included: 1,286 points, about two
// to a pixel at the size that the file asks for. Where the curve leaves the densities at a span's two ends, the points
// of its lowest and of its highest density stand between them, so that no spike is lost. A table of at most 64 entries
// has a ring at each entry too.
//
// Where a span falls, the line is drawn thick and red, since a curve that falls is seldom meant to. So the line is cut
// into stretches, each from the point where the one before it ends.
ghost use Rattle.std.specs.Prelude.{◌+◌, ◌*◌, ◌≤◌, ◌<◌, ◌≡◌, true, length};
ghost use Rattle.placing.specs.Falls.{Falls, Tells};
ghost use Rattle.picture.specs.Svg.{rings_of, pieces_of, Filled};
ghost use Rattle.picture.specs.Title.{is_shown};

use crate::text::Writer;
use crate::title::is_shown;
use curve::inside::ramp;
use placing::inside::{Point, Reach, falls_over, point_at, reach_over};
use placing::place::{across, down};
use table::inside::wide;
use table::{Density, Drive, spanned};

// The head's pieces; a piece for each span of drives; one for the last point; one for each ring; and the end.
const FIRST_SPAN: usize = 11;

const LAST_POINT: usize = 1296;

const FIRST_RING: usize = 1297;

// The drives of a span: 1,285 spans make 65535.
const SPAN: usize = 51;

// The head's texts that are the same in every file. A line that falls has round ends, so that a single span of it,
// which is shorter than a pixel, is seen as a dot.
const OPEN: [u8; 111] = *b"<svg xmlns=\"http://www.w3.org/2000/svg\" width=\"768\" height=\"768\" \
    viewBox=\"-8000 -4800 76800 76800\" role=\"img\">\n";

const STYLE: [u8; 383] = *b"<style>\n.page{fill:#fff}\ntext{fill:#1b1b1b;font:1700px sans-serif}\n\
    .grid{stroke:#d4d4d4;stroke-width:80}\n.axis{fill:none;stroke:#1b1b1b;stroke-width:140}\n\
    .curve{fill:none;stroke:#0057b8;stroke-width:260;stroke-linejoin:round}\n\
    .falls{fill:none;stroke:#c00;stroke-width:520;stroke-linejoin:round;stroke-linecap:round}\n.note{fill:#c00}\n\
    .entry{fill:#fff;stroke:#0057b8;stroke-width:180}\n";

const DARK_STYLE: [u8; 232] =
    *b"@media (prefers-color-scheme:dark){\n.page{fill:#14161a}\ntext{fill:#ececec}\n\
    .grid{stroke:#3a3f47}\n.axis{stroke:#ececec}\n.curve{stroke:#6cb6ff}\n\
    .falls{stroke:#ff7b72}\n.note{fill:#ff7b72}\n\
    .entry{fill:#14161a;stroke:#6cb6ff}\n}\n</style>\n";

// A page of its own, since a viewer's may be of any colour. It is white where styles are left out.
const PAGE: [u8; 82] =
    *b"<rect class=\"page\" fill=\"#fff\" x=\"-8000\" y=\"-4800\" width=\"76800\" height=\"76800\"/>\n";

const AXES: [u8; 160] = *b"<path class=\"axis\" d=\"M0,0V65535H65535\"/>\n\
    <text x=\"32768\" y=\"70700\" text-anchor=\"middle\">drive</text>\n\
    <text x=\"0\" y=\"-2000\" text-anchor=\"middle\">density</text>\n";

const LEGEND: [u8; 83] =
    *b"<text class=\"note\" x=\"0\" y=\"70700\" text-anchor=\"start\">thick: here it falls</text>\n";

#[tactic(auto, unfolding(crate::specs::Svg::rings_of))]
fn rings(entries: usize) -> usize
    ensures { (result ≡ rings_of entries) × (result ≤ 64) × (result ≤ entries) }
{
    if entries <= 64 { entries } else { 0 }
}

pub fn pieces(entries: usize) -> usize
    ensures { result ≡ pieces_of entries }
{
    FIRST_RING + rings(entries) + 1
}

fn put_title(w: &mut Writer, title: &[u8])
    requires { (w.old.end ≤ 200) × (is_shown title.now ≡ true) }
    ensures { (w.old.end ≤ w.new.end) × (w.new.end ≤ w.old.end + 300) }
{
    w.put_escaped(title);
}

// The file's opening tag, and its title: the caller's, or one that fits every curve. Each piece asks for an empty
// writer: a type for that would hold the writer alone.
fn put_open(w: &mut Writer, title: &[u8])
    requires { w.old.end ≡ 0 }
    ensures { 1 ≤ w.new.end }
{
    w.put(&OPEN);
    if !is_shown(title) {
        w.put(b"<title>Tone curve</title>\n");
        return;
    }
    w.put(b"<title>");
    put_title(w, title);
    w.put(b"</title>\n");
}

fn put_description(w: &mut Writer, entries: usize)
    requires { (w.old.end ≡ 0) × (entries ≤ 65536) }
    ensures { 1 ≤ w.new.end }
{
    w.put_with(b"<desc>Entries of the table: ", entries);
    w.put(
        b". In the curve's line x is the drive, y is 65535 less the density. \
        Where the line is thick, the density falls as the drive rises.</desc>\n",
    );
}

// How wide a letter may be drawn, in thirds of its size: most small ones take two, and no other byte of a character
// than the first counts.
fn letter_width(b: u8) -> usize
    ensures { result ≤ 3 }
{
    match b {
        b'm' | b'w' => 3,
        b' ' | b','..=b':' | b'a'..=b'z' => 2,
        0x80..=0xBF => 0,
        _ => 3,
    }
}

fn title_width(title: &[u8]) -> usize
    requires { is_shown title.now ≡ true }
{
    let mut n = 0;
    for b in title {
        n += letter_width(*b);
    }
    n
}

// The size of a title's letters: as large as the scales' where it has room between the word density and the right edge,
// and else as much smaller as it takes.
fn letter_size(width: usize) -> usize
    ensures { result ≤ 1700 }
{
    match width {
        0..=100 => 1700,
        101..=114 => 1500,
        115..=131 => 1300,
        132..=155 => 1100,
        _ => 950,
    }
}

// The title where it is drawn.
fn put_heading(w: &mut Writer, title: &[u8])
    requires { (w.old.end ≤ 100) × (is_shown title.now ≡ true) }
    ensures { 1 ≤ w.new.end }
{
    w.put_with(
        b"<text x=\"32768\" y=\"-2000\" text-anchor=\"middle\" style=\"font-size:",
        letter_size(title_width(title)),
    );
    w.put(b"px\">");
    put_title(w, title);
    w.put(b"</text>\n");
}

// The page, and the title on it.
fn put_page(w: &mut Writer, title: &[u8])
    requires { w.old.end ≡ 0 }
    ensures { 1 ≤ w.new.end }
{
    w.put(&PAGE);
    if is_shown(title) {
        put_heading(w, title);
    }
}

// A line across the drawing at a drive, and the number below it.
fn put_drive_tick(w: &mut Writer, p: Drive)
    requires { w.old.end ≡ 0 }
    ensures { w.new.end ≤ 150 }
{
    w.put_with(b"<path class=\"grid\" d=\"M", across(p));
    w.put_with(b",0V65535\"/>\n<text x=\"", across(p));
    w.put_with(b"\" y=\"68100\" text-anchor=\"middle\">", wide(p.0));
    w.put(b"</text>\n");
}

// The same at a density, with the number left of it.
fn put_density_tick(w: &mut Writer, d: Density)
    requires { w.old.end ≤ 150 }
    ensures { 1 ≤ w.new.end }
{
    w.put_with(b"<path class=\"grid\" d=\"M0,", down(d));
    w.put_with(b"H65535\"/>\n<text x=\"-1100\" y=\"", down(d));
    w.put_with(b"\" dy=\".35em\" text-anchor=\"end\">", wide(d.0));
    w.put(b"</text>\n");
}

// A number on both scales.
fn put_tick(w: &mut Writer, value: u16)
    requires { w.old.end ≡ 0 }
    ensures { 1 ≤ w.new.end }
{
    put_drive_tick(w, Drive(value));
    put_density_tick(w, Density(value));
}

// Whether a span falls. `k < 1285` stays a precondition: a type would hold the number of one piece alone.
fn span_falls(table: &[u16], k: usize) -> bool
    requires { k < 1285 }
    ensures { Tells result (Falls table.now (k * 51) (k * 51 + 51)) }
{
    let from = k * SPAN;
    falls_over(table, from, from + SPAN)
}

// The start of a line through spans that fall, or through spans that do not.
fn put_line(w: &mut Writer, falls: bool)
    requires { w.old.end ≤ 300 }
    ensures { w.new.end ≡ w.old.end + 32 }
{
    if falls {
        w.put(b"<polyline class=\"falls\" points=\"");
        return;
    }
    w.put(b"<polyline class=\"curve\" points=\"");
}

// The axes, how many entries the table has, and the start of the curve's first line.
fn put_curve_open(w: &mut Writer, table: &[u16])
    requires { (w.old.end ≡ 0) × (length table.now ≤ 65536) }
    ensures { 1 ≤ w.new.end }
{
    w.put(&AXES);
    w.put_with(
        b"<text x=\"65535\" y=\"70700\" text-anchor=\"end\">entries: ",
        table.len(),
    );
    w.put(b"</text>\n");
    put_line(w, span_falls(table, 0));
}

// The head, with five numbers on both scales.
fn put_head(w: &mut Writer, table: &[u16], title: &[u8], k: usize)
    requires { (w.old.end ≡ 0) × (length table.now ≤ 65536) }
    ensures { 1 ≤ w.new.end }
{
    match k {
        0 => put_open(w, title),
        1 => put_description(w, table.len()),
        2 => w.put(&STYLE),
        3 => w.put(&DARK_STYLE),
        4 => put_page(w, title),
        5 => put_tick(w, 0),
        6 => put_tick(w, 16384),
        7 => put_tick(w, 32768),
        8 => put_tick(w, 49152),
        9 => put_tick(w, 65535),
        _ => put_curve_open(w, table),
    }
}

// A point of the curve's line, after a blank or a new line.
fn put_point(w: &mut Writer, before: u8, x: Point)
    requires { w.old.end ≤ 500 }
    ensures { (w.old.end < w.new.end) × (w.new.end ≤ w.old.end + 12) }
{
    w.put_byte(before);
    w.put_number(across(x.drive));
    w.put_with(b",", down(x.density));
}

// Ten spans stand on a line of the file.
fn before_span(k: usize) -> u8 {
    if k % 10 == 0 {
        return b'\n';
    }
    b' '
}

// Whether d is below both or above both.
fn outside(d: Density, a: Density, b: Density) -> bool {
    if d.0 < a.0 {
        return d.0 < b.0;
    }
    a.0 < d.0 && b.0 < d.0
}

// A point within a span, where it is outside the densities of the span's ends.
fn put_outside(w: &mut Writer, x: Point, first: Density, last: Density)
    requires { w.old.end ≤ 500 }
    ensures { (w.old.end ≤ w.new.end) × (w.new.end ≤ w.old.end + 12) }
{
    if outside(x.density, first, last) {
        put_point(w, b' ', x);
    }
}

// The lowest and the highest point of a span, the earlier one first.
fn put_between(w: &mut Writer, r: Reach, first: Density, last: Density)
    requires { (1 ≤ w.old.end) × (w.old.end ≤ 60) }
    ensures { 1 ≤ w.new.end }
{
    let valley = r.valley;
    let peak = r.peak;
    if valley.drive.0 < peak.drive.0 {
        put_outside(w, valley, first, last);
        put_outside(w, peak, first, last);
        return;
    }
    put_outside(w, peak, first, last);
    put_outside(w, valley, first, last);
}

// Whether span k is drawn otherwise than the one before it. The first span has its line from the head.
fn turns(table: &[u16], k: usize, falls: bool) -> bool
    requires { k < 1285 }
{
    if k == 0 {
        return false;
    }
    if span_falls(table, k - 1) {
        return !falls;
    }
    falls
}

// Where span k is drawn otherwise, the line ends at the span's first point, and another begins there.
fn put_turn(w: &mut Writer, table: &[u16], k: usize, first: Point)
    requires { (w.old.end ≤ 12) × (k < 1285) }
    ensures { (w.old.end ≤ w.new.end) × (w.new.end ≤ w.old.end + 48) }
{
    let falls = span_falls(table, k);
    if !turns(table, k, falls) {
        return;
    }
    w.put(b"\"/>\n");
    put_line(w, falls);
    put_point(w, b'\n', first);
}

// A span's first point, and those between its ends.
fn put_span(w: &mut Writer, table: &[u16], k: usize)
    requires { (w.old.end ≡ 0) × (k < 1285) }
    ensures { 1 ≤ w.new.end }
{
    let from = k * SPAN;
    let to = from + SPAN;
    let first = point_at(table, from);
    let last = point_at(table, to);
    put_point(w, before_span(k), first);
    put_turn(w, table, k, first);
    put_between(w, reach_over(table, from, to), first.density, last.density);
}

fn put_last_point(w: &mut Writer, table: &[u16])
    requires { w.old.end ≡ 0 }
    ensures { 1 ≤ w.new.end }
{
    put_point(w, b' ', point_at(table, 65535));
    w.put(b"\"/>\n");
}

// The drive nearest to entry i, which is what the straight curve has there.
fn entry_drive(entries: usize, i: usize) -> Drive
    requires { i < entries }
{
    if !spanned(entries) {
        return Drive(0);
    }
    Drive(ramp(entries, i))
}

fn put_ring(w: &mut Writer, table: &[u16], i: usize)
    requires { (w.old.end ≡ 0) × (i < length table.now) }
    ensures { 1 ≤ w.new.end }
{
    let p = entry_drive(table.len(), i);
    let d = Density(table[i]);
    w.put_with(b"<circle class=\"entry\" cx=\"", across(p));
    w.put_with(b"\" cy=\"", down(d));
    w.put(b"\" r=\"500\"/>\n");
}

// The end, and what a thick line says where there is one.
fn put_close(w: &mut Writer, table: &[u16])
    requires { w.old.end ≡ 0 }
    ensures { 1 ≤ w.new.end }
{
    if falls_over(table, 0, 65535) {
        w.put(&LEGEND);
    }
    w.put(b"</svg>\n");
}

fn put_piece(w: &mut Writer, table: &[u16], title: &[u8], k: usize)
    requires { (w.old.end ≡ 0) × (length table.now ≤ 65536) }
    ensures { 1 ≤ w.new.end }
{
    if k < FIRST_SPAN {
        put_head(w, table, title, k);
        return;
    }
    if k < LAST_POINT {
        put_span(w, table, k - FIRST_SPAN);
        return;
    }
    if k == LAST_POINT {
        put_last_point(w, table);
        return;
    }
    if k - FIRST_RING < rings(table.len()) {
        put_ring(w, table, k - FIRST_RING);
        return;
    }
    put_close(w, table);
}

pub fn piece(table: &[u16], title: &[u8], k: usize, out: &mut [u8; 512]) -> usize
    requires { length table.now ≤ 65536 }
    ensures { Filled result }
{
    let mut w = Writer::new(out);
    put_piece(&mut w, table, title, k);
    w.end
}
