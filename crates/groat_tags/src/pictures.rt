// The table drawn: as lines of text, and as a picture in a file.
use crate::files::write_file;
use groat_answers::{Kept, put_refused};
use groat_lines::{Bench, Problem, first};
use std::fs::File;
use std::io::{self, Write};
use table::Refusal;

pub fn answer(bench: &mut Bench, kept: &Kept) -> Result<(), Problem> {
    if bench.at_row(
        b"plot: the table drawn in text",
        b"answer: 22 lines\nrefused: 1",
    )? {
        plot(bench, kept.table.items());
    }
    if bench.at_row(
        b"svg PATH TITLE..: the table drawn as a picture",
        b"words: PATH with no spaces; TITLE of at most 60 characters, or none\nanswer: ok N, N the bytes\nrefused: 1",
    )? {
        return svg(bench, kept.table.items());
    }
    Ok(())
}

fn plot(bench: &mut Bench, table: &[u16]) {
    if !table::sized(table.len()) {
        return put_refused(bench, Refusal::TableLength);
    }
    for line in 0..picture::plot_lines() {
        if line > 0 {
            bench.put_byte(b'\n');
        }
        let mut out = [0; 512];
        let n = picture::plot_line(table, line, &mut out);
        bench.put(first(&out, n));
    }
}

// Writes a picture, and gives how many bytes it has.
fn draw(file: &mut File, table: &[u16], title: &[u8]) -> io::Result<usize> {
    let mut bytes: usize = 0;
    for piece in 0..picture::svg_pieces(table) {
        let mut out = [0; 512];
        let n = picture::svg_piece(table, title, piece, &mut out);
        file.write_all(first(&out, n))?;
        bytes = bytes.saturating_add(n);
    }
    Ok(bytes)
}

// `svg PATH TITLE..`.
fn svg(bench: &mut Bench, table: &[u16]) -> Result<(), Problem> {
    let mut path_room = [0; 4096];
    let mut title_room = [0; 4096];
    let path = bench.read_path(&mut path_room)?;
    let title = bench.last_words(&mut title_room)?;
    if !picture::is_title(title) {
        return Err(Problem::BadTitle);
    }
    if !table::sized(table.len()) {
        put_refused(bench, Refusal::TableLength);
        return Ok(());
    }
    write_file(bench, path, |file| draw(file, table, title))
}
