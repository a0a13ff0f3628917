// What is written to standard output.
use messages::tables;
use std::io::{self, Write};

// A character's number as Unicode writes it: `U+` and at least four hexadecimal digits.
pub(crate) fn code_point(out: &mut impl Write, c: u32) -> io::Result<()> {
    write!(out, "U+{c:04X}")
}

// A part of a text as it is; nothing where it is none.
pub(crate) fn part(out: &mut impl Write, text: &[u8], start: usize, end: usize) -> io::Result<()> {
    match text.get(start..end) {
        Some(part) => out.write_all(part),
        None => Ok(()),
    }
}

// A text of a table, by its line.
fn entry(out: &mut impl Write, table: &[u8], line: u32) -> io::Result<()> {
    let extent = position::line_behind(table, line as usize);
    part(out, table, extent.start, extent.end)
}

pub(crate) fn sentence(out: &mut impl Write, line: u32) -> io::Result<()> {
    entry(out, &tables::SENTENCES, line)
}

pub(crate) fn token(out: &mut impl Write, kind: u32) -> io::Result<()> {
    entry(out, &tables::TOKENS, kind)
}

pub(crate) fn node(out: &mut impl Write, kind: u32) -> io::Result<()> {
    entry(out, &tables::NODES, kind)
}

pub(crate) fn refusal(out: &mut impl Write, number: u32) -> io::Result<()> {
    entry(out, &tables::REFUSALS, number)
}
