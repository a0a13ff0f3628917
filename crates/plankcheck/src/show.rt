// Parts of a script as people see them: control characters by name, so that no script can drive a terminal, and carets under a place.
use crate::print;
use std::io::{self, Write};
use utf8::Character;

// The most bytes that are shown of a line, and of those the most before the place that the line is shown for.
const WIDEST: usize = 160;

const BEFORE: usize = 100;

// The columns of a control character, which is shown as `<U+001B>`.
const NAMED: usize = 8;

// The room for the marks of a line: those of its bytes and of a character that is not cut, and a caret.
const ROOM: usize = 1312;

// The first offset from one on where a character begins, or the text's end.
fn next_start(text: &[u8], from: usize) -> usize {
    for at in from..text.len() {
        if position::is_start(text[at]) {
            return at;
        }
    }
    from.max(text.len())
}

// Where the shown part of a line starts. A place lies in its line.
fn part_start(text: &[u8], line_start: usize, place: usize) -> usize {
    if place.saturating_sub(line_start) <= BEFORE {
        return line_start;
    }
    next_start(text, place - BEFORE)
}

// Where it ends.
fn part_end(text: &[u8], start: usize, line_end: usize) -> usize {
    if line_end.saturating_sub(start) <= WIDEST {
        return line_end.max(start);
    }
    next_start(text, start + WIDEST)
}

// The control character at an offset; nothing where another character is.
fn control_at(text: &[u8], at: usize) -> Option<Character> {
    utf8::character_at(text, at).filter(|c| messages::is_control(c.code_point))
}

// Whether a control character belongs to a line's end: a newline, or a carriage return right before one or before the text's end.
fn ends_line(text: &[u8], at: usize) -> bool {
    matches!(
        &text[at.min(text.len())..],
        [] | [b'\n', ..] | [b'\r'] | [b'\r', b'\n', ..]
    )
}

// A control character by its name; a blank for one that belongs to a line's end.
fn print_control(out: &mut impl Write, text: &[u8], at: usize, c: u32) -> io::Result<()> {
    if ends_line(text, at) {
        return out.write_all(b" ");
    }
    out.write_all(b"<")?;
    print::code_point(out, c)?;
    out.write_all(b">")
}

// A part of a text on one line.
pub(crate) fn echo(out: &mut impl Write, text: &[u8], start: usize, end: usize) -> io::Result<()> {
    let stop = end.min(text.len());
    let mut shown = start;
    for at in start..stop {
        if let Some(control) = control_at(text, at) {
            print::part(out, text, shown, at)?;
            print_control(out, text, at, control.code_point)?;
            shown = next_start(text, at + 1);
        }
    }
    print::part(out, text, shown, stop)
}

// A part of a text on one line, or as much of it as is shown.
pub(crate) fn excerpt(
    out: &mut impl Write,
    text: &[u8],
    start: usize,
    end: usize,
) -> io::Result<()> {
    let stop = part_end(text, start, end);
    echo(out, text, start, stop)?;
    print_if(out, stop < end, b"...")
}

// The columns of the character that begins at an offset; none where none does.
fn columns_at(text: &[u8], at: usize) -> usize {
    if text.len() <= at || !position::is_start(text[at]) {
        return 0;
    }
    match control_at(text, at) {
        Some(_) => { if ends_line(text, at) { 1 } else { NAMED } }
        None => 1,
    }
}

// What stands under a character: a caret from the place on, and what is as wide before it.
fn mark(byte: u8, is_inside: bool) -> u8 {
    match byte {
        _ if is_inside => b'^',
        b'\t' => b'\t',
        _ => b' ',
    }
}

// Where the carets of a place end, on a line that ends at `end`: behind its first character at least.
fn carets_end(end: usize, place: usize, place_end: usize) -> usize {
    if end <= place {
        return end;
    }
    if place_end <= place {
        return place + 1;
    }
    end.min(place_end)
}

// Carets under the characters of a place, at least one, where the line is shown from `start` to `end`.
fn carets(
    out: &mut impl Write,
    text: &[u8],
    start: usize,
    end: usize,
    place: usize,
    place_end: usize,
) -> io::Result<()> {
    // A line is written at once: what is written here has no buffer.
    let mut line = [b'^'; ROOM];
    let mut n = 0usize;
    let stop = carets_end(end, place, place_end).min(text.len());
    for at in start..stop {
        let next = n.saturating_add(columns_at(text, at)).min(ROOM - 1);
        line[n..next].fill(mark(text[at], place <= at));
        n = next;
    }
    // At the line's end there is no character, and a caret stands behind the last one.
    let marked = if end <= place { n + 1 } else { n };
    out.write_all(&line[..marked])
}

// What shows that a line is cut, or keeps the carets below it in their place.
fn print_if(out: &mut impl Write, is_cut: bool, sign: &[u8]) -> io::Result<()> {
    if is_cut {
        out.write_all(sign)?;
    }
    Ok(())
}

// The shown part of a line, from `start` to `end`, with what shows that it is cut.
fn print_part(
    out: &mut impl Write,
    text: &[u8],
    is_begun: bool,
    start: usize,
    end: usize,
    is_cut: bool,
) -> io::Result<()> {
    print_if(out, is_begun, b"...")?;
    echo(out, text, start, end)?;
    print_if(out, is_cut, b"...")?;
    out.write_all(b"\n")
}

// The line of a place, or as much as is shown of it, with carets under the place.
pub(crate) fn place(
    out: &mut impl Write,
    text: &[u8],
    place: usize,
    place_end: usize,
) -> io::Result<()> {
    let line = position::source_line(text, place);
    let start = part_start(text, line.start, place);
    let end = part_end(text, start, line.end);
    let is_begun = line.start < start;
    print_part(out, text, is_begun, start, end, end < line.end)?;
    print_if(out, is_begun, b"   ")?;
    carets(out, text, start, end, place, place_end)?;
    out.write_all(b"\n")
}
