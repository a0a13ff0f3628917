// Reports and refusals in words.
use crate::{outline, print, show};
use messages::Subject;
use position::Extent;
use std::io::{self, Write};
use words::{REPORT_WIDTH, Refusal, Refused, Report, report, token};

// A place in a script, as `line:column`.
fn print_position(out: &mut impl Write, text: &[u8], offset: usize) -> io::Result<()> {
    let p = position::locate(text, offset);
    write!(out, "{}:{}", p.line, p.column)
}

// A character in quotes, as the script has it from an offset to another, with its number where it is not ASCII; by its number alone
// where it is not seen.
fn print_character(
    out: &mut impl Write,
    text: &[u8],
    c: u32,
    start: usize,
    end: usize,
) -> io::Result<()> {
    if c < 0x20 || messages::is_control(c) {
        return print::code_point(out, c);
    }
    out.write_all(b"'")?;
    print::part(out, text, start, end)?;
    out.write_all(b"'")?;
    if 0x7F < c {
        out.write_all(b" (")?;
        print::code_point(out, c)?;
        out.write_all(b")")?;
    }
    Ok(())
}

// The character that a report covers.
fn print_covered(out: &mut impl Write, text: &[u8], r: Report) -> io::Result<()> {
    let start = r.start as usize;
    if let Some(covered) = utf8::character_at(text, start) {
        print_character(out, text, covered.code_point, start, r.end as usize)?;
    }
    Ok(())
}

// Where the character that a report names starts: an escape's behind its backslash.
fn character_start(r: Report) -> usize {
    let start = r.start as usize;
    if r.kind == report::UNKNOWN_ESCAPE {
        return start + 1;
    }
    start
}

fn print_subject(out: &mut impl Write, text: &[u8], r: Report) -> io::Result<()> {
    match messages::subject_of(r.kind, r.detail) {
        Some(Subject::Token(kind)) => print::token(out, kind),
        Some(Subject::Character(c)) => print_character(
            out,
            text,
            c,
            character_start(r),
            r.end as usize,
        ),
        Some(Subject::Covered) => print_covered(out, text, r),
        None => Ok(()),
    }
}

// `file:line:column: `
fn print_head(out: &mut impl Write, name: &[u8], text: &[u8], offset: usize) -> io::Result<()> {
    show::echo(out, name, 0, name.len())?;
    out.write_all(b":")?;
    print_position(out, text, offset)?;
    out.write_all(b": ")
}

// Where what is written ends: behind the last byte that is no blank.
fn written_end(text: &[u8]) -> usize {
    for at in (0..text.len()).rev() {
        if !scan::is_blank(text[at]) {
            return at + 1;
        }
    }
    0
}

// Where a report is shown: an end that comes too early is shown behind what is written, not on an empty line past it.
fn shown_extent(text: &[u8], r: Report) -> Extent {
    if r.kind == report::UNEXPECTED && r.detail == token::EOF {
        let end = written_end(text);
        return Extent { start: end, end };
    }
    Extent {
        start: r.start as usize,
        end: r.end as usize,
    }
}

fn print_report(out: &mut impl Write, name: &[u8], text: &[u8], r: Report) -> io::Result<()> {
    let shown = shown_extent(text, r);
    print_head(out, name, text, shown.start)?;
    print_subject(out, text, r)?;
    print::sentence(out, messages::sentence_of(r.kind, r.detail))?;
    out.write_all(b"\n")?;
    show::place(out, text, shown.start, shown.end)
}

// So many reports, in the order in which they were made.
pub(crate) fn list(
    out: &mut impl Write,
    name: &[u8],
    text: &[u8],
    reports: &[u32],
    count: usize,
) -> io::Result<()> {
    for words in reports.as_chunks::<REPORT_WIDTH>().0.iter().take(count) {
        print_report(out, name, text, words::report_of(*words))?;
    }
    Ok(())
}

pub(crate) fn summary(out: &mut impl Write, name: &[u8], count: usize) -> io::Result<()> {
    show::echo(out, name, 0, name.len())?;
    match count {
        0 => out.write_all(b": no mistakes\n"),
        1 => out.write_all(b": 1 mistake\n"),
        _ => writeln!(out, ": {count} mistakes"),
    }
}

// Where a token starts. A refusal leaves no tokens, so the text is lexed once more.
fn start_of_token(text: &[u8], tokens: &mut [u32], token: u32) -> usize {
    match plank::lex(text, tokens) {
        Ok(_) => outline::token_start(tokens, token),
        Err(_) => 0,
    }
}

// The place of a refusal: the number of a byte or a token, and where that is.
fn print_place(
    out: &mut impl Write,
    text: &[u8],
    unit: &[u8],
    number: u32,
    offset: usize,
) -> io::Result<()> {
    out.write_all(unit)?;
    write!(out, "{number} (")?;
    print_position(out, text, offset)?;
    out.write_all(b")\n")
}

fn print_refusal_place(
    out: &mut impl Write,
    text: &[u8],
    tokens: &mut [u32],
    refused: Refused,
) -> io::Result<()> {
    let place = refused.place;
    match refused.refusal {
        Refusal::NotUtf8Start | Refusal::NotUtf8Later | Refusal::NotUtf8Cut => {
            print_place(out, text, b" at byte ", place, place as usize)
        }
        Refusal::TooLong => out.write_all(b"\n"),
        _ => {
            let start = start_of_token(text, tokens, place);
            print_place(out, text, b" at token ", place, start)
        }
    }
}

pub(crate) fn refused(
    out: &mut impl Write,
    name: &[u8],
    text: &[u8],
    tokens: &mut [u32],
    refused: Refused,
) -> io::Result<()> {
    show::echo(out, name, 0, name.len())?;
    out.write_all(b": refused: ")?;
    print::refusal(out, refused.number())?;
    print_refusal_place(out, text, tokens, refused)
}
