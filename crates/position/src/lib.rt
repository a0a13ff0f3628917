// Where an offset of a text is, as people count: its line and column, both from 1, and where that line lies.
#![tactic(auto)]

ghost use Rattle.std.specs.Prelude.{◌≡◌, ◌+◌, ◌^◌, ◌≤◌, ◌<◌, position, reverse, length};
ghost use Rattle.position.specs.Position.{is_newline, is_start, position_in, position_of, line_start, line_end, line_in, mark_length, source_line, behind, line_behind};
ghost use Rattle.position.specs.Laws.{next};

#[derive(Clone, Copy)]
pub struct Position {
    pub line: usize,
    pub column: usize,
}

// A part of a text: its first offset, and the one behind its last.
#[derive(Clone, Copy)]
pub struct Extent {
    pub start: usize,
    pub end: usize,
}

const NEWLINE: u8 = 10;

// Whether a byte begins a character, as all do but the later bytes of a sequence of UTF-8.
#[tactic(auto, using(std::proofs::lemmas::Bool::Decides::nat_tests))]
pub fn is_start(byte: u8) -> bool
    ensures { result ≡ is_start byte }
{
    byte < 128 || 191 < byte
}

// The position behind a byte.
#[tactic(auto, using(std::proofs::lemmas::Bool::Decides::nat_tests), unfolding(crate::specs::Laws::next))]
fn past(p: Position, byte: u8) -> Position
    requires { (p.line + 1 < 2 ^ 64) × (p.column + 1 < 2 ^ 64) }
    ensures { result ≡ next p byte }
{
    if byte == NEWLINE {
        Position {
            line: p.line + 1,
            column: 1,
        }
    } else if is_start(byte) {
        Position {
            column: p.column + 1,
            ..p
        }
    } else {
        p
    }
}

// The line and column of an offset where there is no mark.
fn locate_in(text: &[u8], offset: usize) -> Position
    ensures { result ≡ position_in text.now offset }
{
    let before = &text[..offset.min(text.len())];
    let mut p = Position { line: 1, column: 1 };
    for byte in before {
        p = past(p, *byte);
    }
    p
}

// How many bytes stand in front of the first newline.
fn newline(bytes: &[u8]) -> Option<usize>
    ensures { result ≡ position is_newline bytes.now }
{
    bytes.iter().position(|b| *b == NEWLINE)
}

// How many bytes stand behind the last one.
fn last_newline(bytes: &[u8]) -> Option<usize>
    ensures { result ≡ position is_newline (reverse bytes.now) }
{
    bytes.iter().rev().position(|b| *b == NEWLINE)
}

fn line_start(text: &[u8], at: usize) -> usize
    requires { at ≤ length text.now }
    ensures { result ≡ line_start text.now at }
{
    match last_newline(&text[..at]) {
        Some(bytes) => at - bytes,
        None => 0,
    }
}

fn line_end(text: &[u8], at: usize) -> usize
    requires { at ≤ length text.now }
    ensures { result ≡ line_end text.now at }
{
    match newline(&text[at..]) {
        Some(bytes) => at + bytes,
        None => text.len(),
    }
}

// The line of an offset, without the newline that ends it, where there is no mark.
fn line_in(text: &[u8], offset: usize) -> Extent
    ensures { (result ≡ line_in text.now offset) × (result.start ≤ length text.now) × (result.end ≤ length text.now) }
{
    let at = offset.min(text.len());
    Extent {
        start: line_start(text, at),
        end: line_end(text, at),
    }
}

// How many bytes a byte order mark takes in front.
fn mark_length(text: &[u8]) -> usize
    ensures { (result ≡ mark_length text.now) × (result ≤ length text.now) }
{
    if scan::has_mark(text) { 3 } else { 0 }
}

// The line and column of an offset.
pub fn locate(text: &[u8], offset: usize) -> Position
    ensures { result ≡ position_of text.now offset }
{
    let mark = mark_length(text);
    locate_in(&text[mark..], offset.saturating_sub(mark))
}

// The line of an offset, without the newline that ends it.
pub fn source_line(text: &[u8], offset: usize) -> Extent
    ensures { result ≡ source_line text.now offset }
{
    let mark = mark_length(text);
    let line = line_in(&text[mark..], offset.saturating_sub(mark));
    Extent {
        start: mark + line.start,
        end: mark + line.end,
    }
}

// Where a text goes on behind so many newlines; its end where it has fewer.
fn skip_lines(text: &[u8], newlines: usize) -> usize
    ensures { result ≡ behind text.now newlines }
{
    let mut left = newlines;
    for (at, byte) in text.iter().enumerate() {
        if left == 0 {
            return at;
        }
        if *byte == NEWLINE {
            left -= 1;
        }
    }
    text.len()
}

// The line behind so many newlines; the last line where there are fewer.
pub fn line_behind(text: &[u8], newlines: usize) -> Extent
    ensures { result ≡ line_behind text.now newlines }
{
    source_line(text, skip_lines(text, newlines))
}
