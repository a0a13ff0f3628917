// The recorded answers of the Rust: the replay of the lexer's (data/lexed of crate cases), which says which texts are answered
// otherwise, and how the parser's lie in the data.
ghost use Rattle.std.specs.Prelude.{◌+◌, ◌*◌, ◌≤◌, ◌<◌, length};
ghost use Rattle.cases.specs.Within.{Within, FoundWithin};

use lexer::Lexed;
use std::fs;
use std::io::{self, Read};
use std::rt::Files;
use words::Refusal;

// Where a record's parts lie in the data: the text, and the words of its tokens; of a text that is refused, which has 0 for the
// number of tokens, the refusal's number and place.
#[derive(Clone, Copy)]
struct Record {
    start: usize,
    end: usize,
    words: usize,
    next: usize,
    count: usize,
}

// What a record's replay showed, and where the next record starts.
#[derive(Clone, Copy)]
pub(crate) struct Turn {
    pub is_same: bool,
    pub next: usize,
}

// The most bytes of data that are read.
const LONGEST_DATA: usize = 196608;

// What the lent words hold before each call: no token's word.
const PATTERN: u32 = 0xa5a5a5a5;

// A number of the data: 4 bytes, least first.
pub(crate) fn number(file: &[u8], at: usize) -> u32
    requires { at + 4 ≤ length file.now }
{
    u32::from_le_bytes([file[at], file[at + 1], file[at + 2], file[at + 3]])
}

// How many words a record has behind the number of its tokens.
fn words_of(count: u32) -> u32 {
    if count == 0 { 2 } else { count }
}

// The record at a place; none where the data end inside it.
fn record_at(file: &[u8], at: usize) -> Option<Record>
    ensures { FoundWithin result (length file.now) }
{
    let size = file.len();
    if size < at || size - at < 4 {
        return None;
    }
    let length = number(file, at) as usize;
    let start = at + 4;
    if size - start < length {
        return None;
    }
    let end = start + length;
    let padded = start + length.div_ceil(4) * 4;
    if size < padded + 4 {
        return None;
    }
    let count = number(file, padded);
    let words = padded + 4;
    let bytes = words_of(count) as usize * 4;
    if size - words < bytes {
        return None;
    }
    Some(Record {
        start,
        end,
        words,
        next: words + bytes,
        count: count as usize,
    })
}

pub(crate) fn mark(words: &mut [u32]) {
    words.fill(PATTERN);
}

// The i-th of the recorded words; 0 behind the last.
fn word_at(recorded: &[u8], i: usize) -> u32 {
    if i < recorded.len() / 4 {
        number(recorded, i * 4)
    } else {
        0
    }
}

// Whether the words are the recorded ones, and 0 behind those.
pub(crate) fn is_recorded(words: &[u32], recorded: &[u8]) -> bool {
    for (i, word) in words.iter().enumerate() {
        if *word != word_at(recorded, i) {
            return false;
        }
    }
    true
}

// The lexer that goes by tables, or the branching one.
fn lex(branching: bool, text: &[u8], tokens: &mut [u32]) -> Lexed {
    if branching {
        return lexer::lex(text, tokens);
    }
    plank::lex(text, tokens)
}

// Whether the lexer gives the recorded tokens where they fit.
fn is_given(
    branching: bool,
    text: &[u8],
    recorded: &[u8],
    count: usize,
    tokens: &mut [u32],
) -> bool {
    mark(tokens);
    lex(branching, text, tokens) == Ok(count) && is_recorded(tokens, recorded)
}

// Whether the lexer refuses with this number and place, and leaves 0 in every word.
fn is_refused(branching: bool, text: &[u8], number: u32, place: u32, tokens: &mut [u32]) -> bool {
    mark(tokens);
    let Err(refused) = lex(branching, text, tokens) else {
        return false;
    };
    refused.number() == number && refused.place == place && is_recorded(tokens, &[])
}

// Whether the lexer refuses as recorded, with no words and with plenty.
fn is_always_refused(branching: bool, text: &[u8], recorded: &[u8], tokens: &mut [u32]) -> bool {
    let number = word_at(recorded, 0);
    let place = word_at(recorded, 1);
    is_refused(branching, text, number, place, &mut tokens[..0])
        && is_refused(branching, text, number, place, tokens)
}

// Whether the lexer refuses where fewer words are lent than there are tokens.
fn is_short(branching: bool, text: &[u8], count: usize, tokens: &mut [u32]) -> bool {
    let Ok(needed) = u32::try_from(count) else {
        return false;
    };
    is_refused(
        branching,
        text,
        Refusal::TokensDontFit.number(),
        needed,
        tokens,
    )
}

// Whether the lexer answers as recorded with exactly as many words as needed, one more, one less, and none.
fn is_same(
    branching: bool,
    text: &[u8],
    recorded: &[u8],
    count: usize,
    tokens: &mut [u32],
) -> bool {
    if count == 0 {
        return is_always_refused(branching, text, recorded, tokens);
    }
    if tokens.len() <= count {
        return false;
    }
    is_given(branching, text, recorded, count, &mut tokens[..count])
        && is_given(branching, text, recorded, count, &mut tokens[..count + 1])
        && is_short(branching, text, count, &mut tokens[..count - 1])
        && is_short(branching, text, count, &mut tokens[..0])
}

// Both lexers are held to the record.
fn is_record_same(file: &[u8], r: Record, tokens: &mut [u32]) -> bool
    requires { Within r (length file.now) }
{
    let text = &file[r.start..r.end];
    let recorded = &file[r.words..r.next];
    is_same(false, text, recorded, r.count, tokens)
        && is_same(true, text, recorded, r.count, tokens)
}

fn replay_record(file: &[u8], at: usize, tokens: &mut [u32]) -> Option<Turn> {
    let r = record_at(file, at)?;
    Some(Turn {
        is_same: is_record_same(file, r, tokens),
        next: r.next,
    })
}

// Replays the records of so many bytes of data, one at a time; they are counted from 1. For people, `text` is what is replayed, and `record`
// what it stands in.
pub(crate) fn replay<F: FnMut(usize) -> Option<Turn>>(
    rt: &impl Print,
    text: &str,
    record: &str,
    size: usize,
    records: u32,
    mut turn: F,
) -> io::Result<()>
    requires { F.IsAlwaysCallable turn }
{
    let mut at = 4;
    let mut differences: u32 = 0;
    for n in 0..records {
        let number = n + 1;
        let Some(Turn { is_same, next }) = turn(at) else {
            return println!(rt; "data cut at {record} {number}");
        };
        if !is_same {
            println!(rt; "{text} {number} differs")?;
            differences += 1;
        }
        at = next;
    }
    if at != size {
        println!(rt; "data go on after {record} {records}")?;
    }
    println!(rt; "{records} {text}s, {differences} differences")
}

// No record of so much data has more tokens than there is room for.
fn replay_all(rt: &impl Print, file: &[u8]) -> io::Result<()> {
    if file.len() < 4 {
        return println!(rt; "data cut at record 0");
    }
    let mut tokens = [0u32; 49152];
    let records = number(file, 0);
    replay(
        rt,
        "text",
        "record",
        file.len(),
        records,
        |at| replay_record(file, at, &mut tokens),
    )
}

// What a file begins with, up to one byte more than is taken, which shows that there is more.
pub(crate) fn beginning<R: Files + AllocGlobal>(
    rt: &R,
    path: &str,
    longest: u32,
) -> io::Result<Vec<u8>> {
    let mut data = Vec::new(rt.alloc());
    fs::open(rt, path)?
        .take(u64::from(longest) + 1)
        .read_to_end(&mut data)?;
    Ok(data)
}

pub(crate) fn replay_lexed(rt: &HostRuntime) -> io::Result<()> {
    match beginning(rt, "lexed", LONGEST_DATA as u32) {
        Ok(data) => {
            if LONGEST_DATA < data.len() {
                return println!(rt; "data too long");
            }
            replay_all(rt, data.as_slice())
        }
        Err(why) => {
            let _ = eprintln!(rt; "lexed: {why}");
            Ok(())
        }
    }
}
