// The callbacks of lexer.rs and the runs of its patterns: functions from a byte offset to where a token ends.
#![tactic(auto)]

ghost use Rattle.std.specs.Prelude.{◌≡◌, ℕ, Bool, false, not, cond, ◌&&◌, ◌||◌, ◌+◌, ◌-◌, ◌≤◌, ◌<◌, eqb, length, drop, get_or};
ghost use Rattle.words.specs.Token;
ghost use Rattle.scan.specs.Bytes.{Class, digit, ident_start, ident_part, blank, is_digit};
ghost use Rattle.scan.specs.Lexer.{has_mark, run, from, line_comment, block_comment, number, string};
ghost use Rattle.scan.specs.Laws.{ended};
ghost use Rattle.scan.specs.Comments.{most_open, most_behind, behind, stepped, Counted};

use words::token;

// A token: its kind and the offset where it ends.
#[derive(Clone, Copy)]
pub struct Token {
    pub kind: u32,
    pub end: usize,
}

// The longest text, in bytes.
pub const LONGEST_TEXT: usize = 65536;

// The bytes that can stand behind a `/*` in it.
const MOST_BEHIND: usize = LONGEST_TEXT - 2;

// The byte at an offset, 0 past the end: 0 begins and goes on with no token.
pub fn byte_at(text: &[u8], at: usize) -> u8
    ensures { result ≡ get_or text.now at 0 }
{
    if at < text.len() { text[at] } else { 0 }
}

// The byte order mark.
const MARK: &[u8] = b"\xEF\xBB\xBF";

// Whether a byte order mark stands in front.
pub fn has_mark(text: &[u8]) -> bool
    ensures { result ≡ has_mark text.now }
{
    text.starts_with(MARK)
}

#[tactic(auto, using(std::proofs::lemmas::Bool::Decides::nat_tests), unfolding(crate::specs::Bytes::digit))]
pub fn is_decimal(b: u8) -> bool
    ensures { result ≡ digit b }
{
    b.is_ascii_digit()
}

#[tactic(auto, using(std::proofs::lemmas::Bool::Decides::nat_tests), unfolding(crate::specs::Bytes::ident_start, crate::specs::Bytes::upper, crate::specs::Bytes::lower))]
pub fn is_ident_start(b: u8) -> bool
    ensures { result ≡ ident_start b }
{
    b.is_ascii_alphabetic() || b == b'_'
}

#[tactic(auto, unfolding(crate::specs::Bytes::ident_part))]
fn is_ident_part(b: u8) -> bool
    ensures { result ≡ ident_part b }
{
    is_ident_start(b) || is_decimal(b)
}

#[tactic(auto, using(std::proofs::lemmas::Bool::Decides::nat_tests), unfolding(crate::specs::Bytes::blank))]
pub fn is_blank(b: u8) -> bool
    ensures { result ≡ blank b }
{
    b == b' ' || b == b'\t' || b == b'\n' || b == b'\r'
}

// Rust's `char::is_digit`.
#[tactic(auto, using(std::proofs::lemmas::Bool::Decides::nat_tests), unfolding(crate::specs::Bytes::is_digit, crate::specs::Bytes::digit, crate::specs::Bytes::upper, crate::specs::Bytes::lower))]
pub fn is_digit(radix: u32, b: u8) -> bool
    ensures { result ≡ is_digit radix b }
{
    match b {
        b'0'..=b'9' => ((b - b'0') as u32) < radix,
        b'A'..=b'Z' => (b - b'A') as u32 + 10 < radix,
        b'a'..=b'z' => (b - b'a') as u32 + 10 < radix,
        _ => false,
    }
}

// Where the run of bytes that goes on at `at` ends.
pub fn run_end<F: Fn(u8) -> bool>(text: &[u8], at: usize, goes_on: F) -> usize
    requires { F.IsAlwaysCallable goes_on }
    ensures { (q : Class) → ((b : ℕ) (r : Bool) → F.post goes_on b r → r ≡ q b) → result ≡ at + run q (drop at text.now) }
{
    for i in at..text.len() {
        if !goes_on(text[i]) {
            return i;
        }
    }
    at.max(text.len())
}

// Where the run of letters, digits and `_` that goes on at `at` ends.
pub fn ident_end(text: &[u8], at: usize) -> usize
    ensures { result ≡ at + run ident_part (drop at text.now) }
{
    run_end(text, at, is_ident_part)
}

// Where the run of blanks that goes on at `at` ends.
pub fn blank_end(text: &[u8], at: usize) -> usize
    ensures { result ≡ at + run blank (drop at text.now) }
{
    run_end(text, at, is_blank)
}

// lex_line_comment, from behind the `//`.
pub fn line_comment(text: &[u8], at: usize) -> Token
    ensures { result ≡ from at (line_comment (drop at text.now)) }
{
    let kind = token::LINE_COMMENT;
    for i in at..text.len() {
        if text[i] == b'\n' {
            return Token { kind, end: i + 1 };
        }
    }
    Token {
        kind,
        end: at.max(text.len()),
    }
}

// Where the comment reader stands, and how many comments are open there. 16 bits are enough: each took two of at most 65,536 bytes.
#[derive(Clone, Copy)]
struct Nest {
    depth: u16,
    at: usize,
}

// One step of lex_block_comment: past a `*/`, a `/*` or one byte. The count is the definition's depth, and at most 32,768.
#[tactic(auto, using(std::proofs::lemmas::Bool::Decides::nat_tests, crate::specs::Laws::inside_at), unfolding(crate::specs::Comments::stepped))]
fn step(text: &[u8], nest: Nest) -> Nest
    requires { Counted text.now nest × (0 < nest.depth) × (nest.at < length text.now) }
    ensures { (result ≡ stepped text.now nest) × (result.depth ≤ most_open) }
{
    let Nest { depth, at } = nest;
    match (text[at], byte_at(text, at + 1)) {
        (b'*', b'/') => Nest {
            depth: depth - 1,
            at: at + 2,
        },
        (b'/', b'*') => Nest {
            depth: depth + 1,
            at: at + 2,
        },
        _ => Nest { depth, at: at + 1 },
    }
}

// lex_block_comment, from behind the `/*`, where no more bytes are left than can stand there.
fn comment(text: &[u8], at: usize) -> Token
    requires { length text.now - at ≤ most_behind }
    ensures { result ≡ from at (block_comment (drop at text.now) 1) }
{
    let mut nest = Nest { depth: 1, at };
    while 0 < nest.depth {
        if text.len() <= nest.at {
            return Token {
                kind: token::UNCLOSED_BLOCK_COMMENT_ERROR,
                end: nest.at,
            };
        }
        nest = step(text, nest);
    }
    Token {
        kind: token::BLOCK_COMMENT,
        end: nest.at,
    }
}

// lex_block_comment, from behind the `/*`. Of a text that is too long no more is looked at than can stand there in the longest.
pub fn block_comment(text: &[u8], at: usize) -> Token
    ensures { result ≡ from at (block_comment (behind at text.now) 1) }
{
    if MOST_BEHIND < text.len().saturating_sub(at) {
        return comment(&text[..at + MOST_BEHIND], at);
    }
    comment(text, at)
}

// A literal's token where it ends, or the error that its bytes make of it.
fn literal(kind: u32, error: u32, malformed: bool, end: usize) -> Token
    ensures { result ≡ ended (cond malformed error kind) end }
{
    Token {
        kind: if malformed { error } else { kind },
        end,
    }
}

// Whether a letter or digit stands outside the radix.
fn is_outside(radix: u32, b: u8) -> bool
    ensures { result ≡ (not (eqb b 95) && not (is_digit radix b)) }
{
    !is_digit(radix, b) && b != b'_'
}

// lex_number_literal, from behind the digit or the radix prefix with its digit.
pub fn number(text: &[u8], at: usize, kind: u32, radix: u32) -> Token
    ensures { result ≡ from at (number kind radix false (drop at text.now)) }
{
    let mut malformed = false;
    for i in at..text.len() {
        let b = text[i];
        if is_outside(radix, b) {
            if !is_ident_part(b) {
                return literal(kind, token::MALFORMED_IDENT_ERROR, malformed, i);
            }
            malformed = true;
        }
    }
    literal(
        kind,
        token::MALFORMED_IDENT_ERROR,
        malformed,
        at.max(text.len()),
    )
}

// lex_loose_string_literal, where a backslash hides the next byte, and lex_loose_hex_string_literal, from behind the quote.
pub fn string(text: &[u8], at: usize, kind: u32, hides: bool) -> Token
    ensures { result ≡ from at (string kind hides false false (drop at text.now)) }
{
    let mut hidden = false;
    let mut malformed = false;
    for i in at..text.len() {
        let b = text[i];
        if !hidden && b == b'"' {
            return literal(kind, token::MULTILINE_STRING_ERROR, malformed, i + 1);
        }
        malformed = malformed || !hidden && (b == b'\n' || b == b'\r');
        hidden = hides && !hidden && b == b'\\';
    }
    Token {
        kind: token::UNCLOSED_STRING_ERROR,
        end: at.max(text.len()),
    }
}
