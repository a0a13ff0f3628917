// The token at an offset: which rule of lexer.rs matches there, by the first byte.
#![tactic(auto)]

ghost use Rattle.std.specs.Prelude.{◌≡◌, [], ◌∷◌, map, true, false, cond, ◌+◌, ◌<◌, ◌≤◌, eqb, length, take, drop, get_or};
ghost use Rattle.scan.specs.Bytes.{digit, ident_start, is_digit};
ghost use Rattle.scan.specs.Lexer.{longest_text, from, classed, token_at, longest, no_match, rule, punctuation};
ghost use Rattle.scan.specs.Longest.{same, keyword_of, with_head};
ghost use Rattle.tokens.specs.Cases.{match_of};
ghost use Rattle.tokens.specs.At.{Other};
ghost use Rattle.tokens.specs.Next.{next_token};
ghost use Rattle.tokens.specs.Pairs.{pair_of, alone_of};

use scan::{LONGEST_TEXT, Token};
use words::token;

// What a fixed spelling is: a kind and its length in bytes.
#[derive(Clone, Copy)]
pub(crate) struct Spelled {
    kind: u32,
    len: usize,
}

// Whether two spellings are alike.
pub fn same(a: &[u8], b: &[u8]) -> bool
    ensures { result ≡ same a.now b.now }
{
    if a.len() != b.len() {
        return false;
    }
    for i in 0..a.len() {
        if a[i] != b[i] {
            return false;
        }
    }
    true
}

fn kind_if(word: &[u8], spelling: &[u8], kind: u32, otherwise: u32) -> u32
    ensures { result ≡ cond (same spelling.now word.now) kind otherwise }
{
    if same(spelling, word) {
        kind
    } else {
        otherwise
    }
}

// The kind of a word: a keyword's, or Identifier. The keywords are looked through by their first letter: one match on all spellings leaves
// nearly two hundred goals, one for each byte at which a word can differ from them.
fn keyword(word: &[u8]) -> u32
    ensures { result ≡ keyword_of word.now }
{
    let first = scan::byte_at(word, 0);
    if first < b'g' {
        return keyword_to_f(word, first);
    }
    if first < b'q' {
        return keyword_to_p(word, first);
    }
    keyword_from_r(word, first)
}

// The same for a word that begins with `S` or one of `a` to `f`.
fn keyword_to_f(word: &[u8], first: u8) -> u32
    requires { (first ≡ get_or word.now 0 0) × (first < 103) }
    ensures { result ≡ keyword_of word.now }
{
    let identifier = token::IDENTIFIER;
    match first {
        b'a' => kind_if(
            word,
            b"and",
            token::AND,
            kind_if(word, b"as", token::AS, identifier),
        ),
        b'c' => kind_if(
            word,
            b"const",
            token::CONST,
            kind_if(word, b"comptime", token::COMPTIME, identifier),
        ),
        b'e' => kind_if(
            word,
            b"else",
            token::ELSE,
            kind_if(word, b"eager", token::EAGER, identifier),
        ),
        b'f' => kind_if(
            word,
            b"fn",
            token::FN,
            kind_if(word, b"false", token::FALSE, identifier),
        ),
        b'S' => kind_if(word, b"Self", token::SELF_TYPE, identifier),
        _ => identifier,
    }
}

// The same for one of `g` to `p`.
fn keyword_to_p(word: &[u8], first: u8) -> u32
    requires { (first ≡ get_or word.now 0 0) × (103 ≤ first) × (first < 113) }
    ensures { result ≡ keyword_of word.now }
{
    let identifier = token::IDENTIFIER;
    match first {
        b'i' => {
            let inline = kind_if(word, b"inline", token::INLINE, identifier);
            kind_if(
                word,
                b"if",
                token::IF,
                kind_if(word, b"init", token::INIT, inline),
            )
        }
        b'l' => kind_if(word, b"let", token::LET, identifier),
        b'm' => kind_if(
            word,
            b"mut",
            token::MUT,
            kind_if(word, b"match", token::MATCH, identifier),
        ),
        b'o' => kind_if(word, b"or", token::OR, identifier),
        b'p' => kind_if(word, b"pub", token::PUB, identifier),
        _ => identifier,
    }
}

// The same for one of `q` to the last.
fn keyword_from_r(word: &[u8], first: u8) -> u32
    requires { (first ≡ get_or word.now 0 0) × (113 ≤ first) }
    ensures { result ≡ keyword_of word.now }
{
    let identifier = token::IDENTIFIER;
    match first {
        b'r' => kind_if(
            word,
            b"run",
            token::RUN,
            kind_if(word, b"return", token::RETURN, identifier),
        ),
        b's' => kind_if(word, b"struct", token::STRUCT, identifier),
        b't' => kind_if(
            word,
            b"tuple",
            token::TUPLE,
            kind_if(word, b"true", token::TRUE, identifier),
        ),
        b'u' => kind_if(word, b"use", token::USE, identifier),
        b'w' => kind_if(word, b"while", token::WHILE, identifier),
        _ => identifier,
    }
}

// A word: `hex"` begins a string.
fn word(text: &[u8], at: usize) -> Token
    requires { (at < length text.now) × (ident_start (get_or text.now at 0) ≡ true) }
    ensures { result ≡ from at (token_at (drop at text.now)) }
{
    if text[at..].starts_with(b"hex\"") {
        return scan::string(text, at + 4, token::LOOSE_HEX_STRING_LITERAL, false);
    }
    let end = scan::ident_end(text, at + 1);
    let kind = keyword(&text[at..end]);
    Token { kind, end }
}

// Whether a radix prefix with a digit of its own stands here.
#[tactic(auto, using(std::proofs::lemmas::Bool::Decides::nat_tests, crate::specs::At::prefix_is))]
fn has_prefix(text: &[u8], at: usize, letter: u8, radix: u32) -> bool
    requires { (at < length text.now) × (0 < letter) }
    ensures { result ≡ classed (eqb 48 ∷ eqb letter ∷ is_digit radix ∷ []) (drop at text.now) }
{
    text[at] == b'0'
        && scan::byte_at(text, at + 1) == letter
        && scan::is_digit(radix, scan::byte_at(text, at + 2))
}

// A number: its radix prefix says which.
fn numeral(text: &[u8], at: usize) -> Token
    requires { (at < length text.now) × (digit (get_or text.now at 0) ≡ true) }
    ensures { result ≡ from at (token_at (drop at text.now)) }
{
    if has_prefix(text, at, b'x', 16) {
        return scan::number(text, at + 3, token::HEX_LITERAL, 16);
    }
    if has_prefix(text, at, b'b', 2) {
        return scan::number(text, at + 3, token::BIN_LITERAL, 2);
    }
    scan::number(text, at + 1, token::DECIMAL_LITERAL, 10)
}

// An `@`: a builtin's name, or alone an error.
fn at_sign(text: &[u8], at: usize) -> Token
    requires { (at < length text.now) × (get_or text.now at 0 ≡ 64) }
    ensures { result ≡ from at (token_at (drop at text.now)) }
{
    if scan::is_ident_start(scan::byte_at(text, at + 1)) {
        return Token {
            kind: token::BUILTIN_NAME,
            end: scan::ident_end(text, at + 2),
        };
    }
    Token {
        kind: token::AT_WITHOUT_IDENT_ERROR,
        end: at + 1,
    }
}

// A slash: a comment or the operator. `//*` is a line comment.
fn slash(text: &[u8], at: usize) -> Token
    requires { (at < length text.now) × (get_or text.now at 0 ≡ 47) × (length text.now ≤ longest_text) }
    ensures { result ≡ from at (token_at (drop at text.now)) }
{
    match scan::byte_at(text, at + 1) {
        b'/' => scan::line_comment(text, at + 2),
        b'*' => scan::block_comment(text, at + 2),
        _ => Token {
            kind: token::SLASH,
            end: at + 1,
        },
    }
}

// The kind of the fixed spelling that is the byte alone.
fn single(b: u8) -> Option<u32>
    ensures { result ≡ alone_of (with_head b punctuation) }
{
    match b {
        b';' => Some(token::SEMICOLON),
        b',' => Some(token::COMMA),
        b':' => Some(token::COLON),
        b'.' => Some(token::DOT),
        b'$' => Some(token::DOLLAR),
        b'{' => Some(token::LEFT_CURLY),
        b'}' => Some(token::RIGHT_CURLY),
        b'(' => Some(token::LEFT_ROUND),
        b')' => Some(token::RIGHT_ROUND),
        b'[' => Some(token::LEFT_SQUARE),
        b']' => Some(token::RIGHT_SQUARE),
        b'=' => Some(token::EQUALS),
        b'+' => Some(token::PLUS),
        b'-' => Some(token::MINUS),
        b'*' => Some(token::STAR),
        b'/' => Some(token::SLASH),
        b'%' => Some(token::PERCENT),
        b'<' => Some(token::LESS_THAN),
        b'>' => Some(token::GREATER_THAN),
        b'!' => Some(token::BANG),
        b'&' => Some(token::AMPERSAND),
        b'|' => Some(token::PIPE),
        b'^' => Some(token::CARET),
        b'~' => Some(token::TILDE),
        _ => None,
    }
}

// The kind of the fixed spelling that is the byte with the next one.
fn double(b: u8, next: u8) -> Option<u32>
    ensures { result ≡ pair_of (with_head b punctuation) next }
{
    match (b, next) {
        (b':', b':') => Some(token::DOUBLE_COLON),
        (b'=', b'>') => Some(token::FAT_ARROW),
        (b'=', b'=') => Some(token::DOUBLE_EQUALS),
        (b'+', b'%') => Some(token::PLUS_PERCENT),
        (b'+', b'/') => Some(token::PLUS_SLASH),
        (b'-', b'%') => Some(token::MINUS_PERCENT),
        (b'-', b'/') => Some(token::MINUS_SLASH),
        (b'*', b'%') => Some(token::STAR_PERCENT),
        (b'<', b'<') => Some(token::SHIFT_LEFT),
        (b'<', b'/') => Some(token::LESS_SLASH),
        (b'<', b'=') => Some(token::LESS_EQUALS),
        (b'>', b'>') => Some(token::SHIFT_RIGHT),
        (b'>', b'/') => Some(token::GREATER_SLASH),
        (b'>', b'=') => Some(token::GREATER_EQUALS),
        (b'!', b'=') => Some(token::BANG_EQUALS),
        (b'&', b'&') => Some(token::AMPER_AMPER),
        (b'|', b'|') => Some(token::PIPE_PIPE),
        _ => None,
    }
}

// The fixed spelling that begins with a byte, by the next byte, 0 at the end of the text: of two, the longer one.
fn punctuation(b: u8, next: u8) -> Option<Spelled>
    ensures { match_of result ≡ longest no_match (map rule punctuation) (b ∷ next ∷ []) }
{
    if let Some(kind) = double(b, next) {
        return Some(Spelled { kind, len: 2 });
    }
    let kind = single(b)?;
    Some(Spelled { kind, len: 1 })
}

// A fixed spelling, or one character that starts no token.
fn other(text: &[u8], at: usize) -> Token
    requires { (at < length text.now) × (Other (get_or text.now at 0)) }
    ensures { result ≡ from at (token_at (drop at text.now)) }
{
    let b = text[at];
    let next = scan::byte_at(text, at + 1);
    match punctuation(b, next) {
        Some(Spelled { kind, len }) => Token {
            kind,
            end: at + len,
        },
        None => match utf8::character_at(text, at) {
            Some(character) => Token {
                kind: token::INVALID_CHAR_ERROR,
                end: at + character.length,
            },
            None => Token {
                kind: token::INVALID_CHAR_ERROR,
                end: at + 1,
            },
        },
    }
}

// The token at an offset inside the text.
fn token_at(text: &[u8], at: usize) -> Token
    requires { (at < length text.now) × (length text.now ≤ longest_text) }
    ensures { result ≡ from at (token_at (drop at text.now)) }
{
    let b = text[at];
    if scan::is_ident_start(b) {
        return word(text, at);
    }
    if scan::is_decimal(b) {
        return numeral(text, at);
    }
    if scan::is_blank(b) {
        return Token {
            kind: token::WHITESPACE,
            end: scan::blank_end(text, at + 1),
        };
    }
    match b {
        b'"' => scan::string(text, at + 1, token::LOOSE_STRING_LITERAL, true),
        b'/' => slash(text, at),
        b'@' => at_sign(text, at),
        _ => other(text, at),
    }
}

// The token at an offset; where the text has ended, an Eof.
fn token_or_end(text: &[u8], at: usize) -> Token
    requires { length text.now ≤ longest_text }
    ensures { result ≡ next_token text.now at }
{
    if text.len() <= at {
        return Token {
            kind: token::EOF,
            end: at,
        };
    }
    token_at(text, at)
}

// The token at an offset; where the text, or its first 65,536 bytes, have ended, an Eof.
pub fn next_token(text: &[u8], at: usize) -> Token
    ensures { result ≡ next_token (take longest_text text.now) at }
{
    token_or_end(&text[..LONGEST_TEXT.min(text.len())], at)
}
