// The lexer of Plank: `lex` gives a text's tokens as words, `spelling` the part of the text that a token covers.
#![tactic(auto)]

ghost use Rattle.std.specs.Prelude.{◌≡◌, ◌++◌, map, ◌+◌, ◌-◌, ◌≤◌, ◌<◌, length, set, take, replicate};
ghost use Rattle.std.proofs.lemmas.List.Edits.{sets};
ghost use Rattle.words.specs.Refusal.{number};
ghost use Rattle.scan.specs.Lexer.{longest_text, tokens_of, word};
ghost use Rattle.lexer.specs.Walk.{Tells, rest, marks};
ghost use Rattle.lexer.specs.Lex.{answer, lexed, lexed_words, not_utf8, start_of, spelling_of, spelling_start, Begins};
ghost use Rattle.lexer.specs.Calls.{Counted};

pub use scan::LONGEST_TEXT;
use scan::Token;
use utf8::Way;
use words::{Refusal, Refused, token};

// What lexing answers: the number of tokens, Eof included.
pub type Lexed = Result<usize, Refused>;

// A word stored where there is room for it.
pub fn put(words: &mut [u32], n: usize, word: u32)
    ensures { words.new ≡ set words.old n word }
{
    if n < words.len() {
        words[n] = word;
    }
}

// The words from the n-th on set to 0.
pub fn clear(words: &mut [u32], n: usize)
    ensures { words.new ≡ take n words.old ++ replicate (length words.old - n) 0 }
{
    let kept = n.min(words.len());
    words[kept..].fill(0);
}

// The tokens from an offset on, put from a word on, as many as there is room for, and how many there are with those before: each is read once,
// also where there is no room.
fn fill_from<F: Fn(usize) -> Token>(
    text: &[u8],
    words: &mut [u32],
    start: usize,
    first: usize,
    token_at: F,
) -> usize
    requires bounds { (length text.now ≤ longest_text) × (start ≤ length text.now) × (first ≤ start) }
    requires tells { Tells text.now (F.pre token_at) (F.post token_at) }
    ensures { (result ≡ first + length (rest text.now start)) × (words.new ≡ sets words.old first (map word (rest text.now start))) }
{
    let mut at = start;
    let mut n = first;
    while at < text.len() {
        let t = token_at(at);
        let end = t.end;
        put(words, n, words::token_word(t.kind, end as u32));
        n += 1;
        at = end;
    }
    put(words, n, words::token_word(token::EOF, at as u32));
    n + 1
}

// Puts the word of a byte order mark in front, which is a token by itself; tells how many such tokens there are.
pub fn put_mark(text: &[u8], words: &mut [u32]) -> usize
    ensures { (result ≡ length (marks text.now)) × (words.new ≡ sets words.old 0 (map word (marks text.now))) }
{
    if scan::has_mark(text) {
        put(words, 0, words::token_word(token::WHITESPACE, 3));
        return 1;
    }
    0
}

// The tokens' words, and the number of tokens. There is one call of the loop: with two it is no part of `lex`, and each token costs more.
fn fill<F: Fn(usize) -> Token>(text: &[u8], words: &mut [u32], token_at: F) -> usize
    requires short { length text.now ≤ longest_text }
    requires tells { Tells text.now (F.pre token_at) (F.post token_at) }
    ensures { (result ≡ length (tokens_of text.now)) × (words.new ≡ sets words.old 0 (map word (tokens_of text.now))) }
{
    let first = put_mark(text, words);
    fill_from(text, words, 3 * first, first, token_at)
}

// The refusal of a text that isn't UTF-8, by the way in which it isn't.
pub fn not_utf8(way: Way) -> Refusal
    ensures { number result ≡ not_utf8 way }
{
    match way {
        Way::NoStart => Refusal::NotUtf8Start,
        Way::NotAllowed => Refusal::NotUtf8Later,
        Way::Cut => Refusal::NotUtf8Cut,
    }
}

// The tokens' words, where it doesn't refuse; the rest of the slice, and all of it on refusal, is left to be cleared.
fn count<F: Fn(usize) -> Token>(text: &[u8], tokens: &mut [u32], token_at: F) -> Lexed
    requires { length text.now ≤ longest_text → Tells text.now (F.pre token_at) (F.post token_at) }
    ensures { Counted text.now tokens.old tokens.new result }
{
    if LONGEST_TEXT < text.len() {
        return Err(Refusal::TooLong.at(LONGEST_TEXT as u32));
    }
    if let Err(wrong) = utf8::check(text) {
        return Err(not_utf8(wrong.way).at(wrong.at as u32));
    }
    let n = fill(text, tokens, token_at);
    if tokens.len() < n {
        return Err(Refusal::TokensDontFit.at(n as u32));
    }
    Ok(n)
}

// `lex` by any function that tells the token at an offset: that of crate tokens, or that of crate tables.
pub fn lex_by<F: Fn(usize) -> Token>(text: &[u8], tokens: &mut [u32], token_at: F) -> Lexed
    requires { length text.now ≤ longest_text → Tells text.now (F.pre token_at) (F.post token_at) }
    ensures { (answer result ≡ lexed text.now (length tokens.old)) × (tokens.new ≡ lexed_words text.now (length tokens.old)) }
{
    let lexed = count(text, tokens, token_at);
    clear(tokens, lexed.unwrap_or(0));
    lexed
}

// A text's tokens as words, Eof last, and 0 in the rest of the slice; where it refuses, 0 in all of it.
pub fn lex(text: &[u8], tokens: &mut [u32]) -> Lexed
    ensures { (answer result ≡ lexed text.now (length tokens.old)) × (tokens.new ≡ lexed_words text.now (length tokens.old)) }
{
    lex_by(text, tokens, |at| tokens::next_token(text, at))
}

// Where a token starts: where the one before it ends.
fn start_of(tokens: &[u32], n: usize) -> usize
    requires { n < length tokens.now }
    ensures { result ≡ start_of tokens.now n }
{
    if n == 0 {
        return 0;
    }
    words::token_end(tokens[n - 1]) as usize
}

// The part of the text that the n-th token covers; the empty part, at the text's first byte, where there is no such token, or its ends
// fall or pass the text.
pub fn spelling<'a>(text: &'a [u8], tokens: &[u32], n: usize) -> &'a [u8]
    ensures { (result.now ≡ spelling_of text.now tokens.now n) × Begins result.ref_ptr text.entry.ref_ptr (spelling_start text.now tokens.now n) }
{
    let empty = &text[0..0];
    if tokens.len() <= n {
        return empty;
    }
    let start = start_of(tokens, n);
    let end = words::token_end(tokens[n]) as usize;
    if end < start || text.len() < end {
        return empty;
    }
    &text[start..end]
}
