// Tokens as the parser sees them: from `advance` to `expect` of parser/mod.rs, but for what is in crate recovery.
#![tactic(auto)]

ghost use Rattle.std.specs.Prelude.{◌≡◌, [], pred};
ghost use Rattle.definition.specs.Prog.{kind_at, passed, skip_trivia, is_marked, peek, pass, emit_and_mark};
ghost use Rattle.definition.specs.Tokens.{check, eat, eof, emit_unexpected, expect, contains};
ghost use Rattle.reading.specs.Does.{Does, Steps, turns_of};
ghost use Rattle.words.specs.Words.{token_end};
ghost use Rattle.literals.specs.Spelling.{span, token_start, word_at};

use reading::{Parser, report};
use words::token;

// Where a token ends; 0 past the words.
pub fn token_end(tokens: &[u32], i: u32) -> u32
    ensures { result ≡ token_end (word_at tokens.now i) }
{
    let at = i as usize;
    if at < tokens.len() {
        return words::token_end(tokens[at]);
    }
    0
}

// Where a token starts: where the one before it ends.
pub fn token_start(tokens: &[u32], i: u32) -> u32
    ensures { result ≡ token_start tokens.now i }
{
    if i == 0 {
        return 0;
    }
    token_end(tokens, i - 1)
}

// Where the token before one starts.
pub fn before_start(tokens: &[u32], i: u32) -> u32
    ensures { result ≡ token_start tokens.now (pred i) }
{
    if i == 0 {
        return 0;
    }
    token_start(tokens, i - 1)
}

// Whether the mark is at the cursor's token: `at_last_unexpected`.
pub fn is_marked(p: &Parser) -> bool
    ensures { result ≡ is_marked p.now.state }
{
    p.state.mark == (p.state.cursor.at as usize) + 1
}

// `advance`, where trivia was skipped before: the token at the cursor is passed, and reported where it is an error and
// not marked.
fn advance(p: &mut Parser)
    ensures { Steps passed p.old p.new }
{
    let cursor = p.state.cursor;
    let marked = is_marked(p);
    p.state.cursor = cursor.advance();
    let Some(error) = token::lex_error(cursor.peek(p.tokens)) else {
        return;
    };
    if marked {
        return;
    }
    report::emit(
        p,
        words::report::LEXER_ERROR,
        error.number(),
        token_start(p.tokens, cursor.at),
        token_end(p.tokens, cursor.at),
    );
}

// `skip_trivia`. The cursor passes blanks and comments by itself; error tokens are passed one by one, each with its report.
fn skip_trivia(p: &mut Parser)
    ensures { Steps skip_trivia p.old p.new }
{
    while !p.is_refused() {
        p.state.cursor = p.state.cursor.skip_trivia(p.tokens);
        if !token::is_trivia(p.state.cursor.peek(p.tokens)) {
            return;
        }
        advance(p);
    }
}

// The kind of the next token that is no trivia, which is skipped.
fn look_far(p: &mut Parser) -> u32
    ensures { (result ≡ kind_at [] p.old.tokens.now p.new.state.cursor) × Steps skip_trivia p.old p.new }
{
    skip_trivia(p);
    p.state.cursor.peek(p.tokens)
}

// The same. Mostly one blank stands before it.
fn look_behind(p: &mut Parser) -> u32
    ensures { (result ≡ kind_at [] p.old.tokens.now p.new.state.cursor) × Steps skip_trivia p.old p.new }
{
    if p.state.cursor.peek(p.tokens) == token::WHITESPACE {
        let next = p.state.cursor.advance();
        let kind = next.peek(p.tokens);
        if kind < token::WHITESPACE {
            p.state.cursor = next;
            return kind;
        }
    }
    look_far(p)
}

// The same. Often the token at the cursor is no trivia, and there is no more to do; that alone is compiled into the callers.
fn look(p: &mut Parser) -> u32
    ensures { (result ≡ kind_at [] p.old.tokens.now p.new.state.cursor) × Steps skip_trivia p.old p.new }
{
    let kind = p.state.cursor.peek(p.tokens);
    if kind < token::WHITESPACE {
        return kind;
    }
    look_behind(p)
}

// The next token that is no trivia passed.
fn pass_behind(p: &mut Parser)
    ensures { Does pass p.old tt p.new }
{
    look_behind(p);
    advance(p);
}

// The kind of the next token that is no trivia.
pub fn peek(p: &mut Parser) -> u32
    ensures { Does peek p.old result p.new }
{
    look(p)
}

// That token passed.
pub fn pass(p: &mut Parser)
    ensures { Does pass p.old tt p.new }
{
    if p.state.cursor.peek(p.tokens) < token::WHITESPACE {
        p.state.cursor = p.state.cursor.advance();
        return;
    }
    pass_behind(p);
}

pub fn check(p: &mut Parser, token: u32) -> bool
    ensures { Does (check token) p.old result p.new }
{
    peek(p) == token
}

pub fn eat(p: &mut Parser, token: u32) -> bool
    ensures { Does (eat token) p.old result p.new }
{
    let found = look(p);
    if found != token {
        return false;
    }
    if token < token::WHITESPACE {
        p.state.cursor = p.state.cursor.advance();
    } else {
        pass_behind(p);
    }
    true
}

pub fn eof(p: &mut Parser) -> bool
    ensures { Does eof p.old result p.new }
{
    check(p, token::EOF)
}

// A report on a part of the text, which puts the mark at the cursor's token.
pub fn emit_and_mark(p: &mut Parser, kind: u32, detail: u32, start: u32, end: u32)
    ensures { Does (emit_and_mark kind detail (span start end)) p.old tt p.new }
{
    p.state.mark = (p.state.cursor.at as usize) + 1;
    report::emit(p, kind, detail, start, end);
}

// No second unexpected-token report is made at one token.
pub fn emit_unexpected(p: &mut Parser)
    ensures { Does emit_unexpected p.old tt p.new }
{
    if is_marked(p) {
        return;
    }
    let found = peek(p);
    let at = p.state.cursor.at;
    emit_and_mark(
        p,
        words::report::UNEXPECTED,
        found,
        token_start(p.tokens, at),
        token_end(p.tokens, at),
    );
}

pub fn expect(p: &mut Parser, token: u32) -> bool
    ensures { Does (expect token) p.old result p.new }
{
    let eaten = eat(p, token);
    if !eaten {
        emit_unexpected(p);
    }
    eaten
}

// Whether a token is one of a list.
pub fn contains(list: &[u32], token: u32) -> bool
    ensures { result ≡ contains list.now token }
{
    list.contains(&token)
}

// A loop has more turns than there are tokens.
pub fn turns_of(tokens: &[u32]) -> usize
    ensures { result ≡ turns_of tokens.now }
{
    let n = tokens.len();
    if n < 4294967295 {
        return n + 1;
    }
    4294967296
}
