// What is done where a token is not there (parser/mod.rs, `expect_check_recovery`, `skip_until_recovery_token`, and the recovery
// branch of `parse_delimited`).
#![tactic(auto)]

ghost use Rattle.std.specs.Prelude.{◌≡◌, ◌&&◌, ltb};
ghost use Rattle.definition.specs.Tokens.{contains, expect_check_recovery, skip_until_recovery_token};
ghost use Rattle.reading.specs.Does.{Does};
ghost use Rattle.stream.specs.Commands.{missing};
ghost use Rattle.stream.specs.Delimited.{list_ends, pass_unexpected};

use reading::Parser;
use stream::{
    before_start, check, contains, eat, emit_and_mark, emit_unexpected, eof, is_marked, pass, peek,
    token_start, turns_of,
};
use words::token;

// Whether a missing token is reported on what stands before: one of these comes next, and something stands before.
fn is_missing(recovery: &[u32], token: u32, i: u32) -> bool
    ensures { result ≡ (contains recovery.now token && ltb 0 i) }
{
    contains(recovery, token) && 0 < i
}

// The report that the wanted token is missing, or that another is there.
fn emit_missing(p: &mut Parser, token: u32, recovery: &[u32])
    ensures { Does (missing token recovery.now) p.old tt p.new }
{
    let found = peek(p);
    let i = p.state.cursor.at;
    if is_missing(recovery, found, i) {
        let before = before_start(p.tokens, i);
        let end = token_start(p.tokens, i);
        return emit_and_mark(p, words::report::MISSING_TOKEN, token, before, end);
    }
    emit_unexpected(p);
}

pub fn expect_check_recovery(p: &mut Parser, token: u32, recovery: &[u32]) -> bool
    ensures { Does (expect_check_recovery token recovery.now) p.old result p.new }
{
    let eaten = eat(p, token);
    if !eaten && !is_marked(p) {
        emit_missing(p, token, recovery);
    }
    eaten
}

// Tokens are passed up to one of these, or to the end of all: the scan for it leaves both loops.
pub fn skip_until_recovery_token(p: &mut Parser, recovery: &[u32])
    ensures { Does (skip_until_recovery_token recovery.now) p.old tt p.new }
{
    'skip: for _turn in 0..turns_of(p.tokens) {
        if p.is_refused() {
            break;
        }
        let ended = eof(p);
        let found = peek(p);
        if ended {
            break;
        }
        for i in 0..recovery.len() {
            if found == recovery[i] {
                break 'skip;
            }
        }
        pass(p);
    }
}

// Whether a list ends here: at its terminator, or at the end of all.
pub fn list_ends(p: &mut Parser, terminator: u32) -> bool
    ensures { Does (list_ends terminator) p.old result p.new }
{
    let closed = check(p, terminator);
    let ended = eof(p);
    closed || ended
}

// A token that no element of a list starts with is passed, with a report unless one was made since the last element.
pub fn pass_unexpected(p: &mut Parser, emitted: bool)
    ensures { Does (pass_unexpected emitted) p.old tt p.new }
{
    if !emitted {
        emit_unexpected(p);
    }
    pass(p);
}
