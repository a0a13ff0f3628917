// The parts of readers of parameters, members, arms and statements that call no reader.
#![tactic(auto)]

ghost use Rattle.definition.specs.Prog.{again};
ghost use Rattle.definition.specs.Expressions.{fallback_arm, any_type, parameter_name, members, no_member_turn};
ghost use Rattle.definition.specs.Statements.{end_expr_turn};
ghost use Rattle.reading.specs.Does.{Does};
ghost use Rattle.answers.specs.Parts.{element, only_eat, only_check, emit_here, emit_before, note_field, separate, one_of, comptime_error, past_semicolon, ended_turn, stmt_result, error_from, comptime_parameter, plain_parameter, missing_semicolon};

use answers::{Ended, StmtResult};
use cst::{alloc_last_token_as_node, close_node, open_from, open_here, push_child, update_kind};
use definition::Unfinished;
use names::{expect_ident, try_parse_ident};
use reading::{Parser, report};
use recovery::{expect_check_recovery, skip_until_recovery_token};
use stream::{check, contains, eat, emit_unexpected, expect, pass, peek};
use words::{flag, node, token};

// A report on the cursor's token.
fn emit_here(p: &mut Parser, kind: u32)
    ensures { Does (emit_here kind) p.old tt p.new }
{
    let i = p.state.cursor.at;
    let start = stream::token_start(p.tokens, i);
    let end = stream::token_end(p.tokens, i);
    report::emit(p, kind, 0, start, end);
}

// A report on the token before the cursor.
fn emit_before(p: &mut Parser, kind: u32, detail: u32)
    ensures { Does (emit_before kind detail) p.old tt p.new }
{
    let i = p.state.cursor.at;
    let start = stream::before_start(p.tokens, i);
    let end = stream::token_start(p.tokens, i);
    report::emit(p, kind, detail, start, end);
}

// Whether one of two tokens comes next; both are looked for.
pub fn one_of(p: &mut Parser, first: u32, second: u32) -> bool
    ensures { Does (one_of first second) p.old result p.new }
{
    let a = check(p, first);
    let b = check(p, second);
    a || b
}

pub fn fallback_arm(p: &mut Parser, start: u32) -> Unfinished
    ensures { Does (fallback_arm start) p.old result p.new }
{
    let arm = open_from(p, start, node::MATCH_FALLBACK_ARM, 0);
    let Some(name) = try_parse_ident(p) else {
        return arm;
    };
    update_kind(
        p,
        arm,
        node::MATCH_FALLBACK_ARM,
        flag::MATCH_FALLBACK_ARM_BINDING,
    );
    push_child(p, arm, name)
}

// A type that is `$` and a name.
pub fn any_type(p: &mut Parser) -> u32
    ensures { Does any_type p.old result p.new }
{
    let start = p.state.cursor.at;
    expect(p, token::DOLLAR);
    if !expect(p, token::IDENTIFIER) {
        return error_from(p, start);
    }
    let name = names::intern(p, token::IDENTIFIER);
    let u = open_from(p, start, node::PARAM_ANY_TYPE, name);
    close_node(p, u)
}

fn error_from(p: &mut Parser, start: u32) -> u32
    ensures { Does (error_from start) p.old result p.new }
{
    let u = open_from(p, start, node::ERROR, 0);
    close_node(p, u)
}

// A parameter up to its name, where one begins.
pub fn parameter_name(p: &mut Parser) -> Option<Unfinished>
    ensures { Does parameter_name p.old (element result) p.new }
{
    let start = p.state.cursor.at;
    if eat(p, token::COMPTIME) {
        return comptime_parameter(p, start);
    }
    if eat(p, token::IDENTIFIER) {
        return plain_parameter(p, start);
    }
    None
}

fn comptime_parameter(p: &mut Parser, start: u32) -> Option<Unfinished>
    ensures { Does (comptime_parameter start) p.old (element result) p.new }
{
    let u = open_from(p, start, node::COMPTIME_PARAMETER, 0);
    let name = expect_ident(p);
    Some(push_child(p, u, name))
}

// The name's token was passed.
fn plain_parameter(p: &mut Parser, start: u32) -> Option<Unfinished>
    ensures { Does (plain_parameter start) p.old (element result) p.new }
{
    let u = open_from(p, start, node::PARAMETER, 0);
    let ident = names::intern(p, token::IDENTIFIER);
    let name = alloc_last_token_as_node(p, node::IDENTIFIER, ident);
    Some(push_child(p, u, name))
}

// Where a field comes after a method.
pub fn note_field(p: &mut Parser, seen: bool)
    ensures { Does (note_field seen) p.old tt p.new }
{
    if seen {
        emit_here(p, words::report::FIELD_AFTER_METHOD);
    }
}

// After a field.
pub fn separate(p: &mut Parser, body: Unfinished, seen: bool)
    ensures { Does (separate (members body seen)) p.old (again (members body seen)) p.new }
{
    if !contains(&AFTER_FIELD, peek(p)) {
        expect_check_recovery(p, token::COMMA, &FIELD_RECOVERY);
    }
}

const AFTER_FIELD: [u32; 4] = [token::RIGHT_CURLY, token::EOF, token::EAGER, token::FN];

const FIELD_RECOVERY: [u32; 3] = [token::IDENTIFIER, token::EAGER, token::FN];

const MEMBER_RECOVERY: [u32; 4] = [
    token::RIGHT_CURLY,
    token::EAGER,
    token::FN,
    token::IDENTIFIER,
];

// What begins no member.
pub fn no_member(p: &mut Parser, body: Unfinished, seen: bool) -> Unfinished
    ensures { Does (no_member_turn (members body seen)) p.old (again (members result seen)) p.new }
{
    emit_unexpected(p);
    let u = open_here(p, node::ERROR, 0);
    pass(p);
    skip_until_recovery_token(p, &MEMBER_RECOVERY);
    let n = close_node(p, u);
    push_child(p, body, n)
}

pub fn eat_if(p: &mut Parser, tried: bool, token: u32) -> bool
    ensures { Does (only_eat tried token) p.old result p.new }
{
    tried && eat(p, token)
}

pub fn check_if(p: &mut Parser, tried: bool, token: u32) -> bool
    ensures { Does (only_check tried token) p.old result p.new }
{
    tried && check(p, token)
}

const STMT_RECOVERY: [u32; 15] = [
    token::SEMICOLON,
    token::RIGHT_CURLY,
    token::INIT,
    token::RUN,
    token::CONST,
    token::PUB,
    token::USE,
    token::LET,
    token::RETURN,
    token::COMPTIME,
    token::WHILE,
    token::INLINE,
    token::IF,
    token::MATCH,
    token::LEFT_CURLY,
];

// After `comptime`, where neither a block nor a `let` follows.
pub fn comptime_error(p: &mut Parser, start: u32) -> Option<StmtResult>
    ensures { Does (comptime_error start) p.old (stmt_result result) p.new }
{
    emit_unexpected(p);
    skip_until_recovery_token(p, &STMT_RECOVERY);
    past_semicolon(p);
    let u = open_from(p, start, node::ERROR, 0);
    Some(StmtResult::Statement(close_node(p, u)))
}

fn past_semicolon(p: &mut Parser)
    ensures { Does past_semicolon p.old tt p.new }
{
    if peek(p) == token::SEMICOLON {
        pass(p);
    }
}

pub fn end_expr(p: &mut Parser, list: Unfinished, n: u32) -> Ended
    ensures { Does (end_expr_turn list n) p.old (ended_turn result) p.new }
{
    if one_of(p, token::RIGHT_CURLY, token::EOF) {
        return Ended {
            list,
            closing: Some(n),
            last: true,
        };
    }
    missing_semicolon(p);
    Ended {
        list: push_child(p, list, n),
        closing: None,
        last: false,
    }
}

fn missing_semicolon(p: &mut Parser)
    ensures { Does missing_semicolon p.old tt p.new }
{
    emit_before(p, words::report::MISSING_SPECIFIC, token::SEMICOLON);
}
