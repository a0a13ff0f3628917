// The steps of readers of functions, structs, branches and statements, as crate steps has those of expressions.
#![tactic(auto)]

ghost use Rattle.definition.specs.Prog.{again};
ghost use Rattle.definition.specs.Expressions.{members};
ghost use Rattle.reading.specs.Does.{Does};
ghost use Rattle.cst.specs.Cst.{maybe};
ghost use Rattle.answers.specs.Parts.{ended_turn, stmt_result};
ghost use Rattle.answers.specs.Steps.{open_method, open_list, param_head, param_of, open_body, two, after_field, end_node, else_kind, else_of, open_arms, end_arm, arm_turn, open_let, let_of, let_equals, end_let, open_assign, after_expr, after_of, add_stmt, open_block};

use answers::{After, Else, Ended, LetHead, Longer, Param, StmtResult, Two};
use cst::{close_node, open_from, open_here, push_child, push_option, update_kind};
use definition::Unfinished;
use names::expect_ident;
use nodes::kind_of;
use reading::Parser;
use stream::{check, eat, emit_unexpected, expect};
use words::{flag, node, token};

pub fn open_list(p: &mut Parser, kind: u32, opener: u32) -> Unfinished
    ensures { Does (open_list kind opener) p.old result p.new }
{
    let list = open_here(p, kind, 0);
    expect(p, opener);
    list
}

pub fn end_node(p: &mut Parser, terminator: u32, u: Unfinished) -> u32
    ensures { Does (end_node terminator u) p.old result p.new }
{
    expect(p, terminator);
    close_node(p, u)
}

pub fn open_method(p: &mut Parser) -> Unfinished
    ensures { Does open_method p.old result p.new }
{
    let start = p.state.cursor.at;
    let eager = eat(p, token::EAGER);
    expect(p, token::FN);
    let payload = answers::flag(eager, flag::METHOD_DEF_EAGER);
    let u = open_from(p, start, node::METHOD_DEF, payload);
    let name = expect_ident(p);
    push_child(p, u, name)
}

pub fn param_head(p: &mut Parser) -> Option<Param>
    ensures { Does param_head p.old (param_of result) p.new }
{
    let Some(u) = clauses::parameter_name(p) else {
        return None;
    };
    expect(p, token::COLON);
    if check(p, token::DOLLAR) {
        return Some(Param::Any(u, clauses::any_type(p)));
    }
    Some(Param::Wants(u))
}

pub fn open_body(p: &mut Parser, u: Unfinished, found: Option<u32>) -> Two
    ensures { Does (open_body u (maybe found)) p.old (two result.outer result.inner) p.new }
{
    let outer = push_option(p, u, found);
    let inner = open_list(p, node::STRUCT_BODY, token::LEFT_CURLY);
    Two { outer, inner }
}

pub fn after_field(p: &mut Parser, body: Unfinished, seen: bool, n: u32) -> Unfinished
    ensures { Does (after_field body seen n) p.old (again (members result seen)) p.new }
{
    let body = push_child(p, body, n);
    clauses::separate(p, body, seen);
    body
}

pub fn else_kind(p: &mut Parser) -> Option<Else>
    ensures { Does else_kind p.old (else_of result) p.new }
{
    if !check(p, token::ELSE) {
        return None;
    }
    let start = p.state.cursor.at;
    expect(p, token::ELSE);
    if eat(p, token::IF) {
        return Some(Else::If(start));
    }
    Some(Else::Last)
}

pub fn open_arms(p: &mut Parser, u: Unfinished, subject: u32) -> Two
    ensures { Does (open_arms u subject) p.old (two result.outer result.inner) p.new }
{
    let outer = push_child(p, u, subject);
    let inner = open_list(p, node::MATCH_ARM_LIST, token::LEFT_CURLY);
    Two { outer, inner }
}

// The end of an arm, and whether a comma follows it.
pub fn end_arm(p: &mut Parser, u: Unfinished, value: u32, list: Unfinished) -> Longer
    ensures { Does (end_arm u value list) p.old (arm_turn result.on result.it) p.new }
{
    let n = parts::push_close(p, u, value);
    let it = push_child(p, list, n);
    let on = eat(p, token::COMMA);
    Longer { it, on }
}

pub fn open_let(p: &mut Parser, start: u32, comptime: bool) -> LetHead
    ensures { Does (open_let start comptime) p.old (let_of result) p.new }
{
    let mutable = eat(p, token::MUT);
    let payload = answers::let_flags(comptime, mutable, false);
    let u = open_from(p, start, node::LET_STMT, payload);
    let name = expect_ident(p);
    let it = push_child(p, u, name);
    let typed = eat(p, token::COLON);
    LetHead { it, mutable, typed }
}

pub fn let_equals(p: &mut Parser, u: Unfinished, payload: u32)
    ensures { Does (let_equals u payload) p.old tt p.new }
{
    update_kind(p, u, node::LET_STMT, payload);
    expect(p, token::EQUALS);
}

pub fn end_let(p: &mut Parser, u: Unfinished, value: u32) -> u32
    ensures { Does (end_let u value) p.old result p.new }
{
    let u = push_child(p, u, value);
    end_node(p, token::SEMICOLON, u)
}

pub fn open_assign(p: &mut Parser, start: u32, left: u32) -> Unfinished
    ensures { Does (open_assign start left) p.old result p.new }
{
    let u = open_from(p, start, node::ASSIGN_STMT, 0);
    push_child(p, u, left)
}

pub fn after_expr(p: &mut Parser, n: u32) -> After
    ensures { Does (after_expr n) p.old (after_of result) p.new }
{
    if eat(p, token::EQUALS) {
        return After::Assign;
    }
    if eat(p, token::SEMICOLON) {
        return After::Whole(StmtResult::Statement(n));
    }
    if answers::requires_semi(kind_of(p, n)) {
        return After::Whole(StmtResult::EndExpr(n));
    }
    After::Whole(StmtResult::EndExprOrStmt(n))
}

// What a statement adds to those so far.
pub fn add_stmt(
    p: &mut Parser,
    list: Unfinished,
    closing: Option<u32>,
    res: Option<StmtResult>,
) -> Ended
    ensures { Does (add_stmt list (maybe closing) (stmt_result res)) p.old (ended_turn result) p.new }
{
    match res {
        None => {
            emit_unexpected(p);
            Ended {
                list,
                closing,
                last: true,
            }
        }
        Some(StmtResult::Statement(n)) => {
            let more = push_option(p, list, closing);
            Ended {
                list: push_child(p, more, n),
                closing: None,
                last: false,
            }
        }
        Some(StmtResult::EndExprOrStmt(n)) => Ended {
            list: push_option(p, list, closing),
            closing: Some(n),
            last: false,
        },
        Some(StmtResult::EndExpr(n)) => {
            let more = push_option(p, list, closing);
            clauses::end_expr(p, more, n)
        }
    }
}

// `parse_block` up to its statements.
pub fn open_block(p: &mut Parser, start: u32, kind: u32) -> Two
    ensures { Does (open_block start kind) p.old (two result.outer result.inner) p.new }
{
    let outer = open_from(p, start, kind, 0);
    expect(p, token::LEFT_CURLY);
    let inner = open_here(p, node::STATEMENTS_LIST, 0);
    Two { outer, inner }
}
