// What the readers of expressions are made of: readings that call no reader themselves.
#![tactic(auto)]

ghost use Rattle.definition.specs.Nodes.{skip_trivia_start, alloc_last_token_as_node};
ghost use Rattle.definition.specs.Expressions.{check_binary_op, eat_unary, unwrap_or_error, access_name, member_expr, eats};
ghost use Rattle.reading.specs.Does.{Does};
ghost use Rattle.cst.specs.Cst.{maybe};
ghost use Rattle.answers.specs.Parts.{element, operator, push_close, end_stmt, close_into, close_if, close_block, add_element, open_binary, close_operand, stmt_result, literal, boolean, named, no_access_name};

use answers::{Binary, StmtResult, binary_of, unary_of};
use cst::{
    alloc_last_token_as_node, close_node, error_node, open_from, open_here, push_child,
    push_closing,
};
use definition::Unfinished;
use names::{try_parse_builtin_name, try_parse_ident};
use operands::numbers::num_literal;
use operands::strings::try_parse_string_literal;
use reading::Parser;
use stream::{contains, eat, emit_unexpected, expect, pass, peek};
use words::{flag, node, token};

// Where the next token is.
pub fn skip_trivia_start(p: &mut Parser) -> u32
    ensures { Does skip_trivia_start p.old result p.new }
{
    peek(p);
    p.state.cursor.at
}

// ---- operators

pub fn eat_unary(p: &mut Parser) -> Option<u32>
    ensures { Does eat_unary p.old (maybe result) p.new }
{
    let found = unary_of(peek(p));
    if found.is_some() {
        pass(p);
    }
    found
}

pub fn check_binary_op(p: &mut Parser) -> Option<Binary>
    ensures { Does check_binary_op p.old (operator result) p.new }
{
    binary_of(peek(p))
}

// `.unwrap_or_else(|| { self.emit_unexpected(); .. })`
pub fn unwrap_or_error(p: &mut Parser, found: Option<u32>) -> u32
    ensures { Does (unwrap_or_error (maybe found)) p.old result p.new }
{
    match found {
        Some(n) => n,
        None => {
            emit_unexpected(p);
            error_node(p)
        }
    }
}

// A node's last child, which may be missing, and its end.
pub fn close_operand(p: &mut Parser, u: Unfinished, found: Option<u32>) -> u32
    ensures { Does (close_operand u (maybe found)) p.old result p.new }
{
    let child = unwrap_or_error(p, found);
    let u = push_child(p, u, child);
    close_node(p, u)
}

// A binary expression up to its right operand.
pub fn open_binary(p: &mut Parser, start: u32, left: u32, op: u32) -> Unfinished
    ensures { Does (open_binary start left op) p.old result p.new }
{
    let sign = open_here(p, node::OPERATOR, 0);
    pass(p);
    let sign = close_node(p, sign);
    let u = open_from(p, start, node::BINARY_EXPR, op);
    let u2 = push_child(p, u, left);
    push_child(p, u2, sign)
}

// ---- nodes

pub fn push_close(p: &mut Parser, u: Unfinished, child: u32) -> u32
    ensures { Does (push_close u child) p.old result p.new }
{
    let u = push_child(p, u, child);
    close_node(p, u)
}

// A list is closed and is the last child of its parent.
pub fn close_into(p: &mut Parser, list: Unfinished, parent: Unfinished) -> u32
    ensures { Does (close_into list parent) p.old result p.new }
{
    let list = close_node(p, list);
    push_close(p, parent, list)
}

// An element with its last child, in its list.
pub fn add_element(
    p: &mut Parser,
    u: Unfinished,
    child: u32,
    list: Unfinished,
) -> Option<Unfinished>
    ensures { Does (add_element u child list) p.old (element result) p.new }
{
    let node = push_close(p, u, child);
    Some(push_child(p, list, node))
}

// ---- operands

// The first alternatives of `try_parse_standalone_expr`: an operand that is a literal, or a name.
pub fn literal(p: &mut Parser) -> Option<u32>
    ensures { Does literal p.old (maybe result) p.new }
{
    let yes = boolean(p);
    if yes.is_some() {
        return yes;
    }
    let number = num_literal(p);
    if number.is_some() {
        return number;
    }
    try_parse_string_literal(p)
}

fn boolean(p: &mut Parser) -> Option<u32>
    ensures { Does boolean p.old (maybe result) p.new }
{
    let yes = eat_as(p, token::TRUE, node::BOOL_LITERAL, flag::BOOL_LITERAL_TRUE);
    if yes.is_some() {
        return yes;
    }
    eat_as(p, token::FALSE, node::BOOL_LITERAL, 0)
}

// A node that is one token.
fn eat_as(p: &mut Parser, token: u32, kind: u32, payload: u32) -> Option<u32>
    ensures { Does (eats token (alloc_last_token_as_node kind payload)) p.old (maybe result) p.new }
{
    if !eat(p, token) {
        return None;
    }
    Some(alloc_last_token_as_node(p, kind, payload))
}

pub fn named(p: &mut Parser) -> Option<u32>
    ensures { Does named p.old (maybe result) p.new }
{
    let own = eat_as(p, token::SELF_TYPE, node::SELF_TYPE, 0);
    if own.is_some() {
        return own;
    }
    let name = try_parse_ident(p);
    if name.is_some() {
        return name;
    }
    try_parse_builtin_name(p)
}

// ---- members

fn access_name(p: &mut Parser) -> u32
    ensures { Does access_name p.old result p.new }
{
    match try_parse_ident(p) {
        Some(n) => n,
        None => no_access_name(p),
    }
}

pub fn member_expr(p: &mut Parser, start: u32, left: u32) -> u32
    ensures { Does (member_expr start left) p.old result p.new }
{
    let u = open_from(p, start, node::MEMBER_EXPR, 0);
    let u2 = push_child(p, u, left);
    let name = access_name(p);
    push_close(p, u2, name)
}

fn no_access_name(p: &mut Parser) -> u32
    ensures { Does no_access_name p.old result p.new }
{
    emit_unexpected(p);
    let u = open_here(p, node::ERROR, 0);
    if !contains(&AFTER_ACCESS, peek(p)) {
        pass(p);
    }
    close_node(p, u)
}

// Which tokens are not taken for the name after a dot.
const AFTER_ACCESS: [u32; 4] = [
    token::SEMICOLON,
    token::RIGHT_CURLY,
    token::LEFT_ROUND,
    token::EOF,
];

// ---- branches and statements, closed

// The end of a statement, with its semicolon.
pub fn end_stmt(p: &mut Parser, u: Unfinished, child: u32) -> Option<StmtResult>
    ensures { Does (end_stmt u child) p.old (stmt_result result) p.new }
{
    let u = push_child(p, u, child);
    expect(p, token::SEMICOLON);
    Some(StmtResult::Statement(close_node(p, u)))
}

// A list is closed, then what closes its parent follows, and the parent's end: of an `if`, and of a block.
pub fn close_if(p: &mut Parser, list: Unfinished, parent: Unfinished, closing: Option<u32>) -> u32
    ensures { Does (close_if list parent (maybe closing)) p.old result p.new }
{
    let list = close_node(p, list);
    let parent = push_child(p, parent, list);
    let parent = push_closing(p, parent, list, closing);
    close_node(p, parent)
}

pub fn close_block(
    p: &mut Parser,
    list: Unfinished,
    parent: Unfinished,
    closing: Option<u32>,
) -> u32
    ensures { Does (close_block list parent (maybe closing)) p.old result p.new }
{
    let list = close_node(p, list);
    let parent = push_child(p, parent, list);
    let parent = push_closing(p, parent, list, closing);
    expect(p, token::RIGHT_CURLY);
    close_node(p, parent)
}
