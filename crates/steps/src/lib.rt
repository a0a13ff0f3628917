// The steps of a reader that lie between two calls of readers, each as one function: so the readers themselves are short, and
// so are their proofs.
#![tactic(auto)]

ghost use Rattle.reading.specs.Does.{Does};
ghost use Rattle.cst.specs.Cst.{maybe};
ghost use Rattle.answers.specs.Steps.{eat_first, prefixed, prefix_of, close_unary, infixed, infix_of, postfix_kind, postfix_of, simple, paren_start, paren_of, paren_comma, more_of, more, open_fn, end_list, end_body, open_named, open_call};

use answers::{Brackets, Goes, Infixed, Longer, Prefixed};
use cst::{close_node, open_from, open_here, push_child, push_option, update_kind};
use definition::{Mode, Unfinished};
use names::try_parse_ident;
use reading::Parser;
use stream::{eat, expect};
use words::{flag, node, token};

// ---- tokens

// The first of some tokens that is next is passed; its place among them is answered, or their number.
pub fn eat_first(p: &mut Parser, list: &[u32]) -> usize
    ensures { Does (eat_first list.now) p.old result p.new }
{
    for (i, token) in list.iter().enumerate() {
        if eat(p, *token) {
            return i;
        }
    }
    list.len()
}

// ---- expressions

pub fn prefix(p: &mut Parser) -> Prefixed
    ensures { Does prefixed p.old (prefix_of result) p.new }
{
    let start = parts::skip_trivia_start(p);
    let it = match parts::eat_unary(p) {
        Some(op) => Some(open_from(p, start, node::UNARY_EXPR, op)),
        None => None,
    };
    Prefixed { start, it }
}

pub fn close_unary(p: &mut Parser, u: Unfinished, found: Option<u32>) -> Option<u32>
    ensures { Does (close_unary u (maybe found)) p.old (maybe result) p.new }
{
    Some(parts::close_operand(p, u, found))
}

pub fn infix(p: &mut Parser, min: u32, start: u32, left: u32) -> Infixed
    ensures { Does (infixed min start left) p.old (infix_of result) p.new }
{
    match parts::check_binary_op(p) {
        Some(b) if min <= b.left => Infixed {
            it: Some(parts::open_binary(p, start, left, b.op)),
            right: b.right,
        },
        _ => Infixed { it: None, right: 0 },
    }
}

pub fn postfix_kind(p: &mut Parser, mode: Mode, min: u32, start: u32, left: u32) -> Option<Goes>
    ensures { Does (postfix_kind mode min start left) p.old (postfix_of result) p.new }
{
    if clauses::eat_if(p, min < Parser::MEMBER_PRIORITY, token::DOT) {
        return Some(Goes::Member(parts::member_expr(p, start, left)));
    }
    if clauses::check_if(p, min < Parser::FN_CALL_PRIORITY, token::LEFT_ROUND) {
        return Some(Goes::Call);
    }
    let literal = answers::allows_struct_literal(mode, min < Parser::STRUCT_LITERAL_PRIORITY);
    if clauses::check_if(p, literal, token::LEFT_CURLY) {
        return Some(Goes::Literal);
    }
    None
}

// An operand that calls no reader.
pub fn simple(p: &mut Parser) -> Option<u32>
    ensures { Does simple p.old (maybe result) p.new }
{
    let one = parts::literal(p);
    if one.is_some() {
        return one;
    }
    parts::named(p)
}

pub fn paren_start(p: &mut Parser, start: u32) -> Brackets
    ensures { Does (paren_start start) p.old (paren_of result) p.new }
{
    if eat(p, token::RIGHT_ROUND) {
        let u = open_from(p, start, node::TUPLE_LIT, 0);
        return Brackets::Empty(close_node(p, u));
    }
    Brackets::Open(open_from(p, start, node::PAREN_EXPR, 0))
}

// What stands in brackets is a tuple where a comma follows its first element.
pub fn paren_comma(p: &mut Parser, u: Unfinished, inner: u32) -> Longer
    ensures { Does (paren_comma u inner) p.old (more_of result) p.new }
{
    let it = push_child(p, u, inner);
    let on = eat(p, token::COMMA);
    if on {
        update_kind(p, it, node::TUPLE_LIT, 0);
    }
    Longer { it, on }
}

// One more element, and whether a comma follows it.
pub fn more(p: &mut Parser, list: Unfinished, n: u32) -> Longer
    ensures { Does (more list n) p.old (more_of result) p.new }
{
    let it = push_child(p, list, n);
    let on = eat(p, token::COMMA);
    Longer { it, on }
}

// ---- nodes and their lists

pub fn end_list(p: &mut Parser, terminator: u32, list: Unfinished, parent: Unfinished) -> Unfinished
    ensures { Does (end_list terminator list parent) p.old result p.new }
{
    expect(p, terminator);
    let n = close_node(p, list);
    push_child(p, parent, n)
}

// A body in curly brackets is closed, and so is its parent.
pub fn end_body(p: &mut Parser, list: Unfinished, parent: Unfinished) -> u32
    ensures { Does (end_body list parent) p.old result p.new }
{
    expect(p, token::RIGHT_CURLY);
    parts::close_into(p, list, parent)
}

// ---- functions

pub fn open_fn(p: &mut Parser, start: u32, eager: bool) -> Unfinished
    ensures { Does (open_fn start eager) p.old result p.new }
{
    let payload = answers::flag(eager, flag::FN_DEF_EAGER);
    open_from(p, start, node::FN_DEF, payload)
}

// ---- structs

// A field up to its type or value.
pub fn open_named(p: &mut Parser, kind: u32) -> Unfinished
    ensures { Does (open_named kind) p.old result p.new }
{
    let u = open_here(p, kind, 0);
    let name = try_parse_ident(p);
    let u = push_option(p, u, name);
    expect(p, token::COLON);
    u
}

// A node whose first child was there before it, up to its list.
pub fn open_call(p: &mut Parser, start: u32, kind: u32, left: u32, opener: u32) -> Unfinished
    ensures { Does (open_call start kind left opener) p.old result p.new }
{
    let u = open_from(p, start, kind, 0);
    let u = push_child(p, u, left);
    expect(p, opener);
    u
}
