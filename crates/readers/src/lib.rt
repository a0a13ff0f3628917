// Expressions, statements and blocks: the readers of parser/mod.rs that call one another, one cycle. Their names are short;
// docs/DECISIONS.md has the Rust's beside them. What lies between two calls of readers is one function of the crate steps.
#![tactic(auto)]

ghost use Rattle.std.specs.Prelude.{◌≡◌, false};
ghost use Rattle.std.proofs.Math.Option.{none};
ghost use Rattle.words.specs.Token;
ghost use Rattle.definition.specs.Prog.{Loop, again, enter_expr, enter_block};
ghost use Rattle.definition.specs.Expressions.{parse_expr, conditional, else_turn, else_if_branch, arm_turn, match_expr, parse_parameter, parse_function_signature_and_body, parse_function_def, parse_method_def, parse_struct_field, members, member_turn, parse_struct_def, expr_element, parse_tuple_type, tuple_turn, paren_or_tuple, try_parse_standalone_expr, call_expr, field_assign, struct_lit};
ghost use Rattle.definition.specs.Statements.{while_stmt, parse_let_stmt, return_stmt, comptime_stmt, assign_stmt, expr_stmt, try_parse_stmt, body, stmt_turn, parse_block};
ghost use Rattle.reading.specs.Does.{Does};
ghost use Rattle.stream.specs.Delimited.{elements};
ghost use Rattle.cst.specs.Cst.{maybe};
ghost use Rattle.answers.specs.Parts.{element, stmt_result};
ghost use Rattle.answers.specs.Programs.{branching, indexed, typing, postfix_steps};
ghost use Rattle.readers.specs.Readers.{too_deep, tail_of, field_or_none, arm_head, arm_rest, arm_turn_of, else_ifs};

use answers::{After, Brackets, Else, Goes, Longer, Param, StmtResult};
use cst::{close_node, open_from, open_here, push_child};
use definition::{Mode, Unfinished};
use reading::Parser;
use recovery::{list_ends, pass_unexpected};
use stream::{check, eat, expect, turns_of};
use words::{Refusal, node, token};

// The members of a struct, and whether a method was among them.
#[derive(Clone, Copy)]
struct MemberList {
    pub body: Unfinished,
    pub seen: bool,
}

// The else-if branches, and the else block.
#[derive(Clone, Copy)]
struct ElseIfs {
    pub list: Unfinished,
    pub last: Option<u32>,
}

// The statements of a block, and its closing expression.
#[derive(Clone, Copy)]
struct Body {
    pub list: Unfinished,
    pub closing: Option<u32>,
}

// A refusal, unless there was one before.
fn too_deep(p: &mut Parser)
    ensures { p.new ≡ too_deep p.old }
{
    if !p.is_refused() {
        p.refuse(Refusal::TooDeep);
    }
}

// ---- expressions

// `try_parse_expr_min_bp`: an operand of a prefix or binary operator is read by the same function, one level deeper.
#[cycle(readers)]
pub fn expr(p: &mut Parser, mode: Mode, min: u32) -> Option<u32>
    ensures { Does (enter_expr mode min) p.old (maybe result) p.new }
{
    if p.levels == 0 {
        too_deep(p);
        return None;
    }
    p.levels -= 1;
    let head = steps::prefix(p);
    let found = match head.it {
        Some(u) => {
            let operand = expr(p, mode, Parser::UNARY_PRIORITY);
            steps::close_unary(p, u, operand)
        }
        None => atom(p),
    };
    let Some(mut left) = found else {
        p.levels += 1;
        return None;
    };
    for _turn in 0..turns_of(p.tokens) {
        if p.is_refused() {
            break;
        }
        if let Some(n) = post(p, mode, min, head.start, left) {
            left = n;
            continue;
        }
        let infix = steps::infix(p, min, head.start, left);
        let Some(u) = infix.it else { break };
        let right = expr(p, mode, infix.right);
        left = parts::close_operand(p, u, right);
    }
    p.levels += 1;
    Some(left)
}

// `parse_expr`
#[cycle(readers)]
pub fn must(p: &mut Parser, mode: Mode) -> u32
    ensures { Does (parse_expr mode) p.old result p.new }
{
    let found = expr(p, mode, Parser::ZERO);
    parts::unwrap_or_error(p, found)
}

// After an expression that no `{` goes on from, its block: what follows `if`, `while` and a function's parameters.
#[cycle(readers)]
fn tail(p: &mut Parser, u: Unfinished, n: u32) -> Unfinished
    ensures { Does (tail_of u n) p.old result p.new }
{
    let u = push_child(p, u, n);
    let start = p.state.cursor.at;
    let then = block(p, start, node::BLOCK);
    push_child(p, u, then)
}

// What goes on from an expression and is no binary operator: a member, a call or a struct literal.
#[cycle(readers)]
fn post(p: &mut Parser, mode: Mode, min: u32, start: u32, left: u32) -> Option<u32>
    ensures { Does (postfix_steps mode min start left) p.old (maybe result) p.new }
{
    match steps::postfix_kind(p, mode, min, start, left) {
        Some(Goes::Member(n)) => Some(n),
        Some(Goes::Call) => Some(call(p, start, left)),
        Some(Goes::Literal) => Some(lit(p, start, left)),
        None => None,
    }
}

// `try_parse_standalone_expr`
#[cycle(readers)]
fn atom(p: &mut Parser) -> Option<u32>
    ensures { Does try_parse_standalone_expr p.old (maybe result) p.new }
{
    let start = p.state.cursor.at;
    let one = steps::simple(p);
    if one.is_some() {
        return one;
    }
    match steps::eat_first(p, &OPERANDS) {
        0 => Some(paren(p, start)),
        1 => Some(block(p, start, node::COMPTIME_BLOCK)),
        2 => {
            expect(p, token::FN);
            Some(func(p, start, true))
        }
        3 => Some(func(p, start, false)),
        4 => Some(strct(p, start)),
        5 => Some(tys(p, start)),
        _ => fork(p),
    }
}

// The tokens that begin an operand, in the order in which they are tried.
const OPERANDS: [u32; 6] = [
    token::LEFT_ROUND,
    token::COMPTIME,
    token::EAGER,
    token::FN,
    token::STRUCT,
    token::TUPLE,
];

// An operand that is a block, an `if` or a `match`.
#[cycle(readers)]
fn fork(p: &mut Parser) -> Option<u32>
    ensures { Does branching p.old (maybe result) p.new }
{
    let curly = check(p, token::LEFT_CURLY);
    let start = p.state.cursor.at;
    if curly {
        return Some(block(p, start, node::BLOCK));
    }
    if eat(p, token::IF) {
        return Some(cond(p, start));
    }
    let start = p.state.cursor.at;
    if eat(p, token::MATCH) {
        return Some(pick(p, start));
    }
    None
}

// After `(`.
#[cycle(readers)]
fn paren(p: &mut Parser, start: u32) -> u32
    ensures { Does (paren_or_tuple start) p.old result p.new }
{
    match steps::paren_start(p, start) {
        Brackets::Empty(n) => n,
        Brackets::Open(u) => {
            let inner = must(p, Mode::AllowAll);
            let more = steps::paren_comma(p, u, inner);
            let all = if more.on { tuple(p, more.it) } else { more.it };
            stages::end_node(p, token::RIGHT_ROUND, all)
        }
    }
}

// The elements of a tuple, from its second on.
#[cycle(readers)]
fn tuple(p: &mut Parser, first: Unfinished) -> Unfinished
    ensures { Does (Loop first tuple_turn) p.old result p.new }
{
    let mut u = first;
    for _turn in 0..turns_of(p.tokens) {
        if p.is_refused() {
            break;
        }
        if check(p, token::RIGHT_ROUND) {
            break;
        }
        let element = must(p, Mode::AllowAll);
        let more = steps::more(p, u, element);
        u = more.it;
        if !more.on {
            break;
        }
    }
    u
}

// ---- functions

// `parse_function_def`, after `fn`
#[cycle(readers)]
fn func(p: &mut Parser, start: u32, eager: bool) -> u32
    ensures { Does (parse_function_def start eager) p.old result p.new }
{
    let u = steps::open_fn(p, start, eager);
    let u = sig(p, u);
    close_node(p, u)
}

// `parse_method_def`
#[cycle(readers)]
fn meth(p: &mut Parser) -> u32
    ensures { Does parse_method_def p.old result p.new }
{
    let u = stages::open_method(p);
    let u = sig(p, u);
    close_node(p, u)
}

// `parse_function_signature_and_body`
#[cycle(readers)]
fn sig(p: &mut Parser, u: Unfinished) -> Unfinished
    ensures { Does (parse_function_signature_and_body u) p.old result p.new }
{
    let list = stages::open_list(p, node::PARAM_LIST, token::LEFT_ROUND);
    let list = pars(p, list);
    let u = steps::end_list(p, token::RIGHT_ROUND, list, u);
    let test = must(p, Mode::NoPostFixCurlyBrace);
    tail(p, u, test)
}

// The parameters, without the brackets around them.
#[cycle(readers)]
fn pars(p: &mut Parser, first: Unfinished) -> Unfinished
    ensures { Does (elements Token.RightRound Token.Comma parse_parameter first) p.old result p.new }
{
    let mut list = first;
    let mut emitted = false;
    for _turn in 0..turns_of(p.tokens) {
        if p.is_refused() {
            break;
        }
        match par(p, list) {
            Some(u) => {
                list = u;
                emitted = false;
                if !eat(p, token::COMMA) {
                    break;
                }
            }
            None => {
                if list_ends(p, token::RIGHT_ROUND) {
                    break;
                }
                pass_unexpected(p, emitted);
                emitted = true;
            }
        }
    }
    list
}

// `parse_parameter`
#[cycle(readers)]
fn par(p: &mut Parser, list: Unfinished) -> Option<Unfinished>
    ensures { Does (parse_parameter list) p.old (element result) p.new }
{
    match stages::param_head(p) {
        None => None,
        Some(Param::Any(u, n)) => parts::add_element(p, u, n, list),
        Some(Param::Wants(u)) => {
            let kind = must(p, Mode::AllowAll);
            parts::add_element(p, u, kind, list)
        }
    }
}

// ---- structs and tuple types

// `parse_struct_def`, after `struct`
#[cycle(readers)]
fn strct(p: &mut Parser, start: u32) -> u32
    ensures { Does (parse_struct_def start) p.old result p.new }
{
    let u = open_from(p, start, node::STRUCT_DEF, 0);
    let found = idx(p);
    let both = stages::open_body(p, u, found);
    let all = inner(p, both.inner);
    steps::end_body(p, all.body, both.outer)
}

// What stands between `struct` and `{`.
#[cycle(readers)]
fn idx(p: &mut Parser) -> Option<u32>
    ensures { Does indexed p.old (maybe result) p.new }
{
    if check(p, token::LEFT_CURLY) {
        return None;
    }
    expr(p, Mode::NoPostFixCurlyBrace, Parser::ZERO)
}

// The members of a struct, without the braces around them.
#[cycle(readers)]
fn inner(p: &mut Parser, first: Unfinished) -> MemberList
    ensures { Does (Loop (members first false) member_turn) p.old (members result.body result.seen) p.new }
{
    let mut body = first;
    let mut seen = false;
    for _turn in 0..turns_of(p.tokens) {
        if p.is_refused() {
            break;
        }
        if clauses::one_of(p, token::EOF, token::RIGHT_CURLY) {
            break;
        }
        if clauses::one_of(p, token::EAGER, token::FN) {
            let n = meth(p);
            body = push_child(p, body, n);
            seen = true;
        } else {
            body = mem(p, body, seen);
        }
    }
    MemberList { body, seen }
}

// A member that is no method: a field, or none.
#[cycle(readers)]
fn mem(p: &mut Parser, body: Unfinished, seen: bool) -> Unfinished
    ensures { Does (field_or_none (members body seen)) p.old (again (members result seen)) p.new }
{
    if check(p, token::IDENTIFIER) {
        clauses::note_field(p, seen);
        let n = field(p);
        return stages::after_field(p, body, seen, n);
    }
    clauses::no_member(p, body, seen)
}

// `parse_struct_field`
#[cycle(readers)]
fn field(p: &mut Parser) -> u32
    ensures { Does parse_struct_field p.old result p.new }
{
    let u = steps::open_named(p, node::FIELD_DEF);
    let kind = must(p, Mode::AllowAll);
    parts::push_close(p, u, kind)
}

// `parse_tuple_type`, after `tuple`
#[cycle(readers)]
fn tys(p: &mut Parser, start: u32) -> u32
    ensures { Does (parse_tuple_type start) p.old result p.new }
{
    let u = open_from(p, start, node::TUPLE_TYPE, 0);
    expect(p, token::LEFT_CURLY);
    let all = elems(p, u, token::RIGHT_CURLY);
    stages::end_node(p, token::RIGHT_CURLY, all)
}

// Expressions up to what ends them: the elements of a tuple type, and the arguments of a call.
#[cycle(readers)]
fn elems(p: &mut Parser, first: Unfinished, terminator: u32) -> Unfinished
    ensures { Does (elements terminator Token.Comma expr_element first) p.old result p.new }
{
    let mut list = first;
    let mut emitted = false;
    for _turn in 0..turns_of(p.tokens) {
        if p.is_refused() {
            break;
        }
        match expr(p, Mode::AllowAll, Parser::ZERO) {
            Some(n) => {
                list = push_child(p, list, n);
                emitted = false;
                if !eat(p, token::COMMA) {
                    break;
                }
            }
            None => {
                if list_ends(p, terminator) {
                    break;
                }
                pass_unexpected(p, emitted);
                emitted = true;
            }
        }
    }
    list
}

// ---- what goes on from an expression

// A call, at its `(`.
#[cycle(readers)]
fn call(p: &mut Parser, start: u32, left: u32) -> u32
    ensures { Does (call_expr start left) p.old result p.new }
{
    let u = steps::open_call(p, start, node::CALL_EXPR, left, token::LEFT_ROUND);
    let all = elems(p, u, token::RIGHT_ROUND);
    stages::end_node(p, token::RIGHT_ROUND, all)
}

// A struct literal, at its `{`.
#[cycle(readers)]
fn lit(p: &mut Parser, start: u32, left: u32) -> u32
    ensures { Does (struct_lit start left) p.old result p.new }
{
    let u = steps::open_call(p, start, node::STRUCT_LIT, left, token::LEFT_CURLY);
    let all = inits(p, u);
    stages::end_node(p, token::RIGHT_CURLY, all)
}

// The fields of a struct literal, without the braces around them.
#[cycle(readers)]
fn inits(p: &mut Parser, first: Unfinished) -> Unfinished
    ensures { Does (elements Token.RightCurly Token.Comma field_assign first) p.old result p.new }
{
    let mut list = first;
    let mut emitted = false;
    for _turn in 0..turns_of(p.tokens) {
        if p.is_refused() {
            break;
        }
        match init(p, list) {
            Some(u) => {
                list = u;
                emitted = false;
                if !eat(p, token::COMMA) {
                    break;
                }
            }
            None => {
                if list_ends(p, token::RIGHT_CURLY) {
                    break;
                }
                pass_unexpected(p, emitted);
                emitted = true;
            }
        }
    }
    list
}

// A field of a struct literal.
#[cycle(readers)]
fn init(p: &mut Parser, list: Unfinished) -> Option<Unfinished>
    ensures { Does (field_assign list) p.old (element result) p.new }
{
    if !check(p, token::IDENTIFIER) {
        return None;
    }
    let u = steps::open_named(p, node::FIELD_ASSIGN);
    let value = must(p, Mode::AllowAll);
    parts::add_element(p, u, value, list)
}

// ---- if and match

// `try_parse_conditional`, after `if`
#[cycle(readers)]
fn cond(p: &mut Parser, start: u32) -> u32
    ensures { Does (conditional start) p.old result p.new }
{
    let u = open_from(p, start, node::IF, 0);
    let test = must(p, Mode::NoPostFixCurlyBrace);
    let u = tail(p, u, test);
    let list = open_here(p, node::ELSE_IF_BRANCH_LIST, 0);
    let all = alts(p, list);
    parts::close_if(p, all.list, u, all.last)
}

// The else-if branches, and the else block where there is one.
#[cycle(readers)]
fn alts(p: &mut Parser, first: Unfinished) -> ElseIfs
    ensures { Does (Loop (else_ifs first none) else_turn) p.old (else_ifs result.list (maybe result.last)) p.new }
{
    let mut list = first;
    for _turn in 0..turns_of(p.tokens) {
        if p.is_refused() {
            break;
        }
        match stages::else_kind(p) {
            None => break,
            Some(Else::If(start)) => list = elif(p, list, start),
            Some(Else::Last) => {
                let start = p.state.cursor.at;
                let last = Some(block(p, start, node::BLOCK));
                return ElseIfs { list, last };
            }
        }
    }
    ElseIfs { list, last: None }
}

// An else-if branch, after its `if`.
#[cycle(readers)]
fn elif(p: &mut Parser, list: Unfinished, start: u32) -> Unfinished
    ensures { Does (else_if_branch (else_ifs list none) start) p.old (again (else_ifs result none)) p.new }
{
    let u = open_from(p, start, node::ELSE_IF_BRANCH, 0);
    let test = must(p, Mode::NoPostFixCurlyBrace);
    let u = tail(p, u, test);
    let n = close_node(p, u);
    push_child(p, list, n)
}

// `try_parse_match`, after `match`
#[cycle(readers)]
fn pick(p: &mut Parser, start: u32) -> u32
    ensures { Does (match_expr start) p.old result p.new }
{
    let u = open_from(p, start, node::MATCH, 0);
    let subject = must(p, Mode::NoPostFixCurlyBrace);
    let both = stages::open_arms(p, u, subject);
    let all = arms(p, both.inner);
    steps::end_body(p, all, both.outer)
}

// The arms of a match, without the braces around them.
#[cycle(readers)]
fn arms(p: &mut Parser, first: Unfinished) -> Unfinished
    ensures { Does (Loop first arm_turn) p.old result p.new }
{
    let mut list = first;
    for _turn in 0..turns_of(p.tokens) {
        if p.is_refused() {
            break;
        }
        if list_ends(p, token::RIGHT_CURLY) {
            break;
        }
        let more = arm(p, list);
        list = more.it;
        if !more.on {
            break;
        }
    }
    list
}

// An arm, and whether a comma follows it.
#[cycle(readers)]
fn arm(p: &mut Parser, list: Unfinished) -> Longer
    ensures { Does (arm_rest list) p.old (arm_turn_of result) p.new }
{
    let start = p.state.cursor.at;
    let u = key(p, start);
    expect(p, token::FAT_ARROW);
    let value = must(p, Mode::AllowAll);
    stages::end_arm(p, u, value, list)
}

// An arm up to its `=>`.
#[cycle(readers)]
fn key(p: &mut Parser, start: u32) -> Unfinished
    ensures { Does (arm_head start) p.old result p.new }
{
    if eat(p, token::ELSE) {
        return clauses::fallback_arm(p, start);
    }
    let u = open_here(p, node::MATCH_ARM, 0);
    let key = must(p, Mode::AllowAll);
    push_child(p, u, key)
}

// ---- statements

// `try_parse_stmt`
#[cycle(readers)]
fn stmt(p: &mut Parser) -> Option<StmtResult>
    ensures { Does try_parse_stmt p.old (stmt_result result) p.new }
{
    let start = p.state.cursor.at;
    match steps::eat_first(p, &STATEMENTS) {
        0 => {
            expect(p, token::WHILE);
            let n = rep(p, start, node::INLINE_WHILE_STMT);
            Some(StmtResult::Statement(n))
        }
        1 => {
            let n = rep(p, start, node::WHILE_STMT);
            Some(StmtResult::Statement(n))
        }
        2 => ret(p, start),
        3 => comp(p, start),
        4 => Some(StmtResult::Statement(bind(p, start, false))),
        _ => bare(p, start),
    }
}

// The tokens that begin a statement, in the order in which they are tried.
const STATEMENTS: [u32; 5] = [
    token::INLINE,
    token::WHILE,
    token::RETURN,
    token::COMPTIME,
    token::LET,
];

// A loop, after `while`.
#[cycle(readers)]
fn rep(p: &mut Parser, start: u32, kind: u32) -> u32
    ensures { Does (while_stmt start kind) p.old result p.new }
{
    let u = open_from(p, start, kind, 0);
    let test = must(p, Mode::NoPostFixCurlyBrace);
    let u = tail(p, u, test);
    close_node(p, u)
}

// `parse_let_stmt`
#[cycle(readers)]
fn bind(p: &mut Parser, start: u32, comptime: bool) -> u32
    ensures { Does (parse_let_stmt start comptime) p.old result p.new }
{
    let head = stages::open_let(p, start, comptime);
    let u = ty(p, head.it, head.typed);
    let payload = answers::let_flags(comptime, head.mutable, head.typed);
    stages::let_equals(p, u, payload);
    let value = must(p, Mode::AllowAll);
    stages::end_let(p, u, value)
}

// The type of a `let`, where a colon was read.
#[cycle(readers)]
fn ty(p: &mut Parser, u: Unfinished, typed: bool) -> Unfinished
    ensures { Does (typing u typed) p.old result p.new }
{
    if !typed {
        return u;
    }
    let kind = must(p, Mode::AllowAll);
    push_child(p, u, kind)
}

// After `return`.
#[cycle(readers)]
fn ret(p: &mut Parser, start: u32) -> Option<StmtResult>
    ensures { Does (return_stmt start) p.old (stmt_result result) p.new }
{
    let u = open_from(p, start, node::RETURN_STMT, 0);
    let value = must(p, Mode::AllowAll);
    parts::end_stmt(p, u, value)
}

// After `comptime`.
#[cycle(readers)]
fn comp(p: &mut Parser, start: u32) -> Option<StmtResult>
    ensures { Does (comptime_stmt start) p.old (stmt_result result) p.new }
{
    if check(p, token::LEFT_CURLY) {
        let n = block(p, start, node::COMPTIME_BLOCK);
        if eat(p, token::SEMICOLON) {
            return Some(StmtResult::Statement(n));
        }
        return Some(StmtResult::EndExprOrStmt(n));
    }
    if eat(p, token::LET) {
        return Some(StmtResult::Statement(bind(p, start, true)));
    }
    clauses::comptime_error(p, start)
}

// An assignment, after `=`.
#[cycle(readers)]
fn put(p: &mut Parser, start: u32, left: u32) -> Option<StmtResult>
    ensures { Does (assign_stmt start left) p.old (stmt_result result) p.new }
{
    let u = stages::open_assign(p, start, left);
    let right = must(p, Mode::AllowAll);
    parts::end_stmt(p, u, right)
}

// A statement that begins with an expression.
#[cycle(readers)]
fn bare(p: &mut Parser, start: u32) -> Option<StmtResult>
    ensures { Does (expr_stmt start) p.old (stmt_result result) p.new }
{
    let Some(n) = expr(p, Mode::AllowAll, Parser::ZERO) else {
        return None;
    };
    match stages::after_expr(p, n) {
        After::Assign => put(p, start, n),
        After::Whole(read) => Some(read),
    }
}

// The statements of a block, without the braces around them.
#[cycle(readers)]
fn seq(p: &mut Parser, first: Unfinished) -> Body
    ensures { Does (Loop (body first none) stmt_turn) p.old (body result.list (maybe result.closing)) p.new }
{
    let mut list = first;
    let mut closing = None;
    for _turn in 0..turns_of(p.tokens) {
        if p.is_refused() {
            break;
        }
        if check(p, token::RIGHT_CURLY) {
            break;
        }
        let next = stmt(p);
        let more = stages::add_stmt(p, list, closing, next);
        list = more.list;
        closing = more.closing;
        if more.last {
            break;
        }
    }
    Body { list, closing }
}

// `parse_block`
#[cycle(readers)]
pub fn block(p: &mut Parser, start: u32, kind: u32) -> u32
    ensures { Does (enter_block start kind) p.old result p.new }
{
    if p.levels == 0 {
        too_deep(p);
        return 0;
    }
    p.levels -= 1;
    let n = block_within(p, start, kind);
    p.levels += 1;
    n
}

// The same, at a level that was opened for it.
#[cycle(readers)]
fn block_within(p: &mut Parser, start: u32, kind: u32) -> u32
    ensures { Does (parse_block start kind) p.old result p.new }
{
    let both = stages::open_block(p, start, kind);
    let all = seq(p, both.inner);
    parts::close_block(p, all.list, both.outer, all.closing)
}
