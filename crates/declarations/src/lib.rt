// Constants, declarations and the file: parser/mod.rs, section "TOP-LEVEL DECLARATIONS".
#![tactic(auto)]

ghost use Rattle.definition.specs.Prog.{Loop};
ghost use Rattle.definition.specs.Tokens.{skip_until_decl_start};
ghost use Rattle.definition.specs.Declarations.{parse_const_decl, no_decl, parse_decl, decl_turn, parse_file};
ghost use Rattle.reading.specs.Does.{Does};
ghost use Rattle.declarations.specs.Decls.{open_const, const_type, end_const, skipping, public_decl};

use cst::{close_node, open_from, open_here, push_child, update_kind};
use definition::{Mode, Unfinished};
use imports::parse_import_decl;
use names::expect_ident;
use reading::Parser;
use recovery::{expect_check_recovery, skip_until_recovery_token};
use stream::{eat, emit_unexpected, eof, pass, turns_of};
use words::{flag, node, token};

// CONST_DEF_EXPR_RECOVERY
const CONST_DEF_EXPR_RECOVERY: [u32; 5] = [
    token::INIT,
    token::RUN,
    token::CONST,
    token::PUB,
    token::USE,
];

fn open_const(p: &mut Parser, start: u32) -> Unfinished
    ensures { Does (open_const start) p.old result p.new }
{
    let u = open_from(p, start, node::CONST_DECL, 0);
    let name = expect_ident(p);
    push_child(p, u, name)
}

// The type of a constant, where a colon follows its name.
fn const_type(p: &mut Parser, u: Unfinished) -> Unfinished
    ensures { Does (const_type u) p.old result p.new }
{
    if !eat(p, token::COLON) {
        return u;
    }
    update_kind(p, u, node::CONST_DECL, flag::CONST_DECL_TYPED);
    let kind = readers::must(p, Mode::AllowAll);
    push_child(p, u, kind)
}

fn end_const(p: &mut Parser, u: Unfinished, value: u32) -> u32
    ensures { Does (end_const u value) p.old result p.new }
{
    let u = push_child(p, u, value);
    expect_check_recovery(p, token::SEMICOLON, &CONST_DEF_EXPR_RECOVERY);
    close_node(p, u)
}

fn parse_const_decl(p: &mut Parser, start: u32) -> u32
    ensures { Does (parse_const_decl start) p.old result p.new }
{
    let u = open_const(p, start);
    let u = const_type(p, u);
    expect_check_recovery(p, token::EQUALS, &CONST_DEF_EXPR_RECOVERY);
    let value = readers::must(p, Mode::AllowAll);
    end_const(p, u, value)
}

// `skip_until_decl_start`, where the text may end before it.
fn skip(p: &mut Parser, public: bool)
    ensures { Does (skipping public) p.old tt p.new }
{
    if public && eof(p) {
        return;
    }
    skip_until_decl_start(p);
}

fn skip_until_decl_start(p: &mut Parser)
    ensures { Does skip_until_decl_start p.old tt p.new }
{
    pass(p);
    skip_until_recovery_token(p, &CONST_DEF_EXPR_RECOVERY);
}

// No declaration: a report, tokens that are skipped, and an Error node.
fn no_decl(p: &mut Parser, start: u32, public: bool) -> u32
    ensures { Does (no_decl start (skipping public)) p.old result p.new }
{
    emit_unexpected(p);
    skip(p, public);
    let u = open_from(p, start, node::ERROR, 0);
    close_node(p, u)
}

// After `pub`.
fn public_decl(p: &mut Parser, start: u32) -> u32
    ensures { Does (public_decl start) p.old result p.new }
{
    if eat(p, token::USE) {
        return parse_import_decl(p, start, true);
    }
    no_decl(p, start, true)
}

fn parse_decl(p: &mut Parser) -> u32
    ensures { Does parse_decl p.old result p.new }
{
    let start = p.state.cursor.at;
    match steps::eat_first(p, &CONST_DEF_EXPR_RECOVERY) {
        0 => readers::block(p, start, node::INIT_BLOCK),
        1 => readers::block(p, start, node::RUN_BLOCK),
        2 => parse_const_decl(p, start),
        3 => public_decl(p, start),
        4 => parse_import_decl(p, start, false),
        _ => no_decl(p, start, false),
    }
}

fn decls(p: &mut Parser, first: Unfinished) -> Unfinished
    ensures { Does (Loop first decl_turn) p.old result p.new }
{
    let mut file = first;
    for _turn in 0..turns_of(p.tokens) {
        if p.is_refused() {
            break;
        }
        if eof(p) {
            break;
        }
        let decl = parse_decl(p);
        file = push_child(p, file, decl);
    }
    file
}

pub fn parse_file(p: &mut Parser) -> u32
    ensures { Does parse_file p.old result p.new }
{
    let u = open_here(p, node::FILE, 0);
    let u = decls(p, u);
    close_node(p, u)
}
