// Imports: `parse_import_decl` of parser/mod.rs.
#![tactic(auto)]

ghost use Rattle.std.proofs.Math.Option.{none};
ghost use Rattle.definition.specs.Prog.{Loop};
ghost use Rattle.definition.specs.Declarations.{glob_import, group_import, import_turn, import_as, parse_import_decl};
ghost use Rattle.reading.specs.Does.{Does};
ghost use Rattle.cst.specs.Cst.{maybe};
ghost use Rattle.imports.specs.Import.{so_far, turn_to, import_part, as_name, as_decl, import_end, import_rest};

use definition::Unfinished;
use reading::Parser;
use words::{flag, node, token};

mod group;

// The path so far, and the whole declaration's node where it ends in the path: in a star or a group.
#[derive(Clone, Copy)]
struct Import {
    pub path: Unfinished,
    pub whole: Option<u32>,
}

// The same after a turn, and whether there is another.
#[derive(Clone, Copy)]
struct ImportTurn {
    pub on: bool,
    pub path: Unfinished,
    pub whole: Option<u32>,
}

fn glob_import(p: &mut Parser, public: bool, path: Unfinished) -> ImportTurn
    ensures { Does (glob_import public path) p.old (turn_to result.on (so_far result.path (maybe result.whole))) p.new }
{
    cst::update_kind(p, path, node::IMPORT_DECL, answers::glob_flags(public));
    stream::expect(p, token::SEMICOLON);
    let made = cst::close_node(p, path);
    ImportTurn {
        on: false,
        path,
        whole: Some(made),
    }
}

fn group_import(p: &mut Parser, public: bool, path: Unfinished) -> ImportTurn
    ensures { Does (group_import public path) p.old (turn_to result.on (so_far result.path (maybe result.whole))) p.new }
{
    let flags = answers::flag(public, flag::IMPORT_GROUP_DECL_PUBLIC);
    cst::update_kind(p, path, node::IMPORT_GROUP_DECL, flags);
    let made = group::parse_import_group(p, path);
    ImportTurn {
        on: false,
        path,
        whole: Some(made),
    }
}

// What stands after two colons.
fn import_part(p: &mut Parser, public: bool, path: Unfinished) -> ImportTurn
    ensures { Does (import_part public path) p.old (turn_to result.on (so_far result.path (maybe result.whole))) p.new }
{
    if stream::eat(p, token::STAR) {
        return glob_import(p, public, path);
    }
    if stream::check(p, token::LEFT_CURLY) {
        return group_import(p, public, path);
    }
    let ident = names::expect_ident(p);
    ImportTurn {
        on: true,
        path: cst::push_child(p, path, ident),
        whole: None,
    }
}

// One turn of the loop below.
fn import_turn(p: &mut Parser, public: bool, path: Unfinished, whole: Option<u32>) -> ImportTurn
    ensures { Does (import_turn public (so_far path (maybe whole))) p.old (turn_to result.on (so_far result.path (maybe result.whole))) p.new }
{
    if stream::eat(p, token::DOUBLE_COLON) {
        return import_part(p, public, path);
    }
    ImportTurn {
        on: false,
        path,
        whole,
    }
}

// The path after its first name.
fn import_path(p: &mut Parser, public: bool, first: Unfinished) -> Import
    ensures { Does (Loop (so_far first none) (import_turn public)) p.old (so_far result.path (maybe result.whole)) p.new }
{
    let mut path = first;
    let mut whole = None;
    for _turn in 0..stream::turns_of(p.tokens) {
        if p.is_refused() {
            break;
        }
        let turn = import_turn(p, public, path, whole);
        path = turn.path;
        whole = turn.whole;
        if !turn.on {
            break;
        }
    }
    Import { path, whole }
}

// The name that an import gives.
fn as_name(p: &mut Parser, import: Unfinished) -> u32
    ensures { Does (as_name import) p.old result p.new }
{
    stream::expect(p, token::AS);
    let name = names::expect_ident(p);
    let named = cst::push_child(p, import, name);
    stream::expect(p, token::SEMICOLON);
    cst::close_node(p, named)
}

// The import that has a path's node.
fn as_decl(p: &mut Parser, start: u32, public: bool, path: u32) -> u32
    ensures { Does (as_decl start public path) p.old result p.new }
{
    let flags = answers::flag(public, flag::IMPORT_AS_DECL_PUBLIC);
    let import = cst::open_from(p, start, node::IMPORT_AS_DECL, flags);
    let pushed = cst::push_child(p, import, path);
    as_name(p, pushed)
}

// An import under another name.
fn import_as(p: &mut Parser, start: u32, public: bool, path: Unfinished) -> u32
    ensures { Does (import_as start public path) p.old result p.new }
{
    cst::update_kind(p, path, node::IMPORT_PATH, 0);
    let closed = cst::close_node(p, path);
    as_decl(p, start, public, closed)
}

// The end of an import that is no star and no group.
fn import_end(p: &mut Parser, start: u32, public: bool, path: Unfinished) -> u32
    ensures { Does (import_end start public path) p.old result p.new }
{
    if stream::eat(p, token::SEMICOLON) {
        return cst::close_node(p, path);
    }
    import_as(p, start, public, path)
}

// What stands after the first name.
fn import_rest(p: &mut Parser, start: u32, public: bool, path: Unfinished) -> u32
    ensures { Does (import_rest start public path) p.old result p.new }
{
    let read = import_path(p, public, path);
    match read.whole {
        Some(n) => n,
        None => import_end(p, start, public, read.path),
    }
}

pub fn parse_import_decl(p: &mut Parser, start: u32, public: bool) -> u32
    ensures { Does (parse_import_decl start public) p.old result p.new }
{
    let flags = answers::flag(public, flag::IMPORT_DECL_PUBLIC);
    let opened = cst::open_from(p, start, node::IMPORT_DECL, flags);
    let ident = names::expect_ident(p);
    let pushed = cst::push_child(p, opened, ident);
    import_rest(p, start, public, pushed)
}
