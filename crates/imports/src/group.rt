// The group of an import: `parse_import_group` and `parse_import_group_item` of parser/mod.rs.
ghost use Rattle.words.specs.Token;
ghost use Rattle.literals.specs.Spelling.{span};
ghost use Rattle.definition.specs.Prog.{Loop};
ghost use Rattle.definition.specs.Tokens.{parse_delimited};
ghost use Rattle.definition.specs.Declarations.{path_turn, parse_import_group_item, group_item, parse_import_group};
ghost use Rattle.reading.specs.Does.{Does};
ghost use Rattle.stream.specs.Commands.{turn_if};
ghost use Rattle.stream.specs.Delimited.{elements};
ghost use Rattle.imports.specs.Group.{path_in_group, with_alias, star_in_group, with_item, group_of, Grows, tell_count};

use definition::Unfinished;
use reading::{Parser, report};
use recovery::list_ends;
use words::token::RIGHT_CURLY;
use words::{node, token};

// A group, and how many items it has.
#[derive(Clone, Copy)]
struct Items {
    pub node: Unfinished,
    pub count: usize,
}

// One turn of the loop below: whether it goes on.
fn path_turn(p: &mut Parser) -> bool
    ensures { Does (path_turn tt) p.old (turn_if result) p.new }
{
    if stream::eat(p, token::DOUBLE_COLON) && stream::check(p, token::IDENTIFIER) {
        stream::pass(p);
        return true;
    }
    false
}

// The rest of a path is passed.
fn skip_path(p: &mut Parser)
    ensures { Does (Loop tt path_turn) p.old tt p.new }
{
    for _turn in 0..stream::turns_of(p.tokens) {
        if p.is_refused() {
            break;
        }
        if !path_turn(p) {
            break;
        }
    }
}

// An item is a name alone; a path is reported at its first name.
fn path_in_group(p: &mut Parser, start: u32, end: u32)
    ensures { Does (path_in_group (span start end)) p.old tt p.new }
{
    if stream::check(p, token::DOUBLE_COLON) {
        skip_path(p);
        report::emit(p, words::report::PATH_IN_GROUP, 0, start, end);
    }
}

// An item's other name, where it has one.
fn push_alias(p: &mut Parser, item: Unfinished) -> Unfinished
    ensures { Does (with_alias item) p.old result p.new }
{
    if stream::eat(p, token::AS) {
        let alias = names::expect_ident(p);
        return cst::push_child(p, item, alias);
    }
    item
}

fn parse_import_group_item(p: &mut Parser) -> u32
    ensures { Does parse_import_group_item p.old result p.new }
{
    let item = cst::open_here(p, node::IMPORT_GROUP_ITEM, 0);
    let name = names::expect_ident(p);
    let i = p.state.cursor.at;
    let start = stream::before_start(p.tokens, i);
    let end = stream::token_start(p.tokens, i);
    let named = cst::push_child(p, item, name);
    path_in_group(p, start, end);
    let whole = push_alias(p, named);
    cst::close_node(p, whole)
}

// A star, which a group may not have, is reported.
fn star_in_group(p: &mut Parser)
    ensures { Does star_in_group p.old tt p.new }
{
    let i = p.state.cursor.at;
    let start = stream::before_start(p.tokens, i);
    let end = stream::token_start(p.tokens, i);
    report::emit(p, words::report::STAR_IN_GROUP, 0, start, end);
}

// A group with the item that comes next.
fn push_item(p: &mut Parser, group: Unfinished) -> Unfinished
    ensures { Does (with_item group) p.old result p.new }
{
    let item = parse_import_group_item(p);
    cst::push_child(p, group, item)
}

// A group with one item more, where there is one; a star counts as one.
fn group_item(p: &mut Parser, group: Unfinished) -> Option<Unfinished>
    ensures { Grows group p.old result p.new }
{
    if stream::eat(p, token::STAR) {
        star_in_group(p);
        return Some(group);
    }
    if stream::check(p, token::IDENTIFIER) {
        return Some(push_item(p, group));
    }
    None
}

// The items, without the braces around them.
fn group_items(p: &mut Parser, group: Unfinished) -> Items
    ensures { Does (elements Token.RightCurly Token.Comma group_item (group_of group 0)) p.old (group_of result.node result.count) p.new }
{
    let mut node = group;
    let mut count = 0;
    let mut emitted = false;
    for _turn in 0..stream::turns_of(p.tokens) {
        if p.is_refused() {
            break;
        }
        match group_item(p, node) {
            Some(next) => {
                node = next;
                count += 1;
                emitted = false;
                if !stream::eat(p, token::COMMA) {
                    break;
                }
            }
            None => {
                if list_ends(p, RIGHT_CURLY) {
                    break;
                }
                recovery::pass_unexpected(p, emitted);
                emitted = true;
            }
        }
    }
    Items { node, count }
}

// The items with their braces.
fn braced_items(p: &mut Parser, group: Unfinished) -> Items
    ensures { Does (parse_delimited Token.LeftCurly Token.RightCurly Token.Comma group_item (group_of group 0)) p.old (group_of result.node result.count) p.new }
{
    stream::expect(p, token::LEFT_CURLY);
    let items = group_items(p, group);
    stream::expect(p, token::RIGHT_CURLY);
    items
}

// A group has more than one item; another is reported at its brace.
fn tell_count(p: &mut Parser, count: usize, start: u32, end: u32)
    ensures { Does (tell_count count (span start end)) p.old tt p.new }
{
    match count {
        0 => report::emit(p, words::report::EMPTY_GROUP, 0, start, end),
        1 => report::emit(p, words::report::NEEDLESS_BRACES, 0, start, end),
        _ => {}
    }
}

pub(crate) fn parse_import_group(p: &mut Parser, group: Unfinished) -> u32
    ensures { Does (parse_import_group group) p.old result p.new }
{
    stream::peek(p);
    let i = p.state.cursor.at;
    let start = stream::token_start(p.tokens, i);
    let end = stream::token_end(p.tokens, i);
    let items = braced_items(p, group);
    tell_count(p, items.count, start, end);
    stream::expect(p, token::SEMICOLON);
    cst::close_node(p, items.node)
}
