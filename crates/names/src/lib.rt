// Names: `try_parse_ident`, `try_parse_builtin_name` and `expect_ident` of parser/mod.rs.
#![tactic(auto)]

ghost use Rattle.std.specs.Prelude.{◌≡◌};
ghost use Rattle.definition.specs.Nodes.{try_parse_ident, try_parse_builtin_name, expect_ident};
ghost use Rattle.reading.specs.Does.{Does};
ghost use Rattle.cst.specs.Cst.{maybe};
ghost use Rattle.cst.specs.Payload.{cut};
ghost use Rattle.names.specs.Names.{interned_at, tell_builtin, no_ident};

use reading::Parser;
use words::{node, token};

// What a payload of 26 bits can tell apart.
const PAYLOADS: usize = 67108864;

// `intern`: the payload of a name whose token, of this kind, was just passed. It is the number of the first token that
// is spelled alike, cut as the node's head would cut it.
pub fn intern(p: &Parser, kind: u32) -> u32
    ensures { result ≡ cut (interned_at kind p.now) }
{
    let last = cst::previous(p.state.cursor.at);
    let first = interner::first_of(p.text, p.tokens, kind, last);
    (first % PAYLOADS) as u32
}

pub fn try_parse_ident(p: &mut Parser) -> Option<u32>
    ensures { Does try_parse_ident p.old (maybe result) p.new }
{
    if !stream::eat(p, token::IDENTIFIER) {
        return None;
    }
    let ident = intern(p, token::IDENTIFIER);
    Some(cst::alloc_last_token_as_node(p, node::IDENTIFIER, ident))
}

pub fn try_parse_builtin_name(p: &mut Parser) -> Option<u32>
    ensures { Does try_parse_builtin_name p.old (maybe result) p.new }
{
    if !stream::eat(p, token::BUILTIN_NAME) {
        return None;
    }
    let ident = intern(p, token::BUILTIN_NAME);
    Some(cst::alloc_last_token_as_node(p, node::BUILTIN_NAME, ident))
}

// A builtin's name is no name of one's own; that is reported once at a token.
fn tell_builtin(p: &mut Parser)
    ensures { Does tell_builtin p.old tt p.new }
{
    if stream::is_marked(p) {
        return;
    }
    let i = p.state.cursor.at;
    let start = stream::token_start(p.tokens, i);
    let end = stream::token_end(p.tokens, i);
    stream::emit_and_mark(p, words::report::BUILTIN_AS_NAME, 0, start, end);
}

// The node that stands for a name where there is none.
fn no_ident(p: &mut Parser) -> u32
    ensures { Does no_ident p.old result p.new }
{
    if stream::check(p, token::BUILTIN_NAME) {
        tell_builtin(p);
        stream::pass(p);
        return cst::alloc_last_token_as_node(p, node::ERROR, 0);
    }
    stream::emit_unexpected(p);
    cst::error_node(p)
}

pub fn expect_ident(p: &mut Parser) -> u32
    ensures { Does expect_ident p.old result p.new }
{
    match try_parse_ident(p) {
        Some(n) => n,
        None => no_ident(p),
    }
}
