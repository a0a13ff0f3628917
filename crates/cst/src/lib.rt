// The concrete syntax tree: the node functions of parser/mod.rs, over the commands of crate nodes.
#![tactic(auto)]

ghost use Rattle.std.specs.Prelude.{◌≡◌, pred};
ghost use Rattle.definition.specs.Nodes.{alloc_node_from, alloc_node, close_node_at, close_node, update_kind, push_child, alloc_last_token_as_node, error_node};
ghost use Rattle.definition.specs.Expressions.{push_option, push_closing};
ghost use Rattle.reading.specs.Does.{Does};
ghost use Rattle.cst.specs.Cst.{maybe};

use definition::Unfinished;
use nodes::{alloc, close_at, close_at_start, link, set_kind};
use reading::Parser;

// `alloc_node_from`
pub fn open_from(p: &mut Parser, start: u32, kind: u32, payload: u32) -> Unfinished
    ensures { Does (alloc_node_from start kind payload) p.old result p.new }
{
    Unfinished {
        node: alloc(p, start, kind, payload),
        last: 0,
    }
}

// `alloc_node`
pub fn open_here(p: &mut Parser, kind: u32, payload: u32) -> Unfinished
    ensures { Does (alloc_node kind payload) p.old result p.new }
{
    let start = p.state.cursor.at;
    open_from(p, start, kind, payload)
}

pub fn close_node_at(p: &mut Parser, u: Unfinished, end: u32) -> u32
    ensures { Does (close_node_at u end) p.old result p.new }
{
    close_at(p, u.node, end);
    u.node
}

pub fn close_node(p: &mut Parser, u: Unfinished) -> u32
    ensures { Does (close_node u) p.old result p.new }
{
    let end = p.state.cursor.at;
    close_node_at(p, u, end)
}

pub fn update_kind(p: &mut Parser, u: Unfinished, kind: u32, payload: u32)
    ensures { Does (update_kind u kind payload) p.old tt p.new }
{
    set_kind(p, u.node, kind, payload);
}

pub fn push_child(p: &mut Parser, parent: Unfinished, child: u32) -> Unfinished
    ensures { Does (push_child parent child) p.old result p.new }
{
    link(p, parent.node, parent.last, child);
    Unfinished {
        node: parent.node,
        last: child,
    }
}

pub fn alloc_last_token_as_node(p: &mut Parser, kind: u32, payload: u32) -> u32
    ensures { Does (alloc_last_token_as_node kind payload) p.old result p.new }
{
    let start = previous(p.state.cursor.at);
    let made = open_from(p, start, kind, payload);
    close_node(p, made)
}

// The node of what is missing.
pub fn error_node(p: &mut Parser) -> u32
    ensures { Does error_node p.old result p.new }
{
    let made = open_here(p, words::node::ERROR, 0);
    close_node(p, made)
}

// A child where there is one.
pub fn push_option(p: &mut Parser, parent: Unfinished, child: Option<u32>) -> Unfinished
    ensures { Does (push_option parent (maybe child)) p.old result p.new }
{
    match child {
        None => parent,
        Some(n) => push_child(p, parent, n),
    }
}

// What closes a node after a list: where it starts, the list ends.
pub fn push_closing(p: &mut Parser, parent: Unfinished, list: u32, child: Option<u32>) -> Unfinished
    ensures { Does (push_closing parent list (maybe child)) p.old result p.new }
{
    match child {
        None => parent,
        Some(n) => {
            close_at_start(p, list, n);
            push_child(p, parent, n)
        }
    }
}

// The number before; 0 has none.
pub fn previous(n: u32) -> u32
    ensures { result ≡ pred n }
{
    if n == 0 {
        return 0;
    }
    n - 1
}
