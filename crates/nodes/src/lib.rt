// The commands on nodes: a node lies in words that are lent, and is made, closed and linked here (cst/mod.rs).
#![tactic(auto)]

ghost use Rattle.std.specs.Prelude.{◌≡◌, ◌+◌, ◌*◌, ◌≤◌, length};
ghost use Rattle.std.proofs.lemmas.List.Edits.{sets};
ghost use Rattle.words.specs.Words.{node_width, node_words};
ghost use Rattle.definition.specs.Prog.{alloc, close_at, close_at_start, set_kind, link, kind_of};
ghost use Rattle.reading.specs.Does.{Does};
ghost use Rattle.nodes.specs.Words.{has_room, stored_in, word_in};

use definition::State;
use reading::Parser;
use words::{NODE_WIDTH, Node, Refusal};

// The places of a node's words, in their order.
const HEAD: u32 = 0;

const FIRST: u32 = 1;

const END: u32 = 2;

const NEXT: u32 = 3;

const CHILD: u32 = 4;

const PARENT: u32 = 5;

// The number of a node is a word, so there is a last one.
const LAST_NODE: u32 = 4294967295;

// A word of a node; of a number that no node has it is 0.
fn word_of(p: &Parser, n: u32, word: u32) -> u32
    ensures { result ≡ word_in n word p.now.state p.now.nodes.now }
{
    let at = NODE_WIDTH * (n as usize) + (word as usize);
    if p.state.nodes <= n {
        return 0;
    }
    if p.nodes.len() <= at {
        return 0;
    }
    p.nodes[at]
}

// A word of a node, written; a number that no node has is not.
fn store(state: State, nodes: &mut [u32], n: u32, word: u32, w: u32)
    ensures { nodes.new ≡ stored_in n word w state nodes.old }
{
    let at = NODE_WIDTH * (n as usize) + (word as usize);
    if state.nodes <= n {
        return;
    }
    if nodes.len() <= at {
        return;
    }
    nodes[at] = w;
}

// Whether there is room for one more node.
fn has_room(p: &Parser) -> bool
    ensures { result ≡ has_room p.now.state p.now.nodes.now }
{
    let n = p.state.nodes;
    if LAST_NODE <= n {
        return false;
    }
    NODE_WIDTH * (n as usize) + NODE_WIDTH <= p.nodes.len()
}

fn write_node(nodes: &mut [u32], n: u32, node: Node)
    requires { node_width * n + node_width ≤ length nodes.old }
    ensures { nodes.new ≡ sets nodes.old (node_width * n) (node_words node) }
{
    let w = words::node_words(node);
    let at = NODE_WIDTH * (n as usize);
    nodes[at] = w[0];
    nodes[at + 1] = w[1];
    nodes[at + 2] = w[2];
    nodes[at + 3] = w[3];
    nodes[at + 4] = w[4];
    nodes[at + 5] = w[5];
}

// A node without children, closed where it starts, where there is room for it.
pub fn alloc(p: &mut Parser, start: u32, kind: u32, payload: u32) -> u32
    ensures { Does (alloc start kind payload) p.old result p.new }
{
    if p.is_refused() {
        return 0;
    }
    if !has_room(p) {
        p.refuse(Refusal::NodesDontFit);
        return 0;
    }
    let n = p.state.nodes;
    let node = Node {
        kind,
        payload,
        first: start,
        end: start,
        next: 0,
        child: 0,
        parent: 0,
    };
    write_node(p.nodes, n, node);
    p.state.nodes = n + 1;
    n
}

// A node's end, set to a token number.
pub fn close_at(p: &mut Parser, n: u32, end: u32)
    ensures { Does (close_at n end) p.old tt p.new }
{
    store(p.state, p.nodes, n, END, end);
}

// A node's end, set to where another node starts.
pub fn close_at_start(p: &mut Parser, n: u32, other: u32)
    ensures { Does (close_at_start n other) p.old tt p.new }
{
    let start = word_of(p, other, FIRST);
    store(p.state, p.nodes, n, END, start);
}

// A node's kind and payload.
pub fn set_kind(p: &mut Parser, n: u32, kind: u32, payload: u32)
    ensures { Does (set_kind n kind payload) p.old tt p.new }
{
    let head = words::node_head(kind, payload);
    store(p.state, p.nodes, n, HEAD, head);
}

// A node's next child: its first, or the next sibling of its last, which is 0 where it has none; it tells its parent.
pub fn link(p: &mut Parser, parent: u32, last: u32, child: u32)
    ensures { Does (link parent last child) p.old tt p.new }
{
    let mut from = last;
    let mut word = NEXT;
    if last == 0 {
        from = parent;
        word = CHILD;
    }
    store(p.state, p.nodes, from, word, child);
    store(p.state, p.nodes, child, PARENT, parent);
}

// A node's kind.
pub fn kind_of(p: &mut Parser, n: u32) -> u32
    ensures { Does (kind_of n) p.old result p.new }
{
    let head = word_of(p, n, HEAD);
    words::node_kind(head)
}
