// A look at node words: any words, any node number. The answer is the thing, none, or refusal 8 where words that are looked at were altered.
#![tactic(auto, unfolding(crate::specs::View::and_then))]

ghost use Rattle.std.specs.Prelude.{◌≡◌, ◌+◌, ◌*◌, ◌<◌};
ghost use Rattle.looking.specs.View.{answer, fields, among, count, node_at, look, nth, counted, turns};
ghost use Rattle.looking.specs.View.{of, nth_of, count_of, payload_of, new_of, name_of, inner_of, inner_count, new_child};
ghost use Rattle.looking.specs.View.{span_of, span_child, kind_of, flag_of, payload_child};

pub mod any;

use words::{NODE_WIDTH, Node, node};

// The words of this node were altered.
#[derive(Clone, Copy, Debug, PartialEq, Eq)]
pub struct Altered {
    pub node: u32,
}

// What a view finds: the thing or none, unless words that it looks at were altered.
pub type Seen<T> = Result<Option<T>, Altered>;

// The tokens of a node: its first, and the one past its last.
#[derive(Clone, Copy, Debug, PartialEq, Eq)]
pub struct TokenSpan {
    pub start: u32,
    pub end: u32,
}

// The kinds from one to another.
#[derive(Clone, Copy, Debug, PartialEq, Eq)]
pub struct Kinds {
    pub from: u32,
    pub to: u32,
}

impl Kinds {
    pub const ANY: Kinds = Kinds {
        from: node::FILE,
        to: node::ERROR,
    };

    pub const BLOCKS: Kinds = Kinds {
        from: node::INIT_BLOCK,
        to: node::BLOCK,
    };

    pub const PARAMETERS: Kinds = Kinds {
        from: node::PARAMETER,
        to: node::COMPTIME_PARAMETER,
    };

    pub const WHILES: Kinds = Kinds {
        from: node::WHILE_STMT,
        to: node::INLINE_WHILE_STMT,
    };

    pub fn one(kind: u32) -> Kinds
        ensures { (result.from ≡ kind) × (result.to ≡ kind) }
    {
        Kinds {
            from: kind,
            to: kind,
        }
    }

    fn holds(self, kind: u32) -> bool
        ensures { result ≡ among self.from self.to kind }
    {
        self.from <= kind && kind <= self.to
    }
}

// The words of a node that is there.
fn node_at(nodes: &[u32], n: u32) -> Node
    requires { n < count nodes.now }
    ensures { result ≡ node_at nodes.now n }
{
    let at = NODE_WIDTH * (n as usize);
    words::node_of([
        nodes[at],
        nodes[at + 1],
        nodes[at + 2],
        nodes[at + 3],
        nodes[at + 4],
        nodes[at + 5],
    ])
}

#[tactic(auto, using(std::proofs::lemmas::Bool::Decides::nat_tests), unfolding(crate::specs::View::look, crate::specs::View::sound))]
pub fn look(nodes: &[u32], n: u32) -> Result<Node, Altered>
    ensures { fields result ≡ look nodes.now n }
{
    if nodes.len() / NODE_WIDTH <= n as usize {
        return Err(Altered { node: n });
    }
    let found = node_at(nodes, n);
    if node::ERROR < found.kind || found.next != 0 && found.next <= n {
        return Err(Altered { node: n });
    }
    Ok(found)
}

// The turns that a walk may take: one more than there are nodes.
pub fn turns(nodes: &[u32]) -> usize
    ensures { result ≡ turns nodes.now }
{
    nodes.len() / NODE_WIDTH + 1
}

// No kind stops a walk: one above the last.
pub const NO_STOP: u32 = 50;

// A node whose kind is one of `kinds`.
#[tactic(auto, unfolding(crate::specs::View::of, crate::specs::View::and_then))]
pub fn of(nodes: &[u32], n: u32, kinds: Kinds) -> Seen<Node>
    ensures { answer result ≡ of kinds.from kinds.to nodes.now n }
{
    let node = look(nodes, n)?;
    Ok(kinds.holds(node.kind).then_some(node))
}

// Of a node of `kinds`, the i-th child whose kind is one of `wanted`.
pub fn nth_of(nodes: &[u32], n: u32, kinds: Kinds, wanted: Kinds, i: u64) -> Seen<u32>
    ensures { answer result ≡ nth_of kinds.from kinds.to wanted.from wanted.to i nodes.now n }
{
    let Some(node) = of(nodes, n, kinds)? else {
        return Ok(None);
    };
    nth(nodes, node.child, NO_STOP, wanted, i)
}

// How many there are of these.
pub fn count_of(nodes: &[u32], n: u32, kinds: Kinds, wanted: Kinds) -> Seen<usize>
    ensures { answer result ≡ count_of kinds.from kinds.to wanted.from wanted.to nodes.now n }
{
    let Some(node) = of(nodes, n, kinds)? else {
        return Ok(None);
    };
    counted(nodes, node.child, NO_STOP, wanted)
}

pub fn payload_of(nodes: &[u32], n: u32, kinds: Kinds) -> Seen<u32>
    ensures { answer result ≡ payload_of kinds.from kinds.to nodes.now n }
{
    Ok(of(nodes, n, kinds)?.map(|node| node.payload))
}

// The number itself of a node of `kinds`.
pub fn new_of(nodes: &[u32], n: u32, kinds: Kinds) -> Seen<u32>
    ensures { answer result ≡ new_of kinds.from kinds.to nodes.now n }
{
    Ok(of(nodes, n, kinds)?.map(|_| n))
}

// Of the siblings from `first` on, up to one of kind `stop`, the i-th whose kind is one of `wanted`.
pub fn nth(nodes: &[u32], first: u32, stop: u32, wanted: Kinds, i: u64) -> Seen<u32>
    ensures { answer result ≡ nth (turns nodes.now) stop wanted.from wanted.to nodes.now first i }
{
    let mut at = first;
    let mut left = i;
    for _turn in 0..turns(nodes) {
        if at == 0 {
            return Ok(None);
        }
        let node = look(nodes, at)?;
        if node.kind == stop {
            return Ok(None);
        }
        if wanted.holds(node.kind) {
            if left == 0 {
                return Ok(Some(at));
            }
            left -= 1;
        }
        at = node.next;
    }
    Ok(None)
}

// How many of the siblings from `first` on, up to one of kind `stop`, have a kind of `wanted`.
pub fn counted(nodes: &[u32], first: u32, stop: u32, wanted: Kinds) -> Seen<usize>
    ensures { answer result ≡ counted (turns nodes.now) stop wanted.from wanted.to nodes.now first 0 }
{
    let mut at = first;
    let mut sum = 0;
    for _turn in 0..turns(nodes) {
        if at == 0 {
            break;
        }
        let node = look(nodes, at)?;
        if node.kind == stop {
            break;
        }
        at = node.next;
        if wanted.holds(node.kind) {
            sum += 1;
        }
    }
    Ok(Some(sum))
}

// The name that the i-th child of a node of `kinds` is.
pub fn name_of(nodes: &[u32], n: u32, kinds: Kinds, i: u64) -> Seen<u32>
    ensures { answer result ≡ name_of kinds.from kinds.to i nodes.now n }
{
    payload_child(nodes, n, kinds, i, Kinds::one(node::IDENTIFIER))
}

// Of the k-th child of a node of `kinds`, the i-th child whose kind is one of `wanted`.
pub fn inner_of(nodes: &[u32], n: u32, kinds: Kinds, k: u64, wanted: Kinds, i: u64) -> Seen<u32>
    ensures { answer result ≡ inner_of kinds.from kinds.to k wanted.from wanted.to i nodes.now n }
{
    let Some(child) = nth_of(nodes, n, kinds, Kinds::ANY, k)? else {
        return Ok(None);
    };
    nth_of(nodes, child, Kinds::ANY, wanted, i)
}

// How many these are.
pub fn inner_count(nodes: &[u32], n: u32, kinds: Kinds, k: u64, wanted: Kinds) -> Seen<usize>
    ensures { answer result ≡ inner_count kinds.from kinds.to k wanted.from wanted.to nodes.now n }
{
    let Some(child) = nth_of(nodes, n, kinds, Kinds::ANY, k)? else {
        return Ok(None);
    };
    count_of(nodes, child, Kinds::ANY, wanted)
}

// The i-th child of a node of `kinds`, where the child's kind is one of `wanted`.
pub fn new_child(nodes: &[u32], n: u32, kinds: Kinds, i: u64, wanted: Kinds) -> Seen<u32>
    ensures { answer result ≡ new_child kinds.from kinds.to i wanted.from wanted.to nodes.now n }
{
    let Some(child) = nth_of(nodes, n, kinds, Kinds::ANY, i)? else {
        return Ok(None);
    };
    new_of(nodes, child, wanted)
}

pub fn span_of(nodes: &[u32], n: u32, kinds: Kinds) -> Seen<TokenSpan>
    ensures { answer result ≡ span_of kinds.from kinds.to nodes.now n }
{
    Ok(of(nodes, n, kinds)?.map(|node| TokenSpan {
        start: node.first,
        end: node.end,
    }))
}

// The tokens of the i-th child of a node of `kinds`, where the child's kind is one of `wanted`.
pub fn span_child(nodes: &[u32], n: u32, kinds: Kinds, i: u64, wanted: Kinds) -> Seen<TokenSpan>
    ensures { answer result ≡ span_child kinds.from kinds.to i wanted.from wanted.to nodes.now n }
{
    let Some(child) = nth_of(nodes, n, kinds, Kinds::ANY, i)? else {
        return Ok(None);
    };
    span_of(nodes, child, wanted)
}

// The kind of a node of `kinds`, as its place among these.
pub fn kind_of(nodes: &[u32], n: u32, kinds: Kinds) -> Seen<u32>
    ensures { answer result ≡ kind_of kinds.from kinds.to nodes.now n }
{
    Ok(of(nodes, n, kinds)?.map(|node| node.kind.saturating_sub(kinds.from)))
}

// A flag of a node of `kinds`: 1 where it is set, 0 where not. 0 is no flag.
pub fn flag_of(nodes: &[u32], n: u32, kinds: Kinds, flag: u32) -> Seen<u32>
    ensures { answer result ≡ flag_of kinds.from kinds.to flag nodes.now n }
{
    let Some(payload) = payload_of(nodes, n, kinds)? else {
        return Ok(None);
    };
    Ok(payload.checked_div(flag).map(|flags| flags % 2))
}

// The payload of the i-th child of a node of `kinds`, where the child's kind is one of `wanted`.
pub fn payload_child(nodes: &[u32], n: u32, kinds: Kinds, i: u64, wanted: Kinds) -> Seen<u32>
    ensures { answer result ≡ payload_child kinds.from kinds.to i wanted.from wanted.to nodes.now n }
{
    let Some(child) = nth_of(nodes, n, kinds, Kinds::ANY, i)? else {
        return Ok(None);
    };
    payload_of(nodes, child, wanted)
}
