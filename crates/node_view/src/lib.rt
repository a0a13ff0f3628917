// A view of a node, which keeps the node words it looks at (`NodeView` of cst/mod.rs; its `parent` is not the Rust's). Each method takes it
// apart and asks crate looking; the functions behind them make a view of plain words and ask it.
#![tactic(auto, unfolding(looking::specs::View::and_then))]

ghost use Rattle.std.specs.Prelude.{◌≡◌};
ghost use Rattle.looking.specs.View.{answer, ident, name_of};
ghost use Rattle.words.specs.Node;
ghost use Rattle.looking.specs.Any.{kind, span, child, child_count, parent};

use looking::{Seen, TokenSpan, any};

#[derive(Clone, Copy)]
pub struct NodeView<'a> {
    pub nodes: &'a [u32],
    pub n: u32,
}

impl<'a> NodeView<'a> {
    // A view of any node of any words: nothing is looked at yet.
    pub fn new(nodes: &'a [u32], n: u32) -> NodeView<'a>
        ensures { (result.nodes ≡ nodes.entry) × (result.n ≡ n) }
    {
        NodeView { nodes, n }
    }

    // A view of another node of the same words, such as a child.
    pub fn at(self, n: u32) -> NodeView<'a>
        ensures { (result.nodes ≡ self.entry.nodes) × (result.n ≡ n) }
    {
        NodeView {
            nodes: self.nodes,
            n,
        }
    }

    // `NodeView::kind`.
    pub fn kind(self) -> Seen<u32>
        ensures { answer result ≡ kind self.entry.nodes.now self.entry.n }
    {
        any::kind(self.nodes, self.n)
    }

    // `NodeView::span`.
    pub fn span(self) -> Seen<TokenSpan>
        ensures { answer result ≡ span self.entry.nodes.now self.entry.n }
    {
        any::span(self.nodes, self.n)
    }

    // `NodeView::child`: the child's number, of which `at` makes a view.
    pub fn child(self, i: u32) -> Seen<u32>
        ensures { answer result ≡ child i self.entry.nodes.now self.entry.n }
    {
        any::child(self.nodes, self.n, i)
    }

    // `NodeView::children`, counted.
    pub fn child_count(self) -> Seen<usize>
        ensures { answer result ≡ child_count self.entry.nodes.now self.entry.n }
    {
        any::child_count(self.nodes, self.n)
    }

    // `NodeView::ident`.
    pub fn ident(self) -> Seen<u32>
        ensures { answer result ≡ ident self.entry.nodes.now self.entry.n }
    {
        any::ident(self.nodes, self.n)
    }

    // The number of the node whose child it is; File has none.
    pub fn parent(self) -> Seen<u32>
        ensures { answer result ≡ parent self.entry.nodes.now self.entry.n }
    {
        any::parent(self.nodes, self.n)
    }
}

// The methods, for callers that have plain words.
pub fn kind_at(nodes: &[u32], n: u32) -> Seen<u32>
    ensures { answer result ≡ kind nodes.now n }
{
    NodeView::new(nodes, n).kind()
}

pub fn span_at(nodes: &[u32], n: u32) -> Seen<TokenSpan>
    ensures { answer result ≡ span nodes.now n }
{
    NodeView::new(nodes, n).span()
}

pub fn child_at(nodes: &[u32], n: u32, i: u32) -> Seen<u32>
    ensures { answer result ≡ child i nodes.now n }
{
    NodeView::new(nodes, n).child(i)
}

pub fn child_count_at(nodes: &[u32], n: u32) -> Seen<usize>
    ensures { answer result ≡ child_count nodes.now n }
{
    NodeView::new(nodes, n).child_count()
}

pub fn ident_at(nodes: &[u32], n: u32) -> Seen<u32>
    ensures { answer result ≡ ident nodes.now n }
{
    NodeView::new(nodes, n).ident()
}

pub fn parent_at(nodes: &[u32], n: u32) -> Seen<u32>
    ensures { answer result ≡ parent nodes.now n }
{
    NodeView::new(nodes, n).parent()
}

// `child(i).and_then(NodeView::ident)`: a caller with no view of its own, which the borrow checker covers.
pub fn child_ident(nodes: &[u32], n: u32, i: u32) -> Seen<u32>
    ensures { answer result ≡ name_of Node.File Node.Error i nodes.now n }
{
    let view = NodeView::new(nodes, n);
    let Some(child) = view.child(i)? else {
        return Ok(None);
    };
    view.at(child).ident()
}
