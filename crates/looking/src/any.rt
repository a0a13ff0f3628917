// Any node (`NodeView` of cst/mod.rs), and its parent, which the Rust doesn't have.
ghost use Rattle.std.specs.Prelude.{◌≡◌};
ghost use Rattle.looking.specs.View.{answer, ident};
ghost use Rattle.looking.specs.Any.{kind, span, child, child_count, parent};

use crate::{Kinds, Seen, TokenSpan, count_of, kind_of, look, nth_of, payload_of, span_of};
use words::node;

// `NodeView::kind`.
pub fn kind(nodes: &[u32], n: u32) -> Seen<u32>
    ensures { answer result ≡ kind nodes.now n }
{
    kind_of(nodes, n, Kinds::ANY)
}

// `NodeView::span`, `Expr::span`, `Statement::span`.
pub fn span(nodes: &[u32], n: u32) -> Seen<TokenSpan>
    ensures { answer result ≡ span nodes.now n }
{
    span_of(nodes, n, Kinds::ANY)
}

// `NodeView::child`.
pub fn child(nodes: &[u32], n: u32, i: u32) -> Seen<u32>
    ensures { answer result ≡ child i nodes.now n }
{
    nth_of(nodes, n, Kinds::ANY, Kinds::ANY, i as u64)
}

// `NodeView::children`, counted.
pub fn child_count(nodes: &[u32], n: u32) -> Seen<usize>
    ensures { answer result ≡ child_count nodes.now n }
{
    count_of(nodes, n, Kinds::ANY, Kinds::ANY)
}

// `NodeView::ident`.
pub fn ident(nodes: &[u32], n: u32) -> Seen<u32>
    ensures { answer result ≡ ident nodes.now n }
{
    payload_of(nodes, n, Kinds::one(node::IDENTIFIER))
}

// The number in its sixth word: the node whose child it is. File has none.
pub fn parent(nodes: &[u32], n: u32) -> Seen<u32>
    ensures { answer result ≡ parent nodes.now n }
{
    let node = look(nodes, n)?;
    Ok((n != 0).then_some(node.parent))
}
