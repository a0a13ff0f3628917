// Walks over node words for an editor: up to the declaration that holds a node, and down to the innermost node that covers a token.
// Any words, any number: each node that is passed is looked at, and a ring of links ends with none.
#![tactic(auto, using(std::proofs::lemmas::Bool::Decides::nat_tests), unfolding(looking::specs::View::and_then))]

ghost use Rattle.std.specs.Prelude.{◌≡◌};
ghost use Rattle.looking.specs.View.{answer, turns};
ghost use Rattle.walking.specs.Walks.{enclosing_declaration, covers, innermost, node_at_token};

use looking::{Seen, any, look, turns};
use words::Node;

// From a node up to the child of File that holds it, or that it is.
pub fn enclosing_declaration(nodes: &[u32], n: u32) -> Seen<u32>
    ensures { answer result ≡ enclosing_declaration nodes.now n }
{
    let mut at = n;
    for _turn in 0..turns(nodes) {
        match any::parent(nodes, at)? {
            None => return Ok(None),
            Some(0) => return Ok(Some(at)),
            Some(above) => at = above,
        }
    }
    Ok(None)
}

// Whether token `t` is one of a node's.
fn covers(t: u32, node: Node) -> bool
    ensures { result ≡ covers t node }
{
    node.first <= t && t < node.end
}

// Of the siblings from `first` on, which `n` holds, and all below them, the innermost that covers token `t`; or `n`.
fn innermost(nodes: &[u32], t: u32, n: u32, first: u32) -> Seen<u32>
    ensures { answer result ≡ innermost (turns nodes.now) t nodes.now n first }
{
    let mut outer = n;
    let mut at = first;
    for _turn in 0..turns(nodes) {
        if at == 0 {
            return Ok(Some(outer));
        }
        let node = look(nodes, at)?;
        if covers(t, node) {
            outer = at;
            at = node.child;
        } else {
            at = node.next;
        }
    }
    Ok((at == 0).then_some(outer))
}

// Of a node and all below it, the innermost that covers token `t`: its first token is not after `t`, and its end is.
pub fn node_at_token(nodes: &[u32], n: u32, t: u32) -> Seen<u32>
    ensures { answer result ≡ node_at_token t nodes.now n }
{
    let node = look(nodes, n)?;
    if !covers(t, node) {
        return Ok(None);
    }
    innermost(nodes, t, n, node.child)
}
