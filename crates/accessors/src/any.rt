// Accessors by number: any node, which node an expression is, and where a node stands.
ghost use Rattle.std.specs.Prelude.{◌≡◌};
ghost use Rattle.looking.specs.View.{none, answer};
ghost use Rattle.accessors.specs.Rows.{pick};
ghost use Rattle.accessors.specs.Any.{numbers, spans, counts};

use crate::number;
use expr::{expr, struct_body};
use looking::{Seen, TokenSpan};
use node_view::{child_at, child_count_at, ident_at, kind_at, parent_at, span_at};
use walking::{enclosing_declaration, node_at_token};

// The accessor with this number, of a node.
pub(crate) fn view(which: u32, nodes: &[u32], n: u32, i: u32) -> Seen<u32>
    ensures { answer result ≡ pick none (numbers i nodes.now n) which }
{
    match which {
        number::KIND => kind_at(nodes, n),
        number::CHILD => child_at(nodes, n, i),
        number::IDENT => ident_at(nodes, n),
        number::EXPR => expr(nodes, n),
        number::STRUCT_BODY => struct_body(nodes, n),
        number::PARENT => parent_at(nodes, n),
        number::ENCLOSING_DECLARATION => enclosing_declaration(nodes, n),
        number::NODE_AT_TOKEN => node_at_token(nodes, n, i),
        _ => Ok(None),
    }
}

// The accessor that tells tokens with this number, of a node.
pub(crate) fn span_view(which: u32, nodes: &[u32], n: u32) -> Seen<TokenSpan>
    ensures { answer result ≡ pick none (spans nodes.now n) which }
{
    match which {
        number::SPAN => span_at(nodes, n),
        _ => Ok(None),
    }
}

// The accessor that counts with this number, of a node.
pub(crate) fn count_view(which: u32, nodes: &[u32], n: u32) -> Seen<usize>
    ensures { answer result ≡ pick none (counts nodes.now n) which }
{
    match which {
        number::CHILD_COUNT => child_count_at(nodes, n),
        _ => Ok(None),
    }
}
