// Every accessor of the views by its number, for callers that take plain numbers. The numbers stand in `number`.
// They are no enum, as C may ask by any number: one that no accessor has tells none.
#![tactic(auto, unfolding(crate::specs::Rows::pick))]

ghost use Rattle.std.specs.Prelude.{◌≡◌};
ghost use Rattle.looking.specs.View.{answer};
ghost use Rattle.accessors.specs.Views.{number_view, span_view, count_view};

mod any;
mod branches;
mod functions;
mod items;
pub mod number;
mod operators;
mod statements;
mod structs;

use looking::{Seen, TokenSpan};

// The accessors that tell a number: a node, a name, a flag, an operator.
pub fn number_view(which: u32, nodes: &[u32], n: u32, i: u32) -> Seen<u32>
    ensures { answer result ≡ number_view which i nodes.now n }
{
    match which / 32 {
        0 => any::view(which, nodes, n, i),
        1 => items::view(which, nodes, n, i),
        2 => statements::view(which, nodes, n, i),
        3 => functions::view(which, nodes, n, i),
        4 => operators::view(which, nodes, n, i),
        5 => structs::view(which, nodes, n, i),
        6 => branches::view(which, nodes, n, i),
        _ => Ok(None),
    }
}

// The accessors that tell the tokens of a node or of a path.
pub fn span_view(which: u32, nodes: &[u32], n: u32) -> Seen<TokenSpan>
    ensures { answer result ≡ span_view which nodes.now n }
{
    match which / 32 {
        0 => any::span_view(which, nodes, n),
        1 => items::span_view(which, nodes, n),
        2 => statements::span_view(which, nodes, n),
        3 => functions::span_view(which, nodes, n),
        4 => operators::span_view(which, nodes, n),
        5 => structs::span_view(which, nodes, n),
        6 => branches::span_view(which, nodes, n),
        _ => Ok(None),
    }
}

// The accessors that tell how many there are.
pub fn count_view(which: u32, nodes: &[u32], n: u32) -> Seen<usize>
    ensures { answer result ≡ count_view which nodes.now n }
{
    match which / 32 {
        0 => any::count_view(which, nodes, n),
        1 => items::count_view(which, nodes, n),
        2 => statements::count_view(which, nodes, n),
        3 => functions::count_view(which, nodes, n),
        4 => operators::count_view(which, nodes, n),
        5 => structs::count_view(which, nodes, n),
        6 => branches::count_view(which, nodes, n),
        _ => Ok(None),
    }
}
