// Accessors by number: blocks and statements.
ghost use Rattle.std.specs.Prelude.{◌≡◌};
ghost use Rattle.looking.specs.View.{none, answer};
ghost use Rattle.accessors.specs.Rows.{pick};
ghost use Rattle.accessors.specs.Statements.{numbers, spans, counts};

use crate::number;
use looking::{Seen, TokenSpan};
use views::statements::{
    assign_stmt_target, assign_stmt_value, block, block_end_expr, block_statement,
    block_statement_count, let_stmt, let_stmt_comptime, let_stmt_mutable, let_stmt_name,
    let_stmt_name_span, let_stmt_span, let_stmt_type_expr, let_stmt_value, return_stmt_value,
    statement, while_stmt, while_stmt_body, while_stmt_condition, while_stmt_inline,
};

// The accessor with this number, of a node.
pub(crate) fn view(which: u32, nodes: &[u32], n: u32, i: u32) -> Seen<u32>
    ensures { answer result ≡ pick none (numbers i nodes.now n) which }
{
    match which {
        number::BLOCK => block(nodes, n),
        number::BLOCK_STATEMENT => block_statement(nodes, n, i),
        number::BLOCK_END_EXPR => block_end_expr(nodes, n),
        number::LET_STMT_NAME => let_stmt_name(nodes, n),
        number::LET_STMT_COMPTIME => let_stmt_comptime(nodes, n),
        number::LET_STMT_MUTABLE => let_stmt_mutable(nodes, n),
        number::LET_STMT_TYPE_EXPR => let_stmt_type_expr(nodes, n),
        number::LET_STMT_VALUE => let_stmt_value(nodes, n),
        number::LET_STMT => let_stmt(nodes, n),
        number::RETURN_STMT_VALUE => return_stmt_value(nodes, n),
        number::ASSIGN_STMT_TARGET => assign_stmt_target(nodes, n),
        number::ASSIGN_STMT_VALUE => assign_stmt_value(nodes, n),
        number::WHILE_STMT_INLINE => while_stmt_inline(nodes, n),
        number::WHILE_STMT_CONDITION => while_stmt_condition(nodes, n),
        number::WHILE_STMT_BODY => while_stmt_body(nodes, n),
        number::WHILE_STMT => while_stmt(nodes, n),
        number::STATEMENT => statement(nodes, n),
        _ => Ok(None),
    }
}

// The accessor that tells tokens with this number, of a node.
pub(crate) fn span_view(which: u32, nodes: &[u32], n: u32) -> Seen<TokenSpan>
    ensures { answer result ≡ pick none (spans nodes.now n) which }
{
    match which {
        number::LET_STMT_NAME_SPAN => let_stmt_name_span(nodes, n),
        number::LET_STMT_SPAN => let_stmt_span(nodes, n),
        _ => Ok(None),
    }
}

// The accessor that counts with this number, of a node.
pub(crate) fn count_view(which: u32, nodes: &[u32], n: u32) -> Seen<usize>
    ensures { answer result ≡ pick none (counts nodes.now n) which }
{
    match which {
        number::BLOCK_STATEMENT_COUNT => block_statement_count(nodes, n),
        _ => Ok(None),
    }
}
