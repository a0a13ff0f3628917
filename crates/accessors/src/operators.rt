// Accessors by number: operators, calls, members and literals.
ghost use Rattle.std.specs.Prelude.{◌≡◌};
ghost use Rattle.looking.specs.View.{none, answer};
ghost use Rattle.accessors.specs.Rows.{pick};
ghost use Rattle.accessors.specs.Operators.{numbers, spans, counts};

use crate::number;
use expressions::expressions::{
    binary_expr_lhs, binary_expr_op, binary_expr_op_span, binary_expr_rhs, bool_literal_value,
    builtin_name, call_expr_arg, call_expr_arg_count, call_expr_callee,
    call_expr_direct_member_callee, member_expr, member_expr_member, member_expr_object,
    num_literal_id, self_type, string_literal_value, unary_expr_op, unary_expr_operand,
};
use looking::{Seen, TokenSpan};

// The accessor with this number, of a node.
pub(crate) fn view(which: u32, nodes: &[u32], n: u32, i: u32) -> Seen<u32>
    ensures { answer result ≡ pick none (numbers i nodes.now n) which }
{
    match which {
        number::BINARY_EXPR_OP => binary_expr_op(nodes, n),
        number::BINARY_EXPR_LHS => binary_expr_lhs(nodes, n),
        number::BINARY_EXPR_RHS => binary_expr_rhs(nodes, n),
        number::UNARY_EXPR_OP => unary_expr_op(nodes, n),
        number::UNARY_EXPR_OPERAND => unary_expr_operand(nodes, n),
        number::CALL_EXPR_CALLEE => call_expr_callee(nodes, n),
        number::CALL_EXPR_ARG => call_expr_arg(nodes, n, i),
        number::CALL_EXPR_DIRECT_MEMBER_CALLEE => call_expr_direct_member_callee(nodes, n),
        number::MEMBER_EXPR_OBJECT => member_expr_object(nodes, n),
        number::MEMBER_EXPR_MEMBER => member_expr_member(nodes, n),
        number::MEMBER_EXPR => member_expr(nodes, n),
        number::BOOL_LITERAL_VALUE => bool_literal_value(nodes, n),
        number::NUM_LITERAL_ID => num_literal_id(nodes, n),
        number::STRING_LITERAL_VALUE => string_literal_value(nodes, n),
        number::SELF_TYPE => self_type(nodes, n),
        number::BUILTIN_NAME => builtin_name(nodes, n),
        _ => Ok(None),
    }
}

// The accessor that tells tokens with this number, of a node.
pub(crate) fn span_view(which: u32, nodes: &[u32], n: u32) -> Seen<TokenSpan>
    ensures { answer result ≡ pick none (spans nodes.now n) which }
{
    match which {
        number::BINARY_EXPR_OP_SPAN => binary_expr_op_span(nodes, n),
        _ => Ok(None),
    }
}

// The accessor that counts with this number, of a node.
pub(crate) fn count_view(which: u32, nodes: &[u32], n: u32) -> Seen<usize>
    ensures { answer result ≡ pick none (counts nodes.now n) which }
{
    match which {
        number::CALL_EXPR_ARG_COUNT => call_expr_arg_count(nodes, n),
        _ => Ok(None),
    }
}
