// Accessors by number: `if` and `match`.
ghost use Rattle.std.specs.Prelude.{◌≡◌};
ghost use Rattle.looking.specs.View.{none, answer};
ghost use Rattle.accessors.specs.Rows.{pick};
ghost use Rattle.accessors.specs.Branches.{numbers, spans, counts};

use crate::number;
use expressions::expressions::{
    else_if_branch_body, else_if_branch_condition, if_expr_body, if_expr_condition,
    if_expr_else_body, if_expr_else_if_branch, if_expr_else_if_branch_count, match_arm_body,
    match_arm_key, match_expr_arm, match_expr_arm_count, match_expr_subject,
    match_fallback_arm_binding, match_fallback_arm_binding_span, match_fallback_arm_body,
    match_fallback_arm_bound,
};
use looking::{Seen, TokenSpan};

// The accessor with this number, of a node.
pub(crate) fn view(which: u32, nodes: &[u32], n: u32, i: u32) -> Seen<u32>
    ensures { answer result ≡ pick none (numbers i nodes.now n) which }
{
    match which {
        number::IF_EXPR_CONDITION => if_expr_condition(nodes, n),
        number::IF_EXPR_BODY => if_expr_body(nodes, n),
        number::IF_EXPR_ELSE_IF_BRANCH => if_expr_else_if_branch(nodes, n, i),
        number::IF_EXPR_ELSE_BODY => if_expr_else_body(nodes, n),
        number::ELSE_IF_BRANCH_CONDITION => else_if_branch_condition(nodes, n),
        number::ELSE_IF_BRANCH_BODY => else_if_branch_body(nodes, n),
        number::MATCH_EXPR_SUBJECT => match_expr_subject(nodes, n),
        number::MATCH_EXPR_ARM => match_expr_arm(nodes, n, i),
        number::MATCH_ARM_KEY => match_arm_key(nodes, n),
        number::MATCH_ARM_BODY => match_arm_body(nodes, n),
        number::MATCH_FALLBACK_ARM_BOUND => match_fallback_arm_bound(nodes, n),
        number::MATCH_FALLBACK_ARM_BINDING => match_fallback_arm_binding(nodes, n),
        number::MATCH_FALLBACK_ARM_BODY => match_fallback_arm_body(nodes, n),
        _ => Ok(None),
    }
}

// The accessor that tells tokens with this number, of a node.
pub(crate) fn span_view(which: u32, nodes: &[u32], n: u32) -> Seen<TokenSpan>
    ensures { answer result ≡ pick none (spans nodes.now n) which }
{
    match which {
        number::MATCH_FALLBACK_ARM_BINDING_SPAN => match_fallback_arm_binding_span(nodes, n),
        _ => Ok(None),
    }
}

// The accessor that counts with this number, of a node.
pub(crate) fn count_view(which: u32, nodes: &[u32], n: u32) -> Seen<usize>
    ensures { answer result ≡ pick none (counts nodes.now n) which }
{
    match which {
        number::IF_EXPR_ELSE_IF_BRANCH_COUNT => if_expr_else_if_branch_count(nodes, n),
        number::MATCH_EXPR_ARM_COUNT => match_expr_arm_count(nodes, n),
        _ => Ok(None),
    }
}
