// Expressions and their parts (ast/expr.rs).
ghost use Rattle.std.specs.Prelude.{◌≡◌};
ghost use Rattle.looking.specs.View.{answer};
ghost use Rattle.expressions.specs.Expressions.{binary_expr_op, binary_expr_lhs, binary_expr_op_span, binary_expr_rhs, unary_expr_op, unary_expr_operand, call_expr_callee, call_expr_arg, member_expr_object, member_expr_member, struct_def_index_expr, field_def_name, field_def_name_span, field_def_type_expr, struct_lit_type_expr, field_assign_name, field_assign_name_span, field_assign_value, tuple_type_field, tuple_type_field_count, tuple_lit_field, tuple_lit_field_count, if_expr_condition, if_expr_body, if_expr_else_if_branch, if_expr_else_if_branch_count, if_expr_else_body, else_if_branch_condition, else_if_branch_body, match_expr_subject, match_expr_arm, match_expr_arm_count, match_arm_key, match_arm_body, bool_literal_value, num_literal_id, string_literal_value, self_type, builtin_name};
ghost use Rattle.expressions.specs.Expressions.{call_expr_arg_count, member_expr, call_expr_direct_member_callee, struct_child, struct_child_count};
ghost use Rattle.expressions.specs.Expressions.{struct_def_field, struct_def_field_count, struct_def_method, struct_def_method_count};
ghost use Rattle.expressions.specs.Expressions.{nth_after, count_after, struct_lit_field, struct_lit_field_count};
ghost use Rattle.expressions.specs.Expressions.{match_fallback_arm_bound, match_fallback_arm_binding, match_fallback_arm_binding_span, match_fallback_arm_body};

use expr::{expr_of, struct_body};
use looking::{
    Kinds, NO_STOP, Seen, TokenSpan, count_of, counted, flag_of, inner_count, inner_of, look,
    name_of, new_child, new_of, nth, nth_of, payload_of, span_child,
};
use words::{flag, node};

// `BinaryExpr::op`.
pub fn binary_expr_op(nodes: &[u32], n: u32) -> Seen<u32>
    ensures { answer result ≡ binary_expr_op nodes.now n }
{
    payload_of(nodes, n, Kinds::one(node::BINARY_EXPR))
}

// `BinaryExpr::lhs`.
pub fn binary_expr_lhs(nodes: &[u32], n: u32) -> Seen<u32>
    ensures { answer result ≡ binary_expr_lhs nodes.now n }
{
    expr_of(nodes, n, Kinds::one(node::BINARY_EXPR), 0)
}

// `BinaryExpr::op_span`.
pub fn binary_expr_op_span(nodes: &[u32], n: u32) -> Seen<TokenSpan>
    ensures { answer result ≡ binary_expr_op_span nodes.now n }
{
    span_child(nodes, n, Kinds::one(node::BINARY_EXPR), 1, Kinds::ANY)
}

// `BinaryExpr::rhs`.
pub fn binary_expr_rhs(nodes: &[u32], n: u32) -> Seen<u32>
    ensures { answer result ≡ binary_expr_rhs nodes.now n }
{
    expr_of(nodes, n, Kinds::one(node::BINARY_EXPR), 2)
}

// `UnaryExpr::op`.
pub fn unary_expr_op(nodes: &[u32], n: u32) -> Seen<u32>
    ensures { answer result ≡ unary_expr_op nodes.now n }
{
    payload_of(nodes, n, Kinds::one(node::UNARY_EXPR))
}

// `UnaryExpr::operand`.
pub fn unary_expr_operand(nodes: &[u32], n: u32) -> Seen<u32>
    ensures { answer result ≡ unary_expr_operand nodes.now n }
{
    expr_of(nodes, n, Kinds::one(node::UNARY_EXPR), 0)
}

// `CallExpr::callee`.
pub fn call_expr_callee(nodes: &[u32], n: u32) -> Seen<u32>
    ensures { answer result ≡ call_expr_callee nodes.now n }
{
    expr_of(nodes, n, Kinds::one(node::CALL_EXPR), 0)
}

// `CallExpr::args`, its i-th.
pub fn call_expr_arg(nodes: &[u32], n: u32, i: u32) -> Seen<u32>
    ensures { answer result ≡ call_expr_arg i nodes.now n }
{
    expr_of(nodes, n, Kinds::one(node::CALL_EXPR), i as u64 + 1)
}

// `MemberExpr::object`.
pub fn member_expr_object(nodes: &[u32], n: u32) -> Seen<u32>
    ensures { answer result ≡ member_expr_object nodes.now n }
{
    expr_of(nodes, n, Kinds::one(node::MEMBER_EXPR), 0)
}

// `MemberExpr::member`.
pub fn member_expr_member(nodes: &[u32], n: u32) -> Seen<u32>
    ensures { answer result ≡ member_expr_member nodes.now n }
{
    name_of(nodes, n, Kinds::one(node::MEMBER_EXPR), 1)
}

// `StructDef::index_expr`; a StructBody is no expression.
pub fn struct_def_index_expr(nodes: &[u32], n: u32) -> Seen<u32>
    ensures { answer result ≡ struct_def_index_expr nodes.now n }
{
    expr_of(nodes, n, Kinds::one(node::STRUCT_DEF), 0)
}

// `FieldDef::name`.
pub fn field_def_name(nodes: &[u32], n: u32) -> Seen<u32>
    ensures { answer result ≡ field_def_name nodes.now n }
{
    name_of(nodes, n, Kinds::one(node::FIELD_DEF), 0)
}

// `FieldDef::name_span`.
pub fn field_def_name_span(nodes: &[u32], n: u32) -> Seen<TokenSpan>
    ensures { answer result ≡ field_def_name_span nodes.now n }
{
    span_child(
        nodes,
        n,
        Kinds::one(node::FIELD_DEF),
        0,
        Kinds::one(node::IDENTIFIER),
    )
}

// `FieldDef::type_expr`.
pub fn field_def_type_expr(nodes: &[u32], n: u32) -> Seen<u32>
    ensures { answer result ≡ field_def_type_expr nodes.now n }
{
    expr_of(nodes, n, Kinds::one(node::FIELD_DEF), 1)
}

// `StructLit::type_expr`.
pub fn struct_lit_type_expr(nodes: &[u32], n: u32) -> Seen<u32>
    ensures { answer result ≡ struct_lit_type_expr nodes.now n }
{
    expr_of(nodes, n, Kinds::one(node::STRUCT_LIT), 0)
}

// `FieldAssign::name`.
pub fn field_assign_name(nodes: &[u32], n: u32) -> Seen<u32>
    ensures { answer result ≡ field_assign_name nodes.now n }
{
    name_of(nodes, n, Kinds::one(node::FIELD_ASSIGN), 0)
}

// `FieldAssign::name_span`.
pub fn field_assign_name_span(nodes: &[u32], n: u32) -> Seen<TokenSpan>
    ensures { answer result ≡ field_assign_name_span nodes.now n }
{
    span_child(
        nodes,
        n,
        Kinds::one(node::FIELD_ASSIGN),
        0,
        Kinds::one(node::IDENTIFIER),
    )
}

// `FieldAssign::value`.
pub fn field_assign_value(nodes: &[u32], n: u32) -> Seen<u32>
    ensures { answer result ≡ field_assign_value nodes.now n }
{
    expr_of(nodes, n, Kinds::one(node::FIELD_ASSIGN), 1)
}

// `TupleType::fields`, its i-th.
pub fn tuple_type_field(nodes: &[u32], n: u32, i: u32) -> Seen<u32>
    ensures { answer result ≡ tuple_type_field i nodes.now n }
{
    expr_of(nodes, n, Kinds::one(node::TUPLE_TYPE), i as u64)
}

// `TupleType::fields`, counted.
pub fn tuple_type_field_count(nodes: &[u32], n: u32) -> Seen<usize>
    ensures { answer result ≡ tuple_type_field_count nodes.now n }
{
    count_of(nodes, n, Kinds::one(node::TUPLE_TYPE), Kinds::ANY)
}

// `TupleLit::fields`, its i-th.
pub fn tuple_lit_field(nodes: &[u32], n: u32, i: u32) -> Seen<u32>
    ensures { answer result ≡ tuple_lit_field i nodes.now n }
{
    expr_of(nodes, n, Kinds::one(node::TUPLE_LIT), i as u64)
}

// `TupleLit::fields`, counted.
pub fn tuple_lit_field_count(nodes: &[u32], n: u32) -> Seen<usize>
    ensures { answer result ≡ tuple_lit_field_count nodes.now n }
{
    count_of(nodes, n, Kinds::one(node::TUPLE_LIT), Kinds::ANY)
}

// `IfExpr::condition`.
pub fn if_expr_condition(nodes: &[u32], n: u32) -> Seen<u32>
    ensures { answer result ≡ if_expr_condition nodes.now n }
{
    expr_of(nodes, n, Kinds::one(node::IF), 0)
}

// `IfExpr::body`.
pub fn if_expr_body(nodes: &[u32], n: u32) -> Seen<u32>
    ensures { answer result ≡ if_expr_body nodes.now n }
{
    new_child(nodes, n, Kinds::one(node::IF), 1, Kinds::BLOCKS)
}

// `IfExpr::else_if_branches`, its i-th.
pub fn if_expr_else_if_branch(nodes: &[u32], n: u32, i: u32) -> Seen<u32>
    ensures { answer result ≡ if_expr_else_if_branch i nodes.now n }
{
    inner_of(
        nodes,
        n,
        Kinds::one(node::IF),
        2,
        Kinds::one(node::ELSE_IF_BRANCH),
        i as u64,
    )
}

// `IfExpr::else_if_branches`, counted.
pub fn if_expr_else_if_branch_count(nodes: &[u32], n: u32) -> Seen<usize>
    ensures { answer result ≡ if_expr_else_if_branch_count nodes.now n }
{
    inner_count(
        nodes,
        n,
        Kinds::one(node::IF),
        2,
        Kinds::one(node::ELSE_IF_BRANCH),
    )
}

// `IfExpr::else_body`.
pub fn if_expr_else_body(nodes: &[u32], n: u32) -> Seen<u32>
    ensures { answer result ≡ if_expr_else_body nodes.now n }
{
    new_child(nodes, n, Kinds::one(node::IF), 3, Kinds::BLOCKS)
}

// `ElseIfBranch::condition`.
pub fn else_if_branch_condition(nodes: &[u32], n: u32) -> Seen<u32>
    ensures { answer result ≡ else_if_branch_condition nodes.now n }
{
    expr_of(nodes, n, Kinds::one(node::ELSE_IF_BRANCH), 0)
}

// `ElseIfBranch::body`.
pub fn else_if_branch_body(nodes: &[u32], n: u32) -> Seen<u32>
    ensures { answer result ≡ else_if_branch_body nodes.now n }
{
    new_child(nodes, n, Kinds::one(node::ELSE_IF_BRANCH), 1, Kinds::BLOCKS)
}

// `MatchExpr::subject`.
pub fn match_expr_subject(nodes: &[u32], n: u32) -> Seen<u32>
    ensures { answer result ≡ match_expr_subject nodes.now n }
{
    expr_of(nodes, n, Kinds::one(node::MATCH), 0)
}

// `MatchExpr::arms`, its i-th.
pub fn match_expr_arm(nodes: &[u32], n: u32, i: u32) -> Seen<u32>
    ensures { answer result ≡ match_expr_arm i nodes.now n }
{
    inner_of(nodes, n, Kinds::one(node::MATCH), 1, Kinds::ANY, i as u64)
}

// `MatchExpr::arms`, counted.
pub fn match_expr_arm_count(nodes: &[u32], n: u32) -> Seen<usize>
    ensures { answer result ≡ match_expr_arm_count nodes.now n }
{
    inner_count(nodes, n, Kinds::one(node::MATCH), 1, Kinds::ANY)
}

// `MatchArmKind::Case`, its key.
pub fn match_arm_key(nodes: &[u32], n: u32) -> Seen<u32>
    ensures { answer result ≡ match_arm_key nodes.now n }
{
    nth_of(nodes, n, Kinds::one(node::MATCH_ARM), Kinds::ANY, 0)
}

// `MatchArm::body` of a case.
pub fn match_arm_body(nodes: &[u32], n: u32) -> Seen<u32>
    ensures { answer result ≡ match_arm_body nodes.now n }
{
    nth_of(nodes, n, Kinds::one(node::MATCH_ARM), Kinds::ANY, 1)
}

// `BoolLiteral`, its value.
pub fn bool_literal_value(nodes: &[u32], n: u32) -> Seen<u32>
    ensures { answer result ≡ bool_literal_value nodes.now n }
{
    flag_of(
        nodes,
        n,
        Kinds::one(node::BOOL_LITERAL),
        flag::BOOL_LITERAL_TRUE,
    )
}

// `NumLiteral`, its id.
pub fn num_literal_id(nodes: &[u32], n: u32) -> Seen<u32>
    ensures { answer result ≡ num_literal_id nodes.now n }
{
    payload_of(nodes, n, Kinds::one(node::NUM_LITERAL))
}

// `StringLiteral`, its value.
pub fn string_literal_value(nodes: &[u32], n: u32) -> Seen<u32>
    ensures { answer result ≡ string_literal_value nodes.now n }
{
    payload_of(nodes, n, Kinds::one(node::STRING_LITERAL))
}

// `SelfType`.
pub fn self_type(nodes: &[u32], n: u32) -> Seen<u32>
    ensures { answer result ≡ self_type nodes.now n }
{
    new_of(nodes, n, Kinds::one(node::SELF_TYPE))
}

// `BuiltinName`, its name.
pub fn builtin_name(nodes: &[u32], n: u32) -> Seen<u32>
    ensures { answer result ≡ builtin_name nodes.now n }
{
    payload_of(nodes, n, Kinds::one(node::BUILTIN_NAME))
}

// `CallExpr::args`, counted.
pub fn call_expr_arg_count(nodes: &[u32], n: u32) -> Seen<usize>
    ensures { answer result ≡ call_expr_arg_count nodes.now n }
{
    let children = count_of(nodes, n, Kinds::one(node::CALL_EXPR), Kinds::ANY)?;
    Ok(children.map(|count| count.saturating_sub(1)))
}

// `MemberExpr::try_new`.
pub fn member_expr(nodes: &[u32], n: u32) -> Seen<u32>
    ensures { answer result ≡ member_expr nodes.now n }
{
    Ok(member_expr_member(nodes, n)?.map(|_| n))
}

// `CallExpr::direct_member_callee`.
pub fn call_expr_direct_member_callee(nodes: &[u32], n: u32) -> Seen<u32>
    ensures { answer result ≡ call_expr_direct_member_callee nodes.now n }
{
    let Some(callee) = nth_of(nodes, n, Kinds::one(node::CALL_EXPR), Kinds::ANY, 0)? else {
        return Ok(None);
    };
    member_expr(nodes, callee)
}

// Of a struct definition, the i-th child of its body that has this kind.
fn struct_child(nodes: &[u32], n: u32, kind: u32, i: u32) -> Seen<u32>
    ensures { answer result ≡ struct_child kind i nodes.now n }
{
    let Some(body) = struct_body(nodes, n)? else {
        return Ok(None);
    };
    nth_of(
        nodes,
        body,
        Kinds::one(node::STRUCT_BODY),
        Kinds::one(kind),
        i as u64,
    )
}

fn struct_child_count(nodes: &[u32], n: u32, kind: u32) -> Seen<usize>
    ensures { answer result ≡ struct_child_count kind nodes.now n }
{
    let Some(body) = struct_body(nodes, n)? else {
        return Ok(None);
    };
    count_of(nodes, body, Kinds::one(node::STRUCT_BODY), Kinds::one(kind))
}

// `StructDef::fields`, its i-th.
pub fn struct_def_field(nodes: &[u32], n: u32, i: u32) -> Seen<u32>
    ensures { answer result ≡ struct_def_field i nodes.now n }
{
    struct_child(nodes, n, node::FIELD_DEF, i)
}

// `StructDef::fields`, counted.
pub fn struct_def_field_count(nodes: &[u32], n: u32) -> Seen<usize>
    ensures { answer result ≡ struct_def_field_count nodes.now n }
{
    struct_child_count(nodes, n, node::FIELD_DEF)
}

// `StructDef::methods`, its i-th.
pub fn struct_def_method(nodes: &[u32], n: u32, i: u32) -> Seen<u32>
    ensures { answer result ≡ struct_def_method i nodes.now n }
{
    struct_child(nodes, n, node::METHOD_DEF, i)
}

// `StructDef::methods`, counted.
pub fn struct_def_method_count(nodes: &[u32], n: u32) -> Seen<usize>
    ensures { answer result ≡ struct_def_method_count nodes.now n }
{
    struct_child_count(nodes, n, node::METHOD_DEF)
}

// Of the siblings after a node, the i-th whose kind is one of `wanted`.
fn nth_after(nodes: &[u32], c: u32, wanted: Kinds, i: u32) -> Seen<u32>
    ensures { answer result ≡ nth_after wanted.from wanted.to i nodes.now c }
{
    nth(nodes, look(nodes, c)?.next, NO_STOP, wanted, i as u64)
}

fn count_after(nodes: &[u32], c: u32, wanted: Kinds) -> Seen<usize>
    ensures { answer result ≡ count_after wanted.from wanted.to nodes.now c }
{
    counted(nodes, look(nodes, c)?.next, NO_STOP, wanted)
}

// `StructLit::fields`, its i-th.
pub fn struct_lit_field(nodes: &[u32], n: u32, i: u32) -> Seen<u32>
    ensures { answer result ≡ struct_lit_field i nodes.now n }
{
    let Some(first) = nth_of(nodes, n, Kinds::one(node::STRUCT_LIT), Kinds::ANY, 0)? else {
        return Ok(None);
    };
    nth_after(nodes, first, Kinds::one(node::FIELD_ASSIGN), i)
}

// `StructLit::fields`, counted.
pub fn struct_lit_field_count(nodes: &[u32], n: u32) -> Seen<usize>
    ensures { answer result ≡ struct_lit_field_count nodes.now n }
{
    let Some(first) = nth_of(nodes, n, Kinds::one(node::STRUCT_LIT), Kinds::ANY, 0)? else {
        return Ok(None);
    };
    count_after(nodes, first, Kinds::one(node::FIELD_ASSIGN))
}

// Whether a fallback arm has a binding.
pub fn match_fallback_arm_bound(nodes: &[u32], n: u32) -> Seen<u32>
    ensures { answer result ≡ match_fallback_arm_bound nodes.now n }
{
    let arm = Kinds::one(node::MATCH_FALLBACK_ARM);
    flag_of(nodes, n, arm, flag::MATCH_FALLBACK_ARM_BINDING)
}

// `MatchFallbackBinding::name`.
pub fn match_fallback_arm_binding(nodes: &[u32], n: u32) -> Seen<u32>
    ensures { answer result ≡ match_fallback_arm_binding nodes.now n }
{
    match match_fallback_arm_bound(nodes, n)? {
        None | Some(0) => Ok(None),
        Some(_) => name_of(nodes, n, Kinds::one(node::MATCH_FALLBACK_ARM), 0),
    }
}

// `MatchFallbackBinding::span`.
pub fn match_fallback_arm_binding_span(nodes: &[u32], n: u32) -> Seen<TokenSpan>
    ensures { answer result ≡ match_fallback_arm_binding_span nodes.now n }
{
    let arm = Kinds::one(node::MATCH_FALLBACK_ARM);
    match match_fallback_arm_bound(nodes, n)? {
        None | Some(0) => Ok(None),
        Some(_) => span_child(nodes, n, arm, 0, Kinds::one(node::IDENTIFIER)),
    }
}

// `MatchArm::body` of a fallback.
pub fn match_fallback_arm_body(nodes: &[u32], n: u32) -> Seen<u32>
    ensures { answer result ≡ match_fallback_arm_body nodes.now n }
{
    let Some(bound) = match_fallback_arm_bound(nodes, n)? else {
        return Ok(None);
    };
    nth_of(
        nodes,
        n,
        Kinds::one(node::MATCH_FALLBACK_ARM),
        Kinds::ANY,
        bound as u64,
    )
}
