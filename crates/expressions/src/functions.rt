// Functions, methods and their parameters (ast/expr.rs).
ghost use Rattle.std.specs.Prelude.{◌≡◌};
ghost use Rattle.looking.specs.View.{answer};
ghost use Rattle.expressions.specs.Functions.{fn_def_eager, fn_def_param_list_span, fn_def_param, fn_def_param_count, fn_def_return_type, fn_def_body, method_def_eager, method_def_name, method_def_name_span, method_def_param_list_span, method_def_param, method_def_param_count, method_def_return_type, method_def_body, param_name, param_name_span, param_is_comptime, param_type_explicit, param_type_any, param_type_any_span};

use expr::expr_of;
use looking::{
    Kinds, Seen, TokenSpan, flag_of, inner_count, inner_of, kind_of, name_of, new_child,
    payload_child, span_child,
};
use words::{flag, node};

// `FnDef::eager`.
pub fn fn_def_eager(nodes: &[u32], n: u32) -> Seen<u32>
    ensures { answer result ≡ fn_def_eager nodes.now n }
{
    flag_of(nodes, n, Kinds::one(node::FN_DEF), flag::FN_DEF_EAGER)
}

// `FnDef::param_list_span`.
pub fn fn_def_param_list_span(nodes: &[u32], n: u32) -> Seen<TokenSpan>
    ensures { answer result ≡ fn_def_param_list_span nodes.now n }
{
    span_child(nodes, n, Kinds::one(node::FN_DEF), 0, Kinds::ANY)
}

// `FnDef::params`, its i-th.
pub fn fn_def_param(nodes: &[u32], n: u32, i: u32) -> Seen<u32>
    ensures { answer result ≡ fn_def_param i nodes.now n }
{
    inner_of(
        nodes,
        n,
        Kinds::one(node::FN_DEF),
        0,
        Kinds::PARAMETERS,
        i as u64,
    )
}

// `FnDef::params`, counted.
pub fn fn_def_param_count(nodes: &[u32], n: u32) -> Seen<usize>
    ensures { answer result ≡ fn_def_param_count nodes.now n }
{
    inner_count(nodes, n, Kinds::one(node::FN_DEF), 0, Kinds::PARAMETERS)
}

// `FnDef::return_type`.
pub fn fn_def_return_type(nodes: &[u32], n: u32) -> Seen<u32>
    ensures { answer result ≡ fn_def_return_type nodes.now n }
{
    expr_of(nodes, n, Kinds::one(node::FN_DEF), 1)
}

// `FnDef::body`.
pub fn fn_def_body(nodes: &[u32], n: u32) -> Seen<u32>
    ensures { answer result ≡ fn_def_body nodes.now n }
{
    new_child(nodes, n, Kinds::one(node::FN_DEF), 2, Kinds::BLOCKS)
}

// `MethodDef::eager`.
pub fn method_def_eager(nodes: &[u32], n: u32) -> Seen<u32>
    ensures { answer result ≡ method_def_eager nodes.now n }
{
    flag_of(
        nodes,
        n,
        Kinds::one(node::METHOD_DEF),
        flag::METHOD_DEF_EAGER,
    )
}

// `MethodDef::name`.
pub fn method_def_name(nodes: &[u32], n: u32) -> Seen<u32>
    ensures { answer result ≡ method_def_name nodes.now n }
{
    name_of(nodes, n, Kinds::one(node::METHOD_DEF), 0)
}

// `MethodDef::name_span`.
pub fn method_def_name_span(nodes: &[u32], n: u32) -> Seen<TokenSpan>
    ensures { answer result ≡ method_def_name_span nodes.now n }
{
    span_child(
        nodes,
        n,
        Kinds::one(node::METHOD_DEF),
        0,
        Kinds::one(node::IDENTIFIER),
    )
}

// `MethodDef::param_list_span`.
pub fn method_def_param_list_span(nodes: &[u32], n: u32) -> Seen<TokenSpan>
    ensures { answer result ≡ method_def_param_list_span nodes.now n }
{
    span_child(nodes, n, Kinds::one(node::METHOD_DEF), 1, Kinds::ANY)
}

// `MethodDef::params`, its i-th.
pub fn method_def_param(nodes: &[u32], n: u32, i: u32) -> Seen<u32>
    ensures { answer result ≡ method_def_param i nodes.now n }
{
    inner_of(
        nodes,
        n,
        Kinds::one(node::METHOD_DEF),
        1,
        Kinds::PARAMETERS,
        i as u64,
    )
}

// `MethodDef::params`, counted.
pub fn method_def_param_count(nodes: &[u32], n: u32) -> Seen<usize>
    ensures { answer result ≡ method_def_param_count nodes.now n }
{
    inner_count(nodes, n, Kinds::one(node::METHOD_DEF), 1, Kinds::PARAMETERS)
}

// `MethodDef::return_type`.
pub fn method_def_return_type(nodes: &[u32], n: u32) -> Seen<u32>
    ensures { answer result ≡ method_def_return_type nodes.now n }
{
    expr_of(nodes, n, Kinds::one(node::METHOD_DEF), 2)
}

// `MethodDef::body`.
pub fn method_def_body(nodes: &[u32], n: u32) -> Seen<u32>
    ensures { answer result ≡ method_def_body nodes.now n }
{
    new_child(nodes, n, Kinds::one(node::METHOD_DEF), 3, Kinds::BLOCKS)
}

// `Param::name`.
pub fn param_name(nodes: &[u32], n: u32) -> Seen<u32>
    ensures { answer result ≡ param_name nodes.now n }
{
    name_of(nodes, n, Kinds::PARAMETERS, 0)
}

// `Param::name_span`.
pub fn param_name_span(nodes: &[u32], n: u32) -> Seen<TokenSpan>
    ensures { answer result ≡ param_name_span nodes.now n }
{
    span_child(nodes, n, Kinds::PARAMETERS, 0, Kinds::one(node::IDENTIFIER))
}

// `Param::is_comptime`.
pub fn param_is_comptime(nodes: &[u32], n: u32) -> Seen<u32>
    ensures { answer result ≡ param_is_comptime nodes.now n }
{
    kind_of(nodes, n, Kinds::PARAMETERS)
}

// `ParamType::Explicit`.
pub fn param_type_explicit(nodes: &[u32], n: u32) -> Seen<u32>
    ensures { answer result ≡ param_type_explicit nodes.now n }
{
    expr_of(nodes, n, Kinds::PARAMETERS, 1)
}

// `ParamType::Any`, its name.
pub fn param_type_any(nodes: &[u32], n: u32) -> Seen<u32>
    ensures { answer result ≡ param_type_any nodes.now n }
{
    payload_child(
        nodes,
        n,
        Kinds::PARAMETERS,
        1,
        Kinds::one(node::PARAM_ANY_TYPE),
    )
}

// `ParamType::Any`, its span.
pub fn param_type_any_span(nodes: &[u32], n: u32) -> Seen<TokenSpan>
    ensures { answer result ≡ param_type_any_span nodes.now n }
{
    span_child(
        nodes,
        n,
        Kinds::PARAMETERS,
        1,
        Kinds::one(node::PARAM_ANY_TYPE),
    )
}
