// Accessors by number: functions, methods and parameters.
ghost use Rattle.std.specs.Prelude.{◌≡◌};
ghost use Rattle.looking.specs.View.{none, answer};
ghost use Rattle.accessors.specs.Rows.{pick};
ghost use Rattle.accessors.specs.Functions.{numbers, spans, counts};

use crate::number;
use expressions::functions::{
    fn_def_body, fn_def_eager, fn_def_param, fn_def_param_count, fn_def_param_list_span,
    fn_def_return_type, method_def_body, method_def_eager, method_def_name, method_def_name_span,
    method_def_param, method_def_param_count, method_def_param_list_span, method_def_return_type,
    param_is_comptime, param_name, param_name_span, param_type_any, param_type_any_span,
    param_type_explicit,
};
use looking::{Seen, TokenSpan};

// The accessor with this number, of a node.
pub(crate) fn view(which: u32, nodes: &[u32], n: u32, i: u32) -> Seen<u32>
    ensures { answer result ≡ pick none (numbers i nodes.now n) which }
{
    match which {
        number::FN_DEF_EAGER => fn_def_eager(nodes, n),
        number::FN_DEF_PARAM => fn_def_param(nodes, n, i),
        number::FN_DEF_RETURN_TYPE => fn_def_return_type(nodes, n),
        number::FN_DEF_BODY => fn_def_body(nodes, n),
        number::METHOD_DEF_EAGER => method_def_eager(nodes, n),
        number::METHOD_DEF_NAME => method_def_name(nodes, n),
        number::METHOD_DEF_PARAM => method_def_param(nodes, n, i),
        number::METHOD_DEF_RETURN_TYPE => method_def_return_type(nodes, n),
        number::METHOD_DEF_BODY => method_def_body(nodes, n),
        number::PARAM_NAME => param_name(nodes, n),
        number::PARAM_IS_COMPTIME => param_is_comptime(nodes, n),
        number::PARAM_TYPE_EXPLICIT => param_type_explicit(nodes, n),
        number::PARAM_TYPE_ANY => param_type_any(nodes, n),
        _ => Ok(None),
    }
}

// The accessor that tells tokens with this number, of a node.
pub(crate) fn span_view(which: u32, nodes: &[u32], n: u32) -> Seen<TokenSpan>
    ensures { answer result ≡ pick none (spans nodes.now n) which }
{
    match which {
        number::FN_DEF_PARAM_LIST_SPAN => fn_def_param_list_span(nodes, n),
        number::METHOD_DEF_NAME_SPAN => method_def_name_span(nodes, n),
        number::METHOD_DEF_PARAM_LIST_SPAN => method_def_param_list_span(nodes, n),
        number::PARAM_NAME_SPAN => param_name_span(nodes, n),
        number::PARAM_TYPE_ANY_SPAN => param_type_any_span(nodes, n),
        _ => Ok(None),
    }
}

// The accessor that counts with this number, of a node.
pub(crate) fn count_view(which: u32, nodes: &[u32], n: u32) -> Seen<usize>
    ensures { answer result ≡ pick none (counts nodes.now n) which }
{
    match which {
        number::FN_DEF_PARAM_COUNT => fn_def_param_count(nodes, n),
        number::METHOD_DEF_PARAM_COUNT => method_def_param_count(nodes, n),
        _ => Ok(None),
    }
}
