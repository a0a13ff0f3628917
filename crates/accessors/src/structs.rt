// Accessors by number: structs, their literals, and tuples.
ghost use Rattle.std.specs.Prelude.{◌≡◌};
ghost use Rattle.looking.specs.View.{none, answer};
ghost use Rattle.accessors.specs.Rows.{pick};
ghost use Rattle.accessors.specs.Structs.{numbers, spans, counts};

use crate::number;
use expressions::expressions::{
    field_assign_name, field_assign_name_span, field_assign_value, field_def_name,
    field_def_name_span, field_def_type_expr, struct_def_field, struct_def_field_count,
    struct_def_index_expr, struct_def_method, struct_def_method_count, struct_lit_field,
    struct_lit_field_count, struct_lit_type_expr, tuple_lit_field, tuple_lit_field_count,
    tuple_type_field, tuple_type_field_count,
};
use looking::{Seen, TokenSpan};

// The accessor with this number, of a node.
pub(crate) fn view(which: u32, nodes: &[u32], n: u32, i: u32) -> Seen<u32>
    ensures { answer result ≡ pick none (numbers i nodes.now n) which }
{
    match which {
        number::STRUCT_DEF_INDEX_EXPR => struct_def_index_expr(nodes, n),
        number::STRUCT_DEF_FIELD => struct_def_field(nodes, n, i),
        number::STRUCT_DEF_METHOD => struct_def_method(nodes, n, i),
        number::FIELD_DEF_NAME => field_def_name(nodes, n),
        number::FIELD_DEF_TYPE_EXPR => field_def_type_expr(nodes, n),
        number::STRUCT_LIT_TYPE_EXPR => struct_lit_type_expr(nodes, n),
        number::STRUCT_LIT_FIELD => struct_lit_field(nodes, n, i),
        number::FIELD_ASSIGN_NAME => field_assign_name(nodes, n),
        number::FIELD_ASSIGN_VALUE => field_assign_value(nodes, n),
        number::TUPLE_TYPE_FIELD => tuple_type_field(nodes, n, i),
        number::TUPLE_LIT_FIELD => tuple_lit_field(nodes, n, i),
        _ => Ok(None),
    }
}

// The accessor that tells tokens with this number, of a node.
pub(crate) fn span_view(which: u32, nodes: &[u32], n: u32) -> Seen<TokenSpan>
    ensures { answer result ≡ pick none (spans nodes.now n) which }
{
    match which {
        number::FIELD_DEF_NAME_SPAN => field_def_name_span(nodes, n),
        number::FIELD_ASSIGN_NAME_SPAN => field_assign_name_span(nodes, n),
        _ => Ok(None),
    }
}

// The accessor that counts with this number, of a node.
pub(crate) fn count_view(which: u32, nodes: &[u32], n: u32) -> Seen<usize>
    ensures { answer result ≡ pick none (counts nodes.now n) which }
{
    match which {
        number::STRUCT_DEF_FIELD_COUNT => struct_def_field_count(nodes, n),
        number::STRUCT_DEF_METHOD_COUNT => struct_def_method_count(nodes, n),
        number::STRUCT_LIT_FIELD_COUNT => struct_lit_field_count(nodes, n),
        number::TUPLE_TYPE_FIELD_COUNT => tuple_type_field_count(nodes, n),
        number::TUPLE_LIT_FIELD_COUNT => tuple_lit_field_count(nodes, n),
        _ => Ok(None),
    }
}
