// Accessors by number: files, constants and imports.
ghost use Rattle.std.specs.Prelude.{◌≡◌};
ghost use Rattle.looking.specs.View.{none, answer};
ghost use Rattle.accessors.specs.Rows.{pick};
ghost use Rattle.accessors.specs.Declarations.{numbers, spans, counts};

use crate::number;
use looking::{Seen, TokenSpan};
use views::declarations::{
    const_decl_assign, const_decl_name, const_decl_name_span, const_decl_span, const_decl_type,
    file, file_def, file_def_count, import_as_decl_name, import_group_item,
    import_group_item_alias, import_group_item_count, import_group_item_name,
    import_group_item_name_span, import_group_item_span, import_group_public, init_block,
    run_block,
};
use views::imports::{
    import_file_path_span, import_first_path_segment_span, import_glob,
    import_group_file_path_span, import_group_first_path_segment_span, import_group_path_segment,
    import_group_path_segment_count, import_last_path_segment_span, import_path,
    import_path_segment, import_path_segment_count, import_public,
};

// The accessor with this number, of a node.
pub(crate) fn view(which: u32, nodes: &[u32], n: u32, i: u32) -> Seen<u32>
    ensures { answer result ≡ pick none (numbers i nodes.now n) which }
{
    match which {
        number::FILE => file(nodes, n),
        number::FILE_DEF => file_def(nodes, n, i),
        number::INIT_BLOCK => init_block(nodes, n),
        number::RUN_BLOCK => run_block(nodes, n),
        number::CONST_DECL_NAME => const_decl_name(nodes, n),
        number::CONST_DECL_TYPE => const_decl_type(nodes, n),
        number::CONST_DECL_ASSIGN => const_decl_assign(nodes, n),
        number::IMPORT_PATH => import_path(nodes, n),
        number::IMPORT_PUBLIC => import_public(nodes, n),
        number::IMPORT_GLOB => import_glob(nodes, n),
        number::IMPORT_AS_DECL_NAME => import_as_decl_name(nodes, n),
        number::IMPORT_PATH_SEGMENT => import_path_segment(nodes, n, i),
        number::IMPORT_GROUP_PUBLIC => import_group_public(nodes, n),
        number::IMPORT_GROUP_PATH_SEGMENT => import_group_path_segment(nodes, n, i),
        number::IMPORT_GROUP_ITEM => import_group_item(nodes, n, i),
        number::IMPORT_GROUP_ITEM_NAME => import_group_item_name(nodes, n),
        number::IMPORT_GROUP_ITEM_ALIAS => import_group_item_alias(nodes, n),
        _ => Ok(None),
    }
}

// The accessor that tells tokens with this number, of a node.
pub(crate) fn span_view(which: u32, nodes: &[u32], n: u32) -> Seen<TokenSpan>
    ensures { answer result ≡ pick none (spans nodes.now n) which }
{
    match which {
        number::CONST_DECL_NAME_SPAN => const_decl_name_span(nodes, n),
        number::CONST_DECL_SPAN => const_decl_span(nodes, n),
        number::IMPORT_FIRST_PATH_SEGMENT_SPAN => import_first_path_segment_span(nodes, n),
        number::IMPORT_LAST_PATH_SEGMENT_SPAN => import_last_path_segment_span(nodes, n),
        number::IMPORT_FILE_PATH_SPAN => import_file_path_span(nodes, n),
        number::IMPORT_GROUP_FIRST_PATH_SEGMENT_SPAN => import_group_first_path_segment_span(
            nodes, n,
        ),
        number::IMPORT_GROUP_FILE_PATH_SPAN => import_group_file_path_span(nodes, n),
        number::IMPORT_GROUP_ITEM_NAME_SPAN => import_group_item_name_span(nodes, n),
        number::IMPORT_GROUP_ITEM_SPAN => import_group_item_span(nodes, n),
        _ => Ok(None),
    }
}

// The accessor that counts with this number, of a node.
pub(crate) fn count_view(which: u32, nodes: &[u32], n: u32) -> Seen<usize>
    ensures { answer result ≡ pick none (counts nodes.now n) which }
{
    match which {
        number::FILE_DEF_COUNT => file_def_count(nodes, n),
        number::IMPORT_PATH_SEGMENT_COUNT => import_path_segment_count(nodes, n),
        number::IMPORT_GROUP_PATH_SEGMENT_COUNT => import_group_path_segment_count(nodes, n),
        number::IMPORT_GROUP_ITEM_COUNT => import_group_item_count(nodes, n),
        _ => Ok(None),
    }
}
