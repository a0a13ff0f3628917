// Declarations: a file and what it declares (ast/mod.rs).
ghost use Rattle.std.specs.Prelude.{◌≡◌};
ghost use Rattle.looking.specs.View.{answer};
ghost use Rattle.views.specs.Declarations.{file, file_def, file_def_count, init_block, run_block, const_decl_name, const_decl_name_span, const_decl_type, const_decl_assign, const_decl_span, import_as_decl_name, import_group_public, import_group_item, import_group_item_count, import_group_item_name, import_group_item_name_span, import_group_item_alias, import_group_item_span};

use expr::{type_of, value_of};
use looking::{
    Kinds, Seen, TokenSpan, count_of, flag_of, name_of, new_of, nth_of, span_child, span_of,
};
use words::{flag, node};

// `File::new`.
pub fn file(nodes: &[u32], n: u32) -> Seen<u32>
    ensures { answer result ≡ file nodes.now n }
{
    new_of(nodes, n, Kinds::one(node::FILE))
}

// `File::iter_defs`, its i-th.
pub fn file_def(nodes: &[u32], n: u32, i: u32) -> Seen<u32>
    ensures { answer result ≡ file_def i nodes.now n }
{
    nth_of(nodes, n, Kinds::one(node::FILE), Kinds::ANY, i as u64)
}

// `File::iter_defs`, counted.
pub fn file_def_count(nodes: &[u32], n: u32) -> Seen<usize>
    ensures { answer result ≡ file_def_count nodes.now n }
{
    count_of(nodes, n, Kinds::one(node::FILE), Kinds::ANY)
}

// `InitBlock::new`, `InitBlock::body`.
pub fn init_block(nodes: &[u32], n: u32) -> Seen<u32>
    ensures { answer result ≡ init_block nodes.now n }
{
    new_of(nodes, n, Kinds::one(node::INIT_BLOCK))
}

// `RunBlock::new`, `RunBlock::body`.
pub fn run_block(nodes: &[u32], n: u32) -> Seen<u32>
    ensures { answer result ≡ run_block nodes.now n }
{
    new_of(nodes, n, Kinds::one(node::RUN_BLOCK))
}

// `ConstDecl::name`.
pub fn const_decl_name(nodes: &[u32], n: u32) -> Seen<u32>
    ensures { answer result ≡ const_decl_name nodes.now n }
{
    name_of(nodes, n, Kinds::one(node::CONST_DECL), 0)
}

// `ConstDecl::name_span`.
pub fn const_decl_name_span(nodes: &[u32], n: u32) -> Seen<TokenSpan>
    ensures { answer result ≡ const_decl_name_span nodes.now n }
{
    span_child(
        nodes,
        n,
        Kinds::one(node::CONST_DECL),
        0,
        Kinds::one(node::IDENTIFIER),
    )
}

// `ConstDecl::type`.
pub fn const_decl_type(nodes: &[u32], n: u32) -> Seen<u32>
    ensures { answer result ≡ const_decl_type nodes.now n }
{
    type_of(nodes, n, node::CONST_DECL)
}

// `ConstDecl::assign`.
pub fn const_decl_assign(nodes: &[u32], n: u32) -> Seen<u32>
    ensures { answer result ≡ const_decl_assign nodes.now n }
{
    value_of(nodes, n, node::CONST_DECL)
}

// `ConstDecl::span`.
pub fn const_decl_span(nodes: &[u32], n: u32) -> Seen<TokenSpan>
    ensures { answer result ≡ const_decl_span nodes.now n }
{
    span_of(nodes, n, Kinds::one(node::CONST_DECL))
}

// `ImportSuffix::As` of an ImportAsDecl.
pub fn import_as_decl_name(nodes: &[u32], n: u32) -> Seen<u32>
    ensures { answer result ≡ import_as_decl_name nodes.now n }
{
    name_of(nodes, n, Kinds::one(node::IMPORT_AS_DECL), 1)
}

// `ImportGroup::public`.
pub fn import_group_public(nodes: &[u32], n: u32) -> Seen<u32>
    ensures { answer result ≡ import_group_public nodes.now n }
{
    flag_of(
        nodes,
        n,
        Kinds::one(node::IMPORT_GROUP_DECL),
        flag::IMPORT_GROUP_DECL_PUBLIC,
    )
}

// `ImportGroup::items`, its i-th.
pub fn import_group_item(nodes: &[u32], n: u32, i: u32) -> Seen<u32>
    ensures { answer result ≡ import_group_item i nodes.now n }
{
    nth_of(
        nodes,
        n,
        Kinds::one(node::IMPORT_GROUP_DECL),
        Kinds::one(node::IMPORT_GROUP_ITEM),
        i as u64,
    )
}

// `ImportGroup::items`, counted.
pub fn import_group_item_count(nodes: &[u32], n: u32) -> Seen<usize>
    ensures { answer result ≡ import_group_item_count nodes.now n }
{
    count_of(
        nodes,
        n,
        Kinds::one(node::IMPORT_GROUP_DECL),
        Kinds::one(node::IMPORT_GROUP_ITEM),
    )
}

// `ImportGroupItemView::name`.
pub fn import_group_item_name(nodes: &[u32], n: u32) -> Seen<u32>
    ensures { answer result ≡ import_group_item_name nodes.now n }
{
    name_of(nodes, n, Kinds::one(node::IMPORT_GROUP_ITEM), 0)
}

// `ImportGroupItemView::name_span`.
pub fn import_group_item_name_span(nodes: &[u32], n: u32) -> Seen<TokenSpan>
    ensures { answer result ≡ import_group_item_name_span nodes.now n }
{
    span_child(nodes, n, Kinds::one(node::IMPORT_GROUP_ITEM), 0, Kinds::ANY)
}

// `ImportGroupItemView::alias`.
pub fn import_group_item_alias(nodes: &[u32], n: u32) -> Seen<u32>
    ensures { answer result ≡ import_group_item_alias nodes.now n }
{
    name_of(nodes, n, Kinds::one(node::IMPORT_GROUP_ITEM), 1)
}

// `ImportGroupItemView::span`.
pub fn import_group_item_span(nodes: &[u32], n: u32) -> Seen<TokenSpan>
    ensures { answer result ≡ import_group_item_span nodes.now n }
{
    span_of(nodes, n, Kinds::one(node::IMPORT_GROUP_ITEM))
}
