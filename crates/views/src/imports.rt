// `Import` of ast/mod.rs: an ImportDecl, or an ImportAsDecl, whose path is a child of its own.
ghost use Rattle.std.specs.Prelude.{◌≡◌};
ghost use Rattle.looking.specs.View.{answer};
ghost use Rattle.views.specs.Imports.{import_path, import_public, import_glob, import_path_segment, import_path_segment_count};
ghost use Rattle.views.specs.Imports.{import_first_path_segment_span, import_last_path_segment_span, import_file_path_span};
ghost use Rattle.views.specs.Imports.{import_group_path_segment, import_group_path_segment_count, import_group_first_path_segment_span};
ghost use Rattle.views.specs.Imports.{group_segment_span, group_end_span, import_group_file_path_span};
ghost use Rattle.views.specs.Imports.{segment_span, end_span, path_span, file_path_span};

use looking::{
    Kinds, Seen, TokenSpan, count_of, counted, flag_of, kind_of, new_of, nth, nth_of, of,
    span_child, span_of,
};
use words::{flag, node};

const NAME: Kinds = Kinds {
    from: node::IDENTIFIER,
    to: node::IDENTIFIER,
};

// `Import::try_new`, its path.
#[tactic(auto, unfolding(looking::specs::View::and_then, looking::specs::View::or_else))]
pub fn import_path(nodes: &[u32], n: u32) -> Seen<u32>
    ensures { answer result ≡ import_path nodes.now n }
{
    match new_of(nodes, n, Kinds::one(node::IMPORT_DECL))? {
        None => nth_of(nodes, n, Kinds::one(node::IMPORT_AS_DECL), Kinds::ANY, 0),
        path => Ok(path),
    }
}

// `Import::public`.
#[tactic(auto, unfolding(looking::specs::View::and_then, looking::specs::View::or_else))]
pub fn import_public(nodes: &[u32], n: u32) -> Seen<u32>
    ensures { answer result ≡ import_public nodes.now n }
{
    let other = Kinds::one(node::IMPORT_AS_DECL);
    match flag_of(
        nodes,
        n,
        Kinds::one(node::IMPORT_DECL),
        flag::IMPORT_DECL_PUBLIC,
    )? {
        None => flag_of(nodes, n, other, flag::IMPORT_AS_DECL_PUBLIC),
        public => Ok(public),
    }
}

// `ImportSuffix::All`: 1, and 0 of `As`.
#[tactic(auto, unfolding(looking::specs::View::and_then, looking::specs::View::or_else))]
pub fn import_glob(nodes: &[u32], n: u32) -> Seen<u32>
    ensures { answer result ≡ import_glob nodes.now n }
{
    match flag_of(
        nodes,
        n,
        Kinds::one(node::IMPORT_DECL),
        flag::IMPORT_DECL_GLOB,
    )? {
        None => kind_of(nodes, n, Kinds::one(node::IMPORT_AS_DECL)),
        glob => Ok(glob),
    }
}

// `Import::collect_path_segments`, its i-th.
pub fn import_path_segment(nodes: &[u32], n: u32, i: u32) -> Seen<u32>
    ensures { answer result ≡ import_path_segment i nodes.now n }
{
    let Some(path) = import_path(nodes, n)? else {
        return Ok(None);
    };
    nth_of(nodes, path, Kinds::ANY, NAME, i as u64)
}

// `Import::collect_path_segments`, counted.
pub fn import_path_segment_count(nodes: &[u32], n: u32) -> Seen<usize>
    ensures { answer result ≡ import_path_segment_count nodes.now n }
{
    let Some(path) = import_path(nodes, n)? else {
        return Ok(None);
    };
    count_of(nodes, path, Kinds::ANY, NAME)
}

// `Import::first_path_segment_span`.
pub fn import_first_path_segment_span(nodes: &[u32], n: u32) -> Seen<TokenSpan>
    ensures { answer result ≡ import_first_path_segment_span nodes.now n }
{
    let Some(path) = import_path(nodes, n)? else {
        return Ok(None);
    };
    span_child(nodes, path, Kinds::ANY, 0, NAME)
}

// The tokens of the i-th segment of a path.
fn segment_span(nodes: &[u32], path: u32, i: u64) -> Seen<TokenSpan>
    ensures { answer result ≡ segment_span i nodes.now path }
{
    let Some(segment) = nth_of(nodes, path, Kinds::ANY, NAME, i)? else {
        return Ok(None);
    };
    span_of(nodes, segment, NAME)
}

// The tokens of the segment that is the `back`-th from a path's end, or the first.
fn end_span(nodes: &[u32], path: u32, back: usize) -> Seen<TokenSpan>
    ensures { answer result ≡ end_span back nodes.now path }
{
    let Some(count) = count_of(nodes, path, Kinds::ANY, NAME)? else {
        return Ok(None);
    };
    segment_span(nodes, path, count.saturating_sub(back) as u64)
}

// `Import::last_path_segment_span`.
pub fn import_last_path_segment_span(nodes: &[u32], n: u32) -> Seen<TokenSpan>
    ensures { answer result ≡ import_last_path_segment_span nodes.now n }
{
    let Some(path) = import_path(nodes, n)? else {
        return Ok(None);
    };
    end_span(nodes, path, 1)
}

// From a path's first segment to the `back`-th from its end.
fn path_span(nodes: &[u32], path: u32, back: usize) -> Seen<TokenSpan>
    ensures { answer result ≡ path_span back nodes.now path }
{
    let Some(first) = span_child(nodes, path, Kinds::ANY, 0, NAME)? else {
        return Ok(None);
    };
    Ok(end_span(nodes, path, back)?.map(|last| TokenSpan {
        end: last.end,
        ..first
    }))
}

#[tactic(auto, using(std::proofs::lemmas::Bool::Decides::nat_tests), unfolding(looking::specs::View::and_then))]
fn file_path_span(nodes: &[u32], n: u32, path: u32) -> Seen<TokenSpan>
    ensures { answer result ≡ file_path_span n nodes.now path }
{
    match import_glob(nodes, n)? {
        None => Ok(None),
        Some(0) => path_span(nodes, path, 2),
        Some(_) => path_span(nodes, path, 1),
    }
}

// `Import::file_path_span`.
pub fn import_file_path_span(nodes: &[u32], n: u32) -> Seen<TokenSpan>
    ensures { answer result ≡ import_file_path_span nodes.now n }
{
    let Some(path) = import_path(nodes, n)? else {
        return Ok(None);
    };
    file_path_span(nodes, n, path)
}

// The i-th of the names before a group's first item.
fn group_segment(nodes: &[u32], n: u32, i: u64) -> Seen<u32>
    ensures { answer result ≡ import_group_path_segment i nodes.now n }
{
    let Some(group) = of(nodes, n, Kinds::one(node::IMPORT_GROUP_DECL))? else {
        return Ok(None);
    };
    nth(nodes, group.child, node::IMPORT_GROUP_ITEM, NAME, i)
}

// `ImportGroup::collect_path_segments`, its i-th.
pub fn import_group_path_segment(nodes: &[u32], n: u32, i: u32) -> Seen<u32>
    ensures { answer result ≡ import_group_path_segment i nodes.now n }
{
    group_segment(nodes, n, i as u64)
}

// `ImportGroup::collect_path_segments`, counted.
pub fn import_group_path_segment_count(nodes: &[u32], n: u32) -> Seen<usize>
    ensures { answer result ≡ import_group_path_segment_count nodes.now n }
{
    let Some(group) = of(nodes, n, Kinds::one(node::IMPORT_GROUP_DECL))? else {
        return Ok(None);
    };
    counted(nodes, group.child, node::IMPORT_GROUP_ITEM, NAME)
}

// `ImportGroup::first_path_segment_span`.
pub fn import_group_first_path_segment_span(nodes: &[u32], n: u32) -> Seen<TokenSpan>
    ensures { answer result ≡ import_group_first_path_segment_span nodes.now n }
{
    span_child(nodes, n, Kinds::one(node::IMPORT_GROUP_DECL), 0, NAME)
}

fn group_segment_span(nodes: &[u32], n: u32, i: u64) -> Seen<TokenSpan>
    ensures { answer result ≡ group_segment_span i nodes.now n }
{
    let Some(segment) = group_segment(nodes, n, i)? else {
        return Ok(None);
    };
    span_of(nodes, segment, NAME)
}

fn group_end_span(nodes: &[u32], n: u32) -> Seen<TokenSpan>
    ensures { answer result ≡ group_end_span nodes.now n }
{
    let Some(count) = import_group_path_segment_count(nodes, n)? else {
        return Ok(None);
    };
    group_segment_span(nodes, n, count.saturating_sub(1) as u64)
}

// `ImportGroup::file_path_span`.
pub fn import_group_file_path_span(nodes: &[u32], n: u32) -> Seen<TokenSpan>
    ensures { answer result ≡ import_group_file_path_span nodes.now n }
{
    let Some(first) = import_group_first_path_segment_span(nodes, n)? else {
        return Ok(None);
    };
    Ok(group_end_span(nodes, n)?.map(|last| TokenSpan {
        end: last.end,
        ..first
    }))
}
