// Replays the recorded answers of the Rust parser (data/parsed) and says which texts the parser answers otherwise.
use crate::lexed::{Turn, beginning, mark, number, replay};
use crate::recorded::{
    LONGEST_DATA, TRY_BYTES, Tree, Try, are_counts, are_recorded, are_zero, part, tree_at, try_at,
};
use parser::Parsed;
use std::io;

// What the parser answers; the words that are lent hold the pattern before.
fn parse_marked(
    text: &[u8],
    tokens: &[u32],
    nodes: &mut [u32],
    values: &mut [u32],
    reports: &mut [u32],
) -> Parsed {
    mark(nodes);
    mark(values);
    mark(reports);
    parser::parse(text, tokens, nodes, values, reports)
}

// Whether the parser answers a try as recorded. The slices have the lengths of the try.
fn is_answered(
    file: &[u8],
    tree: Tree,
    t: Try,
    tokens: &[u32],
    nodes: &mut [u32],
    values: &mut [u32],
    reports: &mut [u32],
) -> bool {
    let text = part(file, tree.text, tree.text_end);
    match parse_marked(text, tokens, nodes, values, reports) {
        Ok(counts) => {
            t.number == 0
                && are_counts(tree, counts.nodes as usize, counts.values, counts.reports)
                && are_recorded(file, tree, nodes, values, reports)
        }
        Err(refused) => {
            refused.number() == t.number
                && refused.place == t.place
                && are_zero(nodes, values, reports)
        }
    }
}

// A try, where there is room for what it lends.
fn is_try_same(
    file: &[u8],
    tree: Tree,
    t: Try,
    tokens: &[u32],
    nodes: &mut [u32],
    values: &mut [u32],
    reports: &mut [u32],
) -> bool {
    if nodes.len() < t.nodes || values.len() < t.values || reports.len() < t.reports {
        return false;
    }
    is_answered(
        file,
        tree,
        t,
        tokens,
        &mut nodes[..t.nodes],
        &mut values[..t.values],
        &mut reports[..t.reports],
    )
}

// Whether every try is answered as recorded; there is at least one.
fn are_tries_same(
    file: &[u8],
    tree: Tree,
    tokens: &[u32],
    nodes: &mut [u32],
    values: &mut [u32],
    reports: &mut [u32],
) -> bool {
    let mut at = tree.tries;
    let end = tree.next;
    // So that no sum wraps.
    if LONGEST_DATA < end || end <= at {
        return false;
    }
    while at < end {
        let t = try_at(file, at);
        if !is_try_same(file, tree, t, tokens, nodes, values, reports) {
            return false;
        }
        at += TRY_BYTES;
    }
    true
}

// The parser reads what the lexer gives.
fn is_tree_same(
    file: &[u8],
    tree: Tree,
    tokens: &mut [u32],
    nodes: &mut [u32],
    values: &mut [u32],
    reports: &mut [u32],
) -> bool {
    match plank::lex(part(file, tree.text, tree.text_end), tokens) {
        Ok(n) => {
            if tokens.len() < n {
                return false;
            }
            are_tries_same(file, tree, &tokens[..n], nodes, values, reports)
        }
        Err(_) => false,
    }
}

fn replay_tree(file: &[u8], at: usize) -> Option<Turn> {
    let mut tokens = [0u32; 2048];
    let mut nodes = [0u32; 8192];
    let mut values = [0u32; 2048];
    let mut reports = [0u32; 2048];
    let tree = tree_at(file, at)?;
    let is_same = is_tree_same(
        file,
        tree,
        &mut tokens,
        &mut nodes,
        &mut values,
        &mut reports,
    );
    Some(Turn {
        is_same,
        next: tree.next,
    })
}

fn replay_all(rt: &impl Print, file: &[u8]) -> io::Result<()> {
    if file.len() < 4 {
        return println!(rt; "data cut at tree 0");
    }
    let records = number(file, 0);
    replay(
        rt,
        "tree",
        "tree",
        file.len(),
        records,
        |at| replay_tree(file, at),
    )
}

pub(crate) fn replay_data(rt: &HostRuntime) -> io::Result<()> {
    match beginning(rt, "parsed", LONGEST_DATA as u32) {
        Ok(data) => {
            if LONGEST_DATA < data.len() {
                return println!(rt; "data too long");
            }
            replay_all(rt, data.as_slice())
        }
        Err(why) => {
            let _ = eprintln!(rt; "parsed: {why}");
            Ok(())
        }
    }
}
