// How the recorded answers of the Rust parser (data/parsed of crate cases) lie in the data.
use crate::lexed::{is_recorded, number};

// Where a record's parts lie in the data: the text, the words of nodes, values and reports, one behind the other, and the
// tries.
#[derive(Clone, Copy)]
pub(crate) struct Tree {
    pub text: usize,
    pub text_end: usize,
    pub nodes: usize,
    pub values: usize,
    pub reports: usize,
    pub words_end: usize,
    pub tries: usize,
    pub next: usize,
}

// How many words are lent, and the refusal's number and place; 0 and 0 where it is done.
#[derive(Clone, Copy, Default)]
pub(crate) struct Try {
    pub nodes: usize,
    pub values: usize,
    pub reports: usize,
    pub number: u32,
    pub place: u32,
}

// The most bytes of data that are read.
pub(crate) const LONGEST_DATA: usize = 229376;

// The bytes of a try: five numbers.
pub(crate) const TRY_BYTES: usize = 20;

// A number of the data; 0 where the data end before it.
pub(crate) fn number_at(file: &[u8], at: usize) -> u32 {
    let size = file.len();
    if size < 4 || size - 4 < at {
        return 0;
    }
    number(file, at)
}

// A part of the data; none where its ends fall or pass the data.
pub(crate) fn part(file: &[u8], start: usize, end: usize) -> &[u8] {
    if end < start || file.len() < end {
        return &file[..0];
    }
    &file[start..end]
}

// The record at a place; none where the data end inside it.
pub(crate) fn tree_at(file: &[u8], at: usize) -> Option<Tree> {
    let size = file.len();
    // So that no sum wraps.
    if LONGEST_DATA < size || size < at {
        return None;
    }
    let length = number_at(file, at) as usize;
    if size - at < length {
        return None;
    }
    let text = at + 4;
    let counts = text + length.div_ceil(4) * 4;
    let nodes = counts + 12;
    let values = nodes + number_at(file, counts) as usize * 4;
    let reports = values + number_at(file, counts + 4) as usize * 4;
    let words_end = reports + number_at(file, counts + 8) as usize * 4;
    let tries = words_end + 4;
    let next = tries + number_at(file, words_end) as usize * TRY_BYTES;
    if size < next {
        return None;
    }
    Some(Tree {
        text,
        text_end: text + length,
        nodes,
        values,
        reports,
        words_end,
        tries,
        next,
    })
}

// The try at a place; where the data end before it, one that lends nothing and is done: no text is read so.
pub(crate) fn try_at(file: &[u8], at: usize) -> Try {
    // So that no sum wraps.
    if LONGEST_DATA < at {
        return Try::default();
    }
    Try {
        nodes: number_at(file, at) as usize,
        values: number_at(file, at + 4) as usize,
        reports: number_at(file, at + 8) as usize,
        number: number_at(file, at + 12),
        place: number_at(file, at + 16),
    }
}

// A node's six words, as recorded.
const NODE_BYTES: usize = 24;

// Whether so many nodes, value words and reports are recorded.
pub(crate) fn are_counts(tree: Tree, n: usize, v: usize, r: usize) -> bool {
    n == tree.values.saturating_sub(tree.nodes) / NODE_BYTES
        && v == tree.reports.saturating_sub(tree.values) / 4
        && r == tree.words_end.saturating_sub(tree.reports) / 12
}

// Whether all words are the recorded ones, and 0 behind those.
pub(crate) fn are_recorded(
    file: &[u8],
    tree: Tree,
    nodes: &[u32],
    values: &[u32],
    reports: &[u32],
) -> bool {
    is_recorded(nodes, part(file, tree.nodes, tree.values))
        && is_recorded(values, part(file, tree.values, tree.reports))
        && is_recorded(reports, part(file, tree.reports, tree.words_end))
}

// Whether every word is 0.
pub(crate) fn are_zero(nodes: &[u32], values: &[u32], reports: &[u32]) -> bool {
    is_recorded(nodes, &[]) && is_recorded(values, &[]) && is_recorded(reports, &[])
}
