// The words that are lent to the parser: their kinds as numbers, and how each word is packed and taken apart.
// A packed word is a high part over a low part. Whatever doesn't fit its part is cut off, so every function here is total.
#![tactic(auto)]

ghost use Rattle.std.specs.Prelude.{◌≡◌, ◌<◌};
ghost use Rattle.words.specs.Words.{pack, high, low};
ghost use Rattle.words.specs.Words.{token_word, token_kind, token_end, value_head, value_tag, value_count};
ghost use Rattle.words.specs.Words.{node_head, node_kind, node_payload, node_words, node_of};
ghost use Rattle.words.specs.Words.{report_head, report_kind, report_detail, report_words, report_of};

pub mod binary_op;
pub mod error_token;
pub mod flag;
pub mod node;
pub mod refusal;
pub mod report;
pub mod token;
pub mod unary_op;
pub mod value;

pub use error_token::ErrorToken;
pub use node::{NODE_WIDTH, Node};
pub use refusal::{Refusal, Refused};
pub use report::{REPORT_WIDTH, Report};

// The bits of each word's low part.
const TOKEN_LOW: u32 = 25;

const NODE_LOW: u32 = 26;

const VALUE_LOW: u32 = 30;

const REPORT_LOW: u32 = 26;

fn high(k: u32, w: u32) -> u32
    requires { k < 32 }
    ensures { result ≡ high k w }
{
    w >> k
}

fn low(k: u32, w: u32) -> u32
    requires { k < 32 }
    ensures { result ≡ low k w }
{
    w % (1 << k)
}

fn pack(k: u32, h: u32, l: u32) -> u32
    requires { k < 32 }
    ensures { result ≡ pack k h l }
{
    (h << k) + low(k, l)
}

pub fn token_word(kind: u32, end: u32) -> u32
    ensures { result ≡ token_word kind end }
{
    pack(TOKEN_LOW, kind, end)
}

pub fn token_kind(word: u32) -> u32
    ensures { result ≡ token_kind word }
{
    high(TOKEN_LOW, word)
}

pub fn token_end(word: u32) -> u32
    ensures { result ≡ token_end word }
{
    low(TOKEN_LOW, word)
}

pub fn node_head(kind: u32, payload: u32) -> u32
    ensures { result ≡ node_head kind payload }
{
    pack(NODE_LOW, kind, payload)
}

pub fn node_kind(word: u32) -> u32
    ensures { result ≡ node_kind word }
{
    high(NODE_LOW, word)
}

pub fn node_payload(word: u32) -> u32
    ensures { result ≡ node_payload word }
{
    low(NODE_LOW, word)
}

pub fn node_words(n: Node) -> [u32; NODE_WIDTH]
    ensures { result ≡ node_words n }
{
    [
        node_head(n.kind, n.payload),
        n.first,
        n.end,
        n.next,
        n.child,
        n.parent,
    ]
}

pub fn node_of(w: [u32; NODE_WIDTH]) -> Node
    ensures { result ≡ node_of w }
{
    Node {
        kind: node_kind(w[0]),
        payload: node_payload(w[0]),
        first: w[1],
        end: w[2],
        next: w[3],
        child: w[4],
        parent: w[5],
    }
}

pub fn value_head(tag: u32, count: u32) -> u32
    ensures { result ≡ value_head tag count }
{
    pack(VALUE_LOW, tag, count)
}

pub fn value_tag(word: u32) -> u32
    ensures { result ≡ value_tag word }
{
    high(VALUE_LOW, word)
}

pub fn value_count(word: u32) -> u32
    ensures { result ≡ value_count word }
{
    low(VALUE_LOW, word)
}

pub fn report_head(kind: u32, detail: u32) -> u32
    ensures { result ≡ report_head kind detail }
{
    pack(REPORT_LOW, kind, detail)
}

pub fn report_kind(word: u32) -> u32
    ensures { result ≡ report_kind word }
{
    high(REPORT_LOW, word)
}

pub fn report_detail(word: u32) -> u32
    ensures { result ≡ report_detail word }
{
    low(REPORT_LOW, word)
}

pub fn report_words(r: Report) -> [u32; REPORT_WIDTH]
    ensures { result ≡ report_words r }
{
    [report_head(r.kind, r.detail), r.start, r.end]
}

pub fn report_of(w: [u32; REPORT_WIDTH]) -> Report
    ensures { result ≡ report_of w }
{
    Report {
        kind: report_kind(w[0]),
        detail: report_detail(w[0]),
        start: w[1],
        end: w[2],
    }
}
