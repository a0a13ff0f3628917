// Reading for programs in C and Rust: plain numbers and slices. Crate exports_c exports it.
#![tactic(auto)]

ghost use Rattle.std.specs.Prelude.{◌≡◌, length};
ghost use Rattle.lexer.specs.Lex.{answer, lexed, lexed_words};
ghost use Rattle.reader.specs.Read.{reads};
ghost use Rattle.codes.specs.Coded.{coded, viewed, spanned, bounds};
ghost use Rattle.accessors.specs.Views.{number_view, span_view, count_view};
ghost use Rattle.plank.specs.Reads.{lent};
ghost use Rattle.exports.specs.Told.{Told};

use lexer::Lexed;

// The number of tokens, or a refusal's number times 2 to the 32nd and its place.
fn lexed_code(lexed: Lexed) -> u64
    ensures { result ≡ coded (answer lexed) }
{
    match lexed {
        Ok(n) => n as u64,
        Err(refusal) => codes::refusal_code(refusal.number(), refusal.place),
    }
}

// `plank::lex`: the number of tokens, or a refusal's number times 2 to the 32nd and its place.
pub fn plank_lex(text: &[u8], tokens: &mut [u32]) -> u64
    ensures { (result ≡ coded (lexed text.now (length tokens.old))) × (tokens.new ≡ lexed_words text.now (length tokens.old)) }
{
    lexed_code(plank::lex(text, tokens))
}

// The same by the branching lexer, for those who compare the two.
pub fn plank_lex_branching(text: &[u8], tokens: &mut [u32]) -> u64
    ensures { (result ≡ coded (lexed text.now (length tokens.old))) × (tokens.new ≡ lexed_words text.now (length tokens.old)) }
{
    lexed_code(lexer::lex(text, tokens))
}

// `plank::read`: 0, and the counts of tokens, nodes, value words and reports in `counts`, where it has four words; or a refusal's number
// times 2 to the 32nd and its place.
pub fn plank_read(
    text: &[u8],
    tokens: &mut [u32],
    nodes: &mut [u32],
    values: &mut [u32],
    reports: &mut [u32],
    counts: &mut [u64],
) -> u64
    ensures { Told (reads text.now (lent tokens.old nodes.old values.old reports.old)) result tokens.new nodes.new values.new reports.new counts.old counts.new }
{
    match plank::read(text, tokens, nodes, values, reports) {
        Ok(read) => {
            codes::put_counts(counts, read.tokens, read.nodes, read.values, read.reports);
            0
        }
        Err(refused) => codes::refusal_code(refused.number(), refused.place),
    }
}

// What the accessor `which` (`accessors::number`) tells of node `n`: a number, 2 to the 63rd for none, or refusal 8 times 2 to the 32nd
// and its place. Accessors of lists tell their i-th.
pub fn plank_view(which: u32, nodes: &[u32], n: u32, i: u32) -> u64
    ensures { result ≡ viewed (number_view which i nodes.now n) }
{
    codes::view_code(accessors::number_view(which, nodes, n, i))
}

// As `plank_view`, of the accessors that count.
pub fn plank_view_count(which: u32, nodes: &[u32], n: u32) -> u64
    ensures { result ≡ viewed (count_view which nodes.now n) }
{
    codes::view_count_code(accessors::count_view(which, nodes, n))
}

// As `plank_view`, of the accessors that tell tokens: 0, and the first token and the one past the last in `span`, where it has two words.
pub fn plank_view_span(which: u32, nodes: &[u32], n: u32, span: &mut [u32]) -> u64
    ensures { (result ≡ spanned (span_view which nodes.now n)) × (span.new ≡ bounds (span_view which nodes.now n) span.old) }
{
    codes::view_span_code(accessors::span_view(which, nodes, n), span)
}
