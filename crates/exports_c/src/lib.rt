// The library for programs in C and Rust: each function calls the one of the same name in crate exports, with the same clauses.
#![tactic(auto)]

ghost use Rattle.std.specs.Prelude.{◌≡◌, length};
ghost use Rattle.lexer.specs.Lex.{lexed, lexed_words};
ghost use Rattle.reader.specs.Read.{reads};
ghost use Rattle.codes.specs.Coded.{coded, viewed, spanned, bounds};
ghost use Rattle.accessors.specs.Views.{number_view, span_view, count_view};
ghost use Rattle.plank.specs.Reads.{lent};
ghost use Rattle.exports.specs.Told.{Told};

// `exports::plank_lex`: the number of tokens, or a refusal's number times 2 to the 32nd and its place.
#[unsafe(no_mangle)]
pub extern "C" fn plank_lex(text: &[u8], tokens: &mut [u32]) -> u64
    ensures { (result ≡ coded (lexed text.now (length tokens.old))) × (tokens.new ≡ lexed_words text.now (length tokens.old)) }
{
    exports::plank_lex(text, tokens)
}

// The same by the branching lexer, for those who compare the two.
#[unsafe(no_mangle)]
pub extern "C" fn plank_lex_branching(text: &[u8], tokens: &mut [u32]) -> u64
    ensures { (result ≡ coded (lexed text.now (length tokens.old))) × (tokens.new ≡ lexed_words text.now (length tokens.old)) }
{
    exports::plank_lex_branching(text, tokens)
}

// `exports::plank_read`: 0, and the counts of tokens, nodes, value words and reports in `counts`, where it has four words; or a refusal's
// number times 2 to the 32nd and its place.
#[unsafe(no_mangle)]
pub extern "C" fn plank_read(
    text: &[u8],
    tokens: &mut [u32],
    nodes: &mut [u32],
    values: &mut [u32],
    reports: &mut [u32],
    counts: &mut [u64],
) -> u64
    ensures { Told (reads text.now (lent tokens.old nodes.old values.old reports.old)) result tokens.new nodes.new values.new reports.new counts.old counts.new }
{
    exports::plank_read(text, tokens, nodes, values, reports, counts)
}

// `exports::plank_view`: what the accessor `which` (`accessors::number`) tells of node `n`: a number, 2 to the 63rd for none, or refusal 8
// times 2 to the 32nd and its place. Accessors of lists tell their i-th.
#[unsafe(no_mangle)]
pub extern "C" fn plank_view(which: u32, nodes: &[u32], n: u32, i: u32) -> u64
    ensures { result ≡ viewed (number_view which i nodes.now n) }
{
    exports::plank_view(which, nodes, n, i)
}

// As `plank_view`, of the accessors that count.
#[unsafe(no_mangle)]
pub extern "C" fn plank_view_count(which: u32, nodes: &[u32], n: u32) -> u64
    ensures { result ≡ viewed (count_view which nodes.now n) }
{
    exports::plank_view_count(which, nodes, n)
}

// As `plank_view`, of the accessors that tell tokens: 0, and the first token and the one past the last in `span`, where it has two words.
#[unsafe(no_mangle)]
pub extern "C" fn plank_view_span(which: u32, nodes: &[u32], n: u32, span: &mut [u32]) -> u64
    ensures { (result ≡ spanned (span_view which nodes.now n)) × (span.new ≡ bounds (span_view which nodes.now n) span.old) }
{
    exports::plank_view_span(which, nodes, n, span)
}
