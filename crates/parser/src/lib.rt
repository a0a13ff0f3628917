// The parser as a whole. `parse` is no public call: reading begins with the crate plank.
#![tactic(auto)]

ghost use Rattle.std.specs.Prelude.{◌≡◌, true, ◌≤◌, ◌<◌, length};
ghost use Rattle.definition.specs.Prog.{memory};
ghost use Rattle.definition.specs.Parse.{token_limit, parsed};
ghost use Rattle.reading.specs.Source.{Right};
ghost use Rattle.interner.specs.Table.{Annotates};
ghost use Rattle.parser.specs.Answers.{given, zeroed, begun, parsed_text};

use declarations::parse_file;
use definition::{Cursor, State};
use lexer::LONGEST_TEXT;
use reading::Parser;
use words::{Refusal, Refused};

// How many nodes, value words and reports there are.
#[derive(Clone, Copy, Debug, PartialEq, Eq)]
pub struct Counts {
    pub nodes: u32,
    pub values: usize,
    pub reports: usize,
}

pub type Parsed = Result<Counts, Refused>;

pub fn clear(words: &mut [u32])
    ensures { words.new ≡ zeroed words.old }
{
    lexer::clear(words, 0);
}

// Where the cursor stops: a token's number is a word.
fn token_limit(tokens: &[u32]) -> u32
    ensures { result ≡ token_limit tokens.now }
{
    let n = tokens.len();
    if n < 4294967295 {
        return n as u32;
    }
    4294967295
}

// Where reading begins.
fn begin(tokens: &[u32]) -> State
    ensures { result ≡ begun tokens.now }
{
    let cursor = Cursor {
        at: 0,
        end: token_limit(tokens),
    };
    State {
        cursor,
        mark: 0,
        nodes: 0,
        values: 0,
        reports: 0,
    }
}

// "Depth is the number of `try_parse_expr_min_bp` and `parse_block` readings open at one moment ..; entering the 257th is refusal 3" (01, Refusals).
const MAX_DEPTH: u32 = 256;

// Texts of up to so many tokens are parsed as they are: to look at all tokens for each name takes less time than to make a table.
const FEW_TOKENS: usize = 256;

// The text, or the text with a table of names behind it, is parsed.
fn parse_source(
    source: &[u8],
    tokens: &[u32],
    nodes: &mut [u32],
    values: &mut [u32],
    reports: &mut [u32],
) -> Parsed
    ensures { Right source.now tokens.now → given result (memory nodes.new values.new reports.new) ≡ parsed source.now tokens.now (length nodes.old) (length values.old) (length reports.old) }
{
    clear(nodes);
    clear(values);
    clear(reports);
    let mut p = Parser {
        text: source,
        tokens,
        nodes,
        values,
        reports,
        levels: MAX_DEPTH,
        state: begin(tokens),
        refused: None,
    };
    parse_file(&mut p);
    if let Some(refused) = p.refused {
        clear(p.nodes);
        clear(p.values);
        clear(p.reports);
        return Err(refused);
    }
    Ok(Counts {
        nodes: p.state.nodes,
        values: p.state.values,
        reports: p.state.reports,
    })
}

// The source is parsed where one was made of the text, else the text itself.
fn parse_annotated(
    made: bool,
    source: &[u8],
    text: &[u8],
    tokens: &[u32],
    nodes: &mut [u32],
    values: &mut [u32],
    reports: &mut [u32],
) -> Parsed
    requires { (length text.now ≤ 65536) × (made ≡ true → Annotates source.now text.now tokens.now) }
    ensures { given result (memory nodes.new values.new reports.new) ≡ parsed text.now tokens.now (length nodes.old) (length values.old) (length reports.old) }
{
    if made {
        return parse_source(source, tokens, nodes, values, reports);
    }
    parse_source(text, tokens, nodes, values, reports)
}

// A table of names is made first, so that each name is looked up in one step. As `annotate` is called at two sizes it stays a function of
// its own, and what it fills lies on the stack no longer while the text is parsed.
fn parse_with_table<const BYTES: usize>(
    text: &[u8],
    tokens: &[u32],
    nodes: &mut [u32],
    values: &mut [u32],
    reports: &mut [u32],
) -> Parsed
    requires { (length text.now ≤ 65536) × (BYTES < 9223372036854775808) }
    ensures { given result (memory nodes.new values.new reports.new) ≡ parsed text.now tokens.now (length nodes.old) (length values.old) (length reports.old) }
{
    let mut source = [0u8; BYTES];
    let made = interner::annotate(text, tokens, &mut source);
    parse_annotated(made, &source, text, tokens, nodes, values, reports)
}

// A text and its token words to nodes, values and reports; the rest of each slice is 0, and all of it on refusal. The token words
// need not be a text's.
pub fn parse(
    text: &[u8],
    tokens: &[u32],
    nodes: &mut [u32],
    values: &mut [u32],
    reports: &mut [u32],
) -> Parsed
    ensures { given result (memory nodes.new values.new reports.new) ≡ parsed_text text.now tokens.now (length nodes.old) (length values.old) (length reports.old) }
{
    if LONGEST_TEXT < text.len() {
        clear(nodes);
        clear(values);
        clear(reports);
        return Err(Refusal::TooLong.at(LONGEST_TEXT as u32));
    }
    if tokens.len() <= FEW_TOKENS {
        return parse_source(text, tokens, nodes, values, reports);
    }
    if text.len() <= interner::SHORT_TEXT {
        return parse_with_table::<{ interner::SHORT_SOURCE_BYTES }>(
            text, tokens, nodes, values, reports,
        );
    }
    parse_with_table::<{ interner::SOURCE_BYTES }>(text, tokens, nodes, values, reports)
}
