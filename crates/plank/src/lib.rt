// The library: reading a script, and lexing it.
#![tactic(auto)]

ghost use Rattle.std.specs.Prelude.{◌≡◌, [], ◌∷◌, ◌≤◌, length};
ghost use Rattle.words.specs.Answer.{done};
ghost use Rattle.lexer.specs.Lex.{answer, lexed, lexed_words};
ghost use Rattle.reader.specs.Read.{after_lexing, reads};
ghost use Rattle.reader.specs.Demand.{Agrees};
ghost use Rattle.plank.specs.Reads.{given, lent};

use lexer::Lexed;
use words::Refused;

// How many tokens, nodes, value words and reports there are.
#[derive(Clone, Copy, Debug, PartialEq, Eq)]
pub struct Counts {
    pub tokens: usize,
    pub nodes: u32,
    pub values: usize,
    pub reports: usize,
}

pub type Outcome = Result<Counts, Refused>;

// The first n words are the tokens that were lexed; they are parsed.
fn parse_lexed(
    text: &[u8],
    tokens: &mut [u32],
    nodes: &mut [u32],
    values: &mut [u32],
    reports: &mut [u32],
    n: usize,
) -> Outcome
    requires { (n ≤ length tokens.old) × (length text.now ≤ 65536) }
    ensures { given result tokens.new nodes.new values.new reports.new ≡ after_lexing text.now (lent tokens.old nodes.old values.old reports.old) tokens.old (done (n ∷ [])) }
{
    match parser::parse(text, &tokens[..n], nodes, values, reports) {
        Ok(parsed) => Ok(Counts {
            tokens: n,
            nodes: parsed.nodes,
            values: parsed.values,
            reports: parsed.reports,
        }),
        Err(refused) => {
            parser::clear(tokens);
            Err(refused)
        }
    }
}

// A text to its tokens, nodes, values and reports, as words; the rest of each slice is 0, and all of them on refusal.
// Report count 0 exactly where the chart derives the text's row of tokens, which then has one tree, and the words hold it.
pub fn read(
    text: &[u8],
    tokens: &mut [u32],
    nodes: &mut [u32],
    values: &mut [u32],
    reports: &mut [u32],
) -> Outcome
    ensures { (given result tokens.new nodes.new values.new reports.new ≡ reads text.now (lent tokens.old nodes.old values.old reports.old)) × Agrees text.now (given result tokens.new nodes.new values.new reports.new) }
{
    match tables::lex(text, tokens) {
        Ok(n) => parse_lexed(text, tokens, nodes, values, reports, n),
        Err(refused) => {
            parser::clear(nodes);
            parser::clear(values);
            parser::clear(reports);
            Err(refused)
        }
    }
}

// A text to its tokens alone, as words; the rest of the slice is 0, and all of it on refusal.
pub fn lex(text: &[u8], tokens: &mut [u32]) -> Lexed
    ensures { (answer result ≡ lexed text.now (length tokens.old)) × (tokens.new ≡ lexed_words text.now (length tokens.old)) }
{
    tables::lex(text, tokens)
}
