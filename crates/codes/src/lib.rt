// Answers as plain numbers, for programs in C and Rust, which have no enum of Rattle's.
#![tactic(auto)]

ghost use Rattle.std.specs.Prelude.{◌≡◌, [], ◌∷◌};
ghost use Rattle.words.specs.Answer.{done, refused};
ghost use Rattle.looking.specs.View.{is, answer};
ghost use Rattle.codes.specs.Coded.{coded, counted, viewed, spanned, bounds};

use looking::{Seen, TokenSpan};

// A refusal as one number: its number times 2 to the 32nd, and its place. No refusal has number 0, so it is above every count of 32 bits.
pub fn refusal_code(number: u32, place: u32) -> u64
    ensures { result ≡ coded (refused number place) }
{
    (number as u64) * 4294967296 + place as u64
}

// The counts of what was read, where four words are lent for them.
pub fn put_counts(counts: &mut [u64], tokens: usize, nodes: u32, values: usize, reports: usize)
    ensures { counts.new ≡ counted (done (tokens ∷ nodes ∷ values ∷ reports ∷ [])) counts.old }
{
    if counts.len() < 4 {
        return;
    }
    counts[0] = tokens as u64;
    counts[1] = nodes as u64;
    counts[2] = values as u64;
    counts[3] = reports as u64;
}

// None, as a view's answer: 2 to the 63rd, which is no number of 32 bits and no refusal.
const NOTHING: u64 = 9223372036854775808;

// What a view tells, as one number: the number itself, none, or a refusal.
fn seen_code(seen: Seen<u64>) -> u64
    ensures { result ≡ viewed (answer seen) }
{
    match seen {
        Ok(seen) => seen.unwrap_or(NOTHING),
        Err(altered) => refusal_code(words::Refusal::AlteredNodes as u32, altered.node),
    }
}

// A number and a count: two functions, as `u64` is no `From<usize>`.
pub fn view_code(seen: Seen<u32>) -> u64
    ensures { result ≡ viewed (answer seen) }
{
    seen_code(seen.map(|seen| seen.map(u64::from)))
}

pub fn view_count_code(seen: Seen<usize>) -> u64
    ensures { result ≡ viewed (answer seen) }
{
    seen_code(seen.map(|seen| seen.map(|n| n as u64)))
}

// The first token and the one past the last, where two words are lent for them.
fn put_span(lent: &mut [u32], span: TokenSpan)
    ensures { lent.new ≡ bounds (is span) lent.old }
{
    if lent.len() < 2 {
        return;
    }
    lent[0] = span.start;
    lent[1] = span.end;
}

// What a view of tokens tells: 0, and the tokens in `lent`, none, or a refusal.
pub fn view_span_code(seen: Seen<TokenSpan>, lent: &mut [u32]) -> u64
    ensures { (result ≡ spanned (answer seen)) × (lent.new ≡ bounds (answer seen) lent.old) }
{
    if let Ok(Some(span)) = seen {
        put_span(lent, span);
    }
    seen_code(seen.map(|seen| seen.map(|_| 0)))
}
