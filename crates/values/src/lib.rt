// Literal values: what numbers and strings share.
#![tactic(auto)]

ghost use Rattle.std.specs.Prelude.{◌≡◌};
ghost use Rattle.words.specs.Words.{value_head};
ghost use Rattle.values.specs.Kept.{past_words};

pub mod digit;

use reading::Parser;

// The counts that a value's first word can tell.
const COUNTS: usize = 1073741824;

// The first word of a value. What doesn't fit it is cut off.
pub fn head(tag: u32, count: usize) -> u32
    ensures { result ≡ value_head tag count }
{
    words::value_head(tag, (count % COUNTS) as u32)
}

// The next value goes at `end`.
pub fn past(p: &mut Parser, end: usize)
    ensures { p.new ≡ past_words p.old end }
{
    p.state.values = end;
}
