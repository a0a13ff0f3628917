// What reports, tokens, nodes and refusals are called, for people: tables of texts, which text a report has, and which characters
// can't be shown as they are.
#![tactic(auto)]

ghost use Rattle.std.specs.Prelude.{◌≡◌};
ghost use Rattle.messages.specs.Messages.{subject_of, sentence_of, is_control};

pub mod tables;

use words::{ErrorToken, report};

// What a sentence begins with: a token by its kind, a character by its code point, or the character of the text that the report covers.
#[derive(Clone, Copy)]
pub enum Subject {
    Token(u32),
    Character(u32),
    Covered,
}

// What the sentence of a report is about, if it names something.
#[tactic(auto, using(std::proofs::lemmas::Bool::Decides::nat_tests), unfolding(crate::specs::Messages::subject_of, crate::specs::Messages::error_subject))]
pub fn subject_of(kind: u32, detail: u32) -> Option<Subject>
    ensures { result ≡ subject_of kind detail }
{
    match kind {
        report::LEXER_ERROR if detail == ErrorToken::InvalidChar as u32 => Some(Subject::Covered),
        report::UNEXPECTED | report::MISSING_TOKEN | report::MISSING_SPECIFIC => Some(
            Subject::Token(detail),
        ),
        report::UNKNOWN_ESCAPE | report::NON_HEX_DIGIT => Some(Subject::Character(detail)),
        _ => None,
    }
}

// Behind the lines of the kinds stand those of the lexer errors.
const LEXER_ERRORS: u32 = report::BACKSLASH_AT_END + 1;

const LAST_LEXER_ERROR: u32 = ErrorToken::AtWithoutIdent as u32;

// The line of a report's sentence in `tables::SENTENCES`.
#[tactic(auto, using(std::proofs::lemmas::Bool::Decides::nat_tests), unfolding(crate::specs::Messages::sentence_of))]
pub fn sentence_of(kind: u32, detail: u32) -> u32
    ensures { result ≡ sentence_of kind detail }
{
    match kind {
        report::NON_ASCII => 0,
        report::LEXER_ERROR if detail <= LAST_LEXER_ERROR => LEXER_ERRORS + detail,
        0..=report::BACKSLASH_AT_END => kind,
        _ => 0,
    }
}

// Whether a terminal would obey a character in the place of showing it.
#[tactic(auto, using(std::proofs::lemmas::Bool::Decides::nat_tests), unfolding(crate::specs::Messages::is_control))]
pub fn is_control(c: u32) -> bool
    ensures { result ≡ is_control c }
{
    matches!(c, 0..=0x08 | 0x0A..=0x1F | 0x7F..=0x9F | 0x2028..=0x202E | 0x2066..=0x2069)
}
