// The values of literals and names: what the spelling of a token stands for.
#![tactic(auto)]

// A part of the text: the offset of its first byte, and the one past its last.
#[derive(Clone, Copy)]
pub struct Span {
    pub start: u32,
    pub end: u32,
}
