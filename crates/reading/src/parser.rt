// The parser's type; what the definitions say of it names it, so it stands in a file of its own.
use definition::State;
use words::Refused;

#[derive(Drop)]
pub struct Parser<'a> {
    pub text: &'a [u8],
    pub tokens: &'a [u32],
    pub nodes: &'a mut [u32],
    pub values: &'a mut [u32],
    pub reports: &'a mut [u32],
    // How many expressions and blocks can still be opened inside those that are open.
    pub levels: u32,
    pub state: State,
    // Once refused, it stays so: each function then changes nothing that counts, so a reader needs no way out after each call.
    pub refused: Option<Refused>,
}
