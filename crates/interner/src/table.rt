// The table of names behind the text: two bytes for each name, the low one first.
ghost use Rattle.std.specs.Prelude.{◌≡◌, ◌+◌, ◌*◌, ◌≤◌, ◌<◌, length, get_or};
ghost use Rattle.reading.specs.Source.{table_start, slot_at, entry, is_name};
ghost use Rattle.interner.specs.Table.{written};

use words::token;

// No text has more bytes, so the table begins there.
pub(crate) const START: usize = 65536;

#[tactic(auto, using(std::proofs::lemmas::Bool::Decides::nat_tests))]
pub(crate) fn is_name(kind: u32) -> bool
    ensures { result ≡ is_name kind }
{
    matches!(kind, token::IDENTIFIER | token::BUILTIN_NAME)
}

// The place of token `i` in the table; past the words stands an Eof that ends at 0.
pub(crate) fn slot_at(tokens: &[u32], i: usize) -> usize
    ensures { (result ≡ slot_at tokens.now i) × (result ≤ 16777216) }
{
    if tokens.len() <= i {
        return 0;
    }
    (words::token_end(tokens[i]) as usize + 1) / 2
}

// A byte of the source, or of a name; past its end 0.
pub(crate) fn byte(source: &[u8], n: usize) -> usize
    ensures { (result ≡ get_or source.now n 0) × (result < 256) }
{
    if n < source.len() {
        return source[n] as usize;
    }
    0
}

// What the table says at a place.
pub(crate) fn get(source: &[u8], slot: usize) -> usize
    requires { slot ≤ 16777216 }
    ensures { result ≡ entry source.now slot }
{
    let at = 2 * slot;
    byte(source, 65534 + at) + 256 * byte(source, 65535 + at)
}

// The table is told of the name at a place.
#[tactic(auto, unfolding(crate::specs::Table::written))]
pub(crate) fn put(source: &mut [u8], slot: usize, first: usize)
    requires { (table_start + 2 * slot ≤ length source.old) × (slot ≤ 32768) × (first < 65536) }
    ensures { source.new ≡ written source.old slot first }
{
    let at = 2 * slot;
    source[65534 + at] = (first % 256) as u8;
    source[65535 + at] = (first / 256) as u8;
}
