// A source is a copy of the text with a table of its names behind it: the parser asks of each name which token was the
// first to be spelled so, and a table made in one pass spares it a look at all tokens for each.
#![tactic(auto)]

ghost use Rattle.std.specs.Prelude.{◌≡◌, true, false, ◌&&◌, ◌≤◌, length, take};
ghost use Rattle.reading.specs.Source.{is_told, first_of};
ghost use Rattle.interner.specs.Same.{all_inside};
ghost use Rattle.interner.specs.Order.{names_rise};
ghost use Rattle.interner.specs.Table.{Annotates, annotatable};

mod table;
mod trees;

// The bytes of a source for any text.
pub const SOURCE_BYTES: usize = 131072;

// The most bytes of a short text, and the bytes of a source for it: less is cleared first.
pub const SHORT_TEXT: usize = 8192;

pub const SHORT_SOURCE_BYTES: usize = 73728;

// Whether there is a table, and token `i` is a name of this kind.
#[tactic(auto, using(std::proofs::lemmas::Bool::Decides::nat_tests), unfolding(reading::specs::Source::is_told))]
fn told(source: &[u8], tokens: &[u32], kind: u32, i: usize) -> bool
    ensures { result ≡ is_told source.now tokens.now kind i }
{
    table::START < source.len() && table::is_name(kind) && spellings::kind_at(tokens, i) == kind
}

// The first token of a kind that is spelled as token `i`: from the table, or found by looking at all tokens.
#[tactic(auto, unfolding(reading::specs::Source::first_of))]
pub fn first_of(source: &[u8], tokens: &[u32], kind: u32, i: u32) -> usize
    ensures { result ≡ first_of source.now tokens.now kind i }
{
    let n = i as usize;
    if told(source, tokens, kind, n) {
        return table::get(source, table::slot_at(tokens, n));
    }
    spellings::first_alike(source, tokens, kind, i)
}

// Whether all tokens end at `n` or before it, and the names' places in the table rise, so that no two share one; the number of each name fits
// two bytes. So it is with all that lexing makes (`every-text`).
fn in_order(tokens: &[u32], n: usize) -> bool
    ensures { result ≡ (all_inside tokens.now n && names_rise tokens.now) }
{
    let mut last = 0;
    for i in 0..tokens.len() {
        let end = words::token_end(tokens[i]) as usize;
        if n < end {
            return false;
        }
        if table::is_name(spellings::kind_at(tokens, i)) {
            let slot = table::slot_at(tokens, i);
            if slot <= last {
                return false;
            }
            if table::START <= i {
                return false;
            }
            last = slot;
        }
    }
    true
}

// The source begins with the text. The library's copy would be a call of `memmove`, which programs in C would have to bring.
fn copy(text: &[u8], source: &mut [u8])
    requires { length text.now ≤ length source.old }
    ensures { take (length text.now) source.new ≡ text.now }
{
    for i in 0..text.len() {
        source[i] = text[i];
    }
}

// The source of a text and its tokens: the text, and the table of its names. It answers false, and leaves what it was lent, where the
// text is longer than any, the source has no room for it, a token ends past it, or names share a place in the table.
pub fn annotate(text: &[u8], tokens: &[u32], source: &mut [u8]) -> bool
    ensures { (result ≡ annotatable text.now tokens.now (length source.old)) × (result ≡ true → Annotates source.new text.now tokens.now) × (result ≡ false → source.new ≡ source.old) }
{
    if table::START < text.len() {
        return false;
    }
    if source.len() < table::START + 2 * ((text.len() + 1) / 2) {
        return false;
    }
    if in_order(tokens, text.len()) {
        copy(text, source);
        trees::tell(text, tokens, source);
        return true;
    }
    false
}
