// All names in one pass: the names of a bucket that are the first of their spelling hang in a tree, and a name is looked for along the
// bits of its own label and spelling.
ghost use Rattle.std.specs.Prelude.{◌≡◌, true, ◌+◌, ◌*◌, ◌/◌, ◌≤◌, ◌<◌, length};
ghost use Rattle.interner.specs.Order.{name_at};
ghost use Rattle.interner.specs.Hash.{buckets, hash, bit_of, turn_of};
ghost use Rattle.interner.specs.Table.{Table};
ghost use Rattle.interner.specs.State.{State, Ends};

use crate::table;

const BUCKETS: usize = 8192;

// Behind the links of the buckets stand two for each place in the table; places count from 1.
const LINKS: usize = 8190;

// How many links there are for a short text, and for any.
const FEW: usize = BUCKETS + crate::SHORT_TEXT;

const MANY: usize = BUCKETS + table::START;

const LABEL_BITS: usize = 48;

// What of a hash chooses no bucket is below this.
const REST: usize = 524288;

// A hash of 32 bits.
fn hash(s: &[u8]) -> usize
    ensures { (result ≡ hash s.now) × (result < 4294967296) }
{
    let mut h = 0;
    for b in s {
        h = (h * 16777619 + *b as usize) % 4294967296;
    }
    h
}

#[tactic(auto, unfolding(crate::specs::Hash::bit_of))]
fn bit(n: usize, k: usize) -> usize
    requires { k < 64 }
    ensures { (result ≡ bit_of n k) × (result < 2) }
{
    (n >> k) % 2
}

// The way that the search for a name takes at its k-th step.
fn turn(label: usize, name: &[u8], k: usize) -> usize
    ensures { (result ≡ turn_of label name.now k) × (result < 2) }
{
    if k < LABEL_BITS {
        return bit(label, k);
    }
    let back = (k - LABEL_BITS) / 8 + 1;
    bit(table::byte(name, name.len().saturating_sub(back)), k % 8)
}

// Where the search for token `i`, a name, ends: at the link to the first that is spelled so, or at an empty one, where `i` is to hang.
fn search(text: &[u8], tokens: &[u32], source: &[u8], links: &[u16], i: usize) -> usize
    requires i_in_bounds { (i < length tokens.now) × (name_at tokens.now i ≡ true) }
    requires state { State text.now tokens.now source.now links.now i }
    ensures { Ends text.now tokens.now source.now links.now i result }
{
    let kind = spellings::kind_at(tokens, i);
    let name = lexer::spelling(text, tokens, i);
    let h = hash(name);
    let label = h / BUCKETS + REST * (kind as usize + 128 * name.len());
    let mut p = h % BUCKETS;
    let mut k = 0;
    loop {
        let c = links[p] as usize;
        if c == 0 {
            return p;
        }
        if spellings::named(text, tokens, kind, name, table::get(source, c)) {
            return p;
        }
        p = LINKS + 2 * c + turn(label, name, k);
        k += 1;
    }
}

// Token `i`, a name, is looked up and told to the table; the first of its spelling hangs where the search ended.
fn add(text: &[u8], tokens: &[u32], source: &mut [u8], links: &mut [u16], i: usize)
    requires i_in_bounds { (i < length tokens.now) × (name_at tokens.now i ≡ true) }
    requires state { State text.now tokens.now source.old links.old i }
    ensures { State text.now tokens.now source.new links.new (i + 1) }
{
    let slot = table::slot_at(tokens, i);
    let p = search(text, tokens, source, links, i);
    let c = links[p] as usize;
    if c == 0 {
        links[p] = slot as u16;
        table::put(source, slot, i);
        return;
    }
    let first = table::get(source, c);
    table::put(source, slot, first);
}

// One token more.
fn step(text: &[u8], tokens: &[u32], source: &mut [u8], links: &mut [u16], i: usize)
    requires i_in_bounds { i < length tokens.now }
    requires state { State text.now tokens.now source.old links.old i }
    ensures { State text.now tokens.now source.new links.new (i + 1) }
{
    if table::is_name(spellings::kind_at(tokens, i)) {
        add(text, tokens, source, links, i);
    }
}

// The tokens one after the other.
fn fill(text: &[u8], tokens: &[u32], source: &mut [u8], links: &mut [u16])
    requires { State text.now tokens.now source.old links.old 0 }
    ensures { Table text.now tokens.now source.new (length tokens.now) }
{
    for i in 0..tokens.len() {
        step(text, tokens, source, links, i);
    }
}

// The whole table, by `N` links: those of the buckets, and two for each place.
fn fill_with<const N: usize>(text: &[u8], tokens: &[u32], source: &mut [u8])
    requires room { (buckets + 2 * ((length text.now + 1) / 2) ≤ N) × (N ≤ 73728) }
    requires table { Table text.now tokens.now source.old 0 }
    ensures { Table text.now tokens.now source.new (length tokens.now) }
{
    let mut links = [0u16; N];
    fill(text, tokens, source, &mut links);
}

// The whole table. Of a short text less is cleared for it first.
pub(crate) fn tell(text: &[u8], tokens: &[u32], source: &mut [u8])
    requires { Table text.now tokens.now source.old 0 }
    ensures { Table text.now tokens.now source.new (length tokens.now) }
{
    if text.len() <= crate::SHORT_TEXT {
        fill_with::<FEW>(text, tokens, source);
        return;
    }
    fill_with::<MANY>(text, tokens, source);
}
