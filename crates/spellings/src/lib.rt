// Names: the first token that is spelled alike.
#![tactic(auto)]

ghost use Rattle.std.specs.Prelude.{◌≡◌, ◌&&◌, eqb};
ghost use Rattle.words.specs.Words.{token_kind};
ghost use Rattle.literals.specs.Spelling.{word_at, spelling, alike, first_alike};

use words::token;

// The kind of a token; past the words stands an Eof.
pub fn kind_at(tokens: &[u32], i: usize) -> u32
    ensures { result ≡ token_kind (word_at tokens.now i) }
{
    match tokens.get(i) {
        Some(word) => words::token_kind(*word),
        None => token::EOF,
    }
}

// Whether token `n` is of the kind and spelled `name`.
pub fn named(text: &[u8], tokens: &[u32], kind: u32, name: &[u8], n: usize) -> bool
    ensures { result ≡ (eqb (token_kind (word_at tokens.now n)) kind && alike (spelling text.now tokens.now n) name.now) }
{
    kind_at(tokens, n) == kind && lexer::spelling(text, tokens, n) == name
}

// The number of the first token of the kind that is spelled as token `i`. Where a byte differs, the scan of bytes goes on to the next
// token.
pub fn first_alike(text: &[u8], tokens: &[u32], kind: u32, i: u32) -> usize
    ensures { result ≡ first_alike text.now tokens.now kind i }
{
    let name = lexer::spelling(text, tokens, i as usize);
    'tokens: for n in 0..tokens.len() {
        if kind_at(tokens, n) != kind {
            continue;
        }
        let other = lexer::spelling(text, tokens, n);
        if other.len() != name.len() {
            continue;
        }
        for j in 0..name.len() {
            if other[j] != name[j] {
                continue 'tokens;
            }
        }
        return n;
    }
    tokens.len()
}
