// UTF-8 (RFC 3629): whether a text is well-formed, and the character at an offset.
#![tactic(auto)]

ghost use Rattle.std.specs.Prelude.{◌≡◌, true, ◌+◌, ◌-◌, ◌*◌, ◌%◌, ◌≤◌, ◌<◌, length, get_or, take, drop};
ghost use Rattle.utf8.specs.Utf8.{checked, character_at, code_point, sequence, follow};
ghost use Rattle.utf8.specs.Rows.{ranges};
ghost use Rattle.utf8.specs.Ascii.{Ascii};

// How a sequence is wrong: its first byte starts none, a later byte is not allowed there, or the text ends inside it.
#[derive(Clone, Copy, Debug, PartialEq, Eq)]
pub enum Way {
    NoStart,
    NotAllowed,
    Cut,
}

// How and at which offset the first wrong sequence of a text is.
#[derive(Clone, Copy, Debug, PartialEq, Eq)]
pub struct NotUtf8 {
    pub way: Way,
    pub at: usize,
}

// A character by its code point, and its length in bytes.
#[derive(Clone, Copy, Debug, PartialEq, Eq)]
pub struct Character {
    pub code_point: u32,
    pub length: usize,
}

// The bytes after the first of a sequence of `whole` bytes at `at`: the second from `low` to `high`, the others tails.
fn following(text: &[u8], at: usize, whole: usize, low: u8, high: u8) -> Result<usize, Way>
    requires { (at < length text.now) × (1 ≤ whole) }
    ensures { result ≡ follow 1 (ranges (whole - 1) low high) (drop (at + 1) text.now) }
{
    let mut lo = low;
    let mut hi = high;
    for n in 1..whole {
        if text.len() - at <= n {
            return Err(Way::Cut);
        }
        let byte = text[at + n];
        if byte < lo || hi < byte {
            return Err(Way::NotAllowed);
        }
        lo = 0x80;
        hi = 0xBF;
    }
    Ok(whole)
}

// The sequence at `at`, by the rows of the RFC's table: its length, or how it is wrong.
fn sequence_at(text: &[u8], at: usize) -> Result<usize, Way>
    requires { at < length text.now }
    ensures { result ≡ sequence (get_or text.now at 0) (drop (at + 1) text.now) }
{
    match text[at] {
        0x00..=0x7F => Ok(1),
        0x80..=0xC1 => Err(Way::NoStart),
        0xC2..=0xDF => following(text, at, 2, 0x80, 0xBF),
        0xE0 => following(text, at, 3, 0xA0, 0xBF),
        0xE1..=0xEC => following(text, at, 3, 0x80, 0xBF),
        0xED => following(text, at, 3, 0x80, 0x9F),
        0xEE..=0xEF => following(text, at, 3, 0x80, 0xBF),
        0xF0 => following(text, at, 4, 0x90, 0xBF),
        0xF1..=0xF3 => following(text, at, 4, 0x80, 0xBF),
        0xF4 => following(text, at, 4, 0x80, 0x8F),
        _ => Err(Way::NoStart),
    }
}

// Whether the eight bytes from `at` on are there, and ASCII: one test for all, as most texts are nothing else.
fn are_ascii(text: &[u8], at: usize) -> bool
    requires { at ≤ length text.now }
    ensures { result ≡ true → Ascii text.now at 8 }
{
    if text.len() - at < 8 {
        return false;
    }
    let first = text[at] | text[at + 1] | text[at + 2] | text[at + 3];
    let second = text[at + 4] | text[at + 5] | text[at + 6] | text[at + 7];
    (first | second) < 0x80
}

// Whether `text` is well-formed.
pub fn check(text: &[u8]) -> Result<(), NotUtf8>
    ensures { result ≡ checked text.now }
{
    let mut at = 0;
    while at < text.len() {
        if are_ascii(text, at) {
            at += 8;
        } else {
            match sequence_at(text, at) {
                Ok(n) => at += n,
                Err(way) => return Err(NotUtf8 { way, at }),
            }
        }
    }
    Ok(())
}

// The bits of `bits` and then the low six of `byte`.
fn joined(bits: u32, byte: u8) -> u32
    requires { bits < 32768 }
    ensures { result ≡ bits * 64 + byte % 64 }
{
    bits * 64 + (byte % 64) as u32
}

// The code point of the sequence of `n` bytes at `at`.
fn code_point(text: &[u8], at: usize, n: usize) -> u32
    requires { (at + n ≤ length text.now) × (1 ≤ n) × (n ≤ 4) }
    ensures { result ≡ code_point (take n (drop at text.now)) }
{
    let lead = text[at];
    if n == 1 {
        return (lead % 128) as u32;
    }
    let second = text[at + 1];
    if n == 2 {
        return joined((lead % 32) as u32, second);
    }
    let third = text[at + 2];
    if n == 3 {
        return joined(joined((lead % 16) as u32, second), third);
    }
    let fourth = text[at + 3];
    joined(joined(joined((lead % 8) as u32, second), third), fourth)
}

// The character at the offset `at`: nothing where no right sequence is there.
pub fn character_at(text: &[u8], at: usize) -> Option<Character>
    ensures { result ≡ character_at (drop at text.now) }
{
    if text.len() <= at {
        return None;
    }
    let Ok(length) = sequence_at(text, at) else {
        return None;
    };
    Some(Character {
        code_point: code_point(text, at, length),
        length,
    })
}
