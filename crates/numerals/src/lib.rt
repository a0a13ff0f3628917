// Number literals.
#![tactic(auto)]

ghost use Rattle.std.specs.Prelude.{◌≡◌, ◌+◌, ◌*◌, ◌≤◌, ◌<◌, length, drop};
ghost use Rattle.literals.specs.Numbers.{nibble, limbs, digits, number_value};
ghost use Rattle.literals.specs.Spelling.{spelling};
ghost use Rattle.definition.specs.Prog.{value};
ghost use Rattle.reading.specs.Does.{Does};
ghost use Rattle.numerals.specs.Limbs.{multiplied, carried};
ghost use Rattle.numerals.specs.Numbers.{radix_of, Pushed};
ghost use Rattle.numerals.specs.Times.{Parted};
ghost use Rattle.numerals.specs.Four.{unit, number, Positive};
ghost use Rattle.numerals.specs.Chunks.{Radix, Chunk};
ghost use Rattle.numerals.specs.Put.{Takes, Begun};
ghost use Rattle.values.specs.Digits.{option, Under};
ghost use Rattle.values.specs.Kept.{Put, Kept};

mod hexadecimal;

use reading::Parser;
use values::digit;
use words::Refusal;

// The radix of a number token.
#[derive(Clone, Copy)]
pub enum Base {
    Binary,
    Decimal,
    Hexadecimal,
}

// One limb is one word.
const LIMB_BASE: u64 = 4294967296;

// A limb of a product, and what is carried on to the next.
#[derive(Clone, Copy)]
pub(crate) struct Product {
    pub limb: u32,
    pub carry: u32,
}

// A limb times `radix`, and a carry more.
fn limb_times(limb: u32, radix: u32, carry: u32) -> Product
    ensures { Parted (limb * radix + carry) result.carry result.limb }
{
    let sum = limb as u64 * radix as u64 + carry as u64;
    Product {
        limb: (sum % LIMB_BASE) as u32,
        carry: (sum / LIMB_BASE) as u32,
    }
}

// Limbs, least first, times `radix` and `digit` more: what is carried past the last.
fn times(limbs: &mut [u32], radix: u32, digit: u32) -> u32
    ensures { (result ≡ carried radix digit limbs.old) × (limbs.new ≡ multiplied radix digit limbs.old) }
{
    let mut carry = digit;
    for limb in limbs.iter_mut() {
        let p = limb_times(*limb, radix, carry);
        *limb = p.limb;
        carry = p.carry;
    }
    carry
}

// One digit more, or some that make one of a larger radix, to the number whose `n` limbs stand in front of `room`.
fn push(room: &mut [u32], n: usize, radix: u32, digit: u32) -> Option<usize>
    requires { n ≤ length room.old }
    ensures { Pushed radix digit room.old n result room.new }
{
    let carry = times(&mut room[..n], radix, digit);
    if carry == 0 {
        return Some(n);
    }
    if room.len() <= n {
        return None;
    }
    room[n] = carry;
    Some(n + 1)
}

// Four chunks of digits, the first one first: their units, or their values, or what each carries on.
#[derive(Clone, Copy)]
pub(crate) struct Four {
    pub a: u32,
    pub b: u32,
    pub c: u32,
    pub d: u32,
}

// Limbs times four units, with a value more after each, in one pass: the four carries don't wait for each other.
fn times_four(limbs: &mut [u32], units: Four, values: Four) -> Four
    ensures { (number units result ≡ carried (unit units) (number units values) limbs.old) × (limbs.new ≡ multiplied (unit units) (number units values) limbs.old) }
{
    let mut carry = values;
    for limb in limbs.iter_mut() {
        let a = limb_times(*limb, units.a, carry.a);
        let b = limb_times(a.limb, units.b, carry.b);
        let c = limb_times(b.limb, units.c, carry.c);
        let d = limb_times(c.limb, units.d, carry.d);
        *limb = d.limb;
        carry = Four {
            a: a.carry,
            b: b.carry,
            c: c.carry,
            d: d.carry,
        };
    }
    carry
}

// The limbs of the number that four chunks make, in front of `room`.
fn put_four(room: &mut [u32], units: Four, values: Four) -> Option<usize>
    requires { Positive units }
    ensures { Put (limbs (number units values)) room.old result room.new }
{
    let a = push(room, 0, units.a, values.a)?;
    let b = push(room, a, units.b, values.b)?;
    let c = push(room, b, units.c, values.c)?;
    push(room, c, units.d, values.d)
}

// Four chunks of digits more. What is carried past the last limb is a number of its own.
fn push_four(room: &mut [u32], n: usize, units: Four, values: Four) -> Option<usize>
    requires { (n ≤ length room.old) × Positive units }
    ensures { Pushed (unit units) (number units values) room.old n result room.new }
{
    let carry = times_four(&mut room[..n], units, values);
    let m = put_four(&mut room[n..], units, carry)?;
    Some(n + m)
}

// Some digits: what they make, what a number before them is multiplied by, and where the next ones stand.
#[derive(Clone, Copy)]
pub(crate) struct Digits {
    pub value: u32,
    pub unit: u32,
    pub next: usize,
}

// `nibble`, where 0 to 9 are expected: they are told first.
fn digit_of(c: u32) -> Option<u32>
    ensures { (option result ≡ nibble c) × Under 16 result }
{
    match c {
        48..=57 => Some(c - 48),
        _ => digit::nibble(c),
    }
}

// A unit below which a digit more fits, also one above the radix.
const SMALL_UNIT: u32 = 143165577;

// The digits of `source` from byte `i` on, as many as fit. All that is no digit is passed over.
fn chunk_at(source: &[u8], i: usize, radix: u32) -> Digits
    requires { Radix radix }
    ensures { Chunk radix source.now i result.value result.unit result.next }
{
    let mut value = 0;
    let mut unit = 1;
    let mut j = i;
    // A `for` was tried: short numbers took a fifth longer.
    while j < source.len() {
        if SMALL_UNIT <= unit {
            return Digits {
                value,
                unit,
                next: j,
            };
        }
        let c = source[j] as u32;
        j += 1;
        if let Some(digit) = digit_of(c) {
            value = value * radix + digit;
            unit *= radix;
        }
    }
    Digits {
        value,
        unit,
        next: j,
    }
}

// How many limbs a number has with some digits more, if there is room for them, and where the next ones stand.
#[derive(Clone, Copy)]
pub(crate) struct Taken {
    pub count: Option<usize>,
    pub next: usize,
}

// Four chunks of the digits of `source` from byte `i` on, pushed. Those past the last digit are of none.
fn take_four(source: &[u8], i: usize, radix: u32, room: &mut [u32], n: usize) -> Taken
    requires { (n ≤ length room.old) × Radix radix }
    ensures { Takes radix source.now i room.old n result.count room.new result.next }
{
    let a = chunk_at(source, i, radix);
    let b = chunk_at(source, a.next, radix);
    let c = chunk_at(source, b.next, radix);
    let d = chunk_at(source, c.next, radix);
    let units = Four {
        a: a.unit,
        b: b.unit,
        c: c.unit,
        d: d.unit,
    };
    let values = Four {
        a: a.value,
        b: b.value,
        c: c.value,
        d: d.value,
    };
    let count = push_four(room, n, units, values);
    Taken {
        count,
        next: d.next,
    }
}

// As many bytes as four chunks of decimal digits are.
const FOUR_CHUNKS: usize = 36;

// The limbs of the number that the digits of `source` from `prefix` on make, in front of `room`, but for the last digits:
// four chunks at a time, as long as there are so many.
fn put_fours(source: &[u8], prefix: usize, radix: u32, room: &mut [u32]) -> Taken
    requires { Radix radix }
    ensures { Begun radix source.now prefix room.old result.count room.new result.next }
{
    let mut n = 0;
    let mut i = prefix;
    // The step isn't one: it is as many bytes as four chunks take.
    while i < source.len() {
        if source.len() - i < FOUR_CHUNKS {
            return Taken {
                count: Some(n),
                next: i,
            };
        }
        let t = take_four(source, i, radix, room, n);
        i = t.next;
        let Some(m) = t.count else { return t };
        n = m;
    }
    Taken {
        count: Some(n),
        next: i,
    }
}

// The limbs of the number that the digits of `source` from `prefix` on make, in front of `room`, chunk by chunk.
fn put_chunks(source: &[u8], prefix: usize, radix: u32, room: &mut [u32]) -> Option<usize>
    requires { Radix radix }
    ensures { Put (limbs (digits radix 0 (drop prefix source.now))) room.old result room.new }
{
    let t = put_fours(source, prefix, radix, room);
    let mut n = t.count?;
    let mut i = t.next;
    // The step isn't one: it is as many bytes as a chunk takes.
    while i < source.len() {
        let p = chunk_at(source, i, radix);
        i = p.next;
        n = push(room, n, p.unit, p.value)?;
    }
    Some(n)
}

// The same; hexadecimal digits make limbs of their own.
fn put(source: &[u8], prefix: usize, radix: u32, room: &mut [u32]) -> Option<usize>
    requires { Radix radix }
    ensures { Put (limbs (digits radix 0 (drop prefix source.now))) room.old result room.new }
{
    if radix == 16 {
        return hexadecimal::put(source, prefix, room);
    }
    put_chunks(source, prefix, radix, room)
}

// The value of a number, stored from word `at` on: where it ends.
fn store(values: &mut [u32], at: usize, source: &[u8], prefix: usize, radix: u32) -> Option<usize>
    requires { Radix radix }
    ensures { Kept (number_value (digits radix 0 (drop prefix source.now))) values.old at result values.new }
{
    if values.len() <= at {
        return None;
    }
    let start = at + 1;
    let n = put(source, prefix, radix, &mut values[start..])?;
    values[at] = values::head(words::value::NUMBER, n);
    Some(start + n)
}

fn radix(base: Base) -> u32
    ensures { result ≡ radix_of base }
{
    match base {
        Base::Binary => 2,
        Base::Decimal => 10,
        Base::Hexadecimal => 16,
    }
}

// The value of a number token, past the `prefix` of its spelling, stored from word `at` on: where it ends.
fn store_token(
    values: &mut [u32],
    at: usize,
    text: &[u8],
    tokens: &[u32],
    token: u32,
    base: Base,
    prefix: usize,
) -> Option<usize>
    ensures { Kept (number_value (digits (radix_of base) 0 (drop prefix (spelling text.now tokens.now token)))) values.old at result values.new }
{
    let source = lexer::spelling(text, tokens, token as usize);
    store(values, at, source, prefix, radix(base))
}

// The same, stored where the next value goes.
pub fn number(p: &mut Parser, token: u32, base: Base, prefix: usize) -> usize
    ensures { Does (value (number_value (digits (radix_of base) 0 (drop prefix (spelling p.old.text.now p.old.tokens.now token))))) p.old result p.new }
{
    let at = p.state.values;
    if p.is_refused() {
        return at;
    }
    match store_token(p.values, at, p.text, p.tokens, token, base, prefix) {
        Some(end) => values::past(p, end),
        None => p.refuse(Refusal::ValuesDontFit),
    }
    at
}
