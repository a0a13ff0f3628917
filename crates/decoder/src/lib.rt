// String literals: what their tokens decode to.
#![tactic(auto)]

ghost use Rattle.std.specs.Prelude.{◌≡◌, false, ◌||◌, [], ◌∷◌, ◌+◌, ◌≤◌, ◌<◌, length};
ghost use Rattle.literals.specs.Spelling.{span, token_span, spelling};
ghost use Rattle.literals.specs.Strings.{report, escape, char, bad_digit, is_bad, between, decode_string, decode_hex};
ghost use Rattle.values.specs.Digits.{option, Under};
ghost use Rattle.decoder.specs.Chars.{Standing, events};
ghost use Rattle.decoder.specs.Decodes.{Decodes};
ghost use Rattle.decoder.specs.Plain.{Stretch};
ghost use Rattle.decoder.specs.Hex.{Digit, Turn, hex_events};
ghost use Rattle.decoder.specs.StringValue.{StringKept};
ghost use Rattle.decoder.specs.Pieces.{event_of, Small, Cuts, Slash, SlashX};

mod bytes;

use crate::bytes::Filled;
use reading::Parser;
use values::digit;
use words::{Refusal, report};

// A character: its code point, and the byte where the next one stands.
#[derive(Clone, Copy)]
struct Char {
    pub code: u32,
    pub end: usize,
}

// A step of decoding: a byte of the value, or a report.
#[derive(Clone, Copy)]
enum Event {
    Byte(u32),
    Report {
        kind: u32,
        detail: u32,
        start: u32,
        end: u32,
    },
}

// What one turn of decoding gives, and the byte where the next one begins.
#[derive(Clone, Copy)]
struct Piece {
    pub event: Event,
    pub next: usize,
}

// The character at byte `i`. A byte that begins none stands for itself.
fn char_at(w: &[u8], i: usize) -> Char
    requires { i < length w.now }
    ensures { Standing w.now i result.code result.end }
{
    let b = w[i];
    if b < 128 {
        return Char {
            code: b as u32,
            end: i + 1,
        };
    }
    match utf8::character_at(w, i) {
        Some(character) => Char {
            code: character.code_point,
            end: i + character.length,
        },
        None => Char {
            code: b as u32,
            end: i + 1,
        },
    }
}

// A report from byte `i` up to byte `next`, as a piece.
fn reported(kind: u32, detail: u32, base: usize, i: usize, next: usize) -> Piece
    requires { (base + i < 4294967296) × (base + next < 4294967296) }
    ensures { (event_of result.event ≡ report kind detail (span (base + i) (base + next))) × (result.next ≡ next) }
{
    let event = Event::Report {
        kind,
        detail,
        start: (base + i) as u32,
        end: (base + next) as u32,
    };
    Piece { event, next }
}

// The escapes of one character: n r t 0 \ and ".
fn escape(c: u32) -> Option<u32>
    ensures { (option result ≡ escape c) × Under 256 result }
{
    match c {
        110 => Some(10),
        114 => Some(13),
        116 => Some(9),
        48 => Some(0),
        92 => Some(92),
        34 => Some(34),
        _ => None,
    }
}

// After `\x`, which stands at byte `i`: two digits from byte `j` on, or a report over as many characters as are left.
fn hex_escape(w: &[u8], base: usize, i: usize, j: usize) -> Piece
    requires { (base + length w.now < 4294967296) × SlashX w.now i j }
    ensures { Cuts base w.now i result.event result.next }
{
    if w.len() <= j {
        return reported(report::BAD_HEX_ESCAPE, 0, base, i, j);
    }
    let first = char_at(w, j);
    let k = first.end;
    if w.len() <= k {
        return reported(report::BAD_HEX_ESCAPE, 0, base, i, k);
    }
    let second = char_at(w, k);
    let next = second.end;
    match (digit::nibble(first.code), digit::nibble(second.code)) {
        (Some(high), Some(low)) => {
            let event = Event::Byte(16 * high + low);
            Piece { event, next }
        }
        _ => reported(report::BAD_HEX_ESCAPE, 0, base, i, next),
    }
}

// What the backslash at byte `i` and the characters that it takes stand for.
fn escaped(w: &[u8], base: usize, i: usize) -> Piece
    requires { (base + length w.now < 4294967296) × Slash w.now i }
    ensures { Cuts base w.now i result.event result.next }
{
    let j = i + 1;
    if w.len() <= j {
        return reported(report::BACKSLASH_AT_END, 0, base, i, j);
    }
    let c = char_at(w, j);
    let code = c.code;
    let next = c.end;
    match escape(code) {
        Some(byte) => {
            let event = Event::Byte(byte);
            Piece { event, next }
        }
        None => {
            if code == 120 {
                return hex_escape(w, base, i, next);
            }
            reported(report::UNKNOWN_ESCAPE, code, base, i, next)
        }
    }
}

// What stands at byte `i`, of the bytes `w` that begin at the offset `base`: a byte that stands for itself, or a backslash with what it takes.
fn piece_at(w: &[u8], base: usize, i: usize) -> Piece
    requires { (base + length w.now < 4294967296) × (i < length w.now) }
    ensures { Cuts base w.now i result.event result.next }
{
    let b = w[i];
    if bytes::plain(b) {
        let event = Event::Byte(b as u32);
        return Piece { event, next: i + 1 };
    }
    escaped(w, base, i)
}

// A character of a hex string: its code point, what it counts as a digit, whether it is none, and where the next one stands.
#[derive(Clone, Copy)]
struct HexDigit {
    pub code: u32,
    pub digit: u32,
    pub bad: bool,
    pub end: usize,
}

fn hex_digit(w: &[u8], i: usize) -> HexDigit
    requires { i < length w.now }
    ensures { Digit w.now i result.code result.end result.digit result.bad }
{
    let c = char_at(w, i);
    let digit = digit::nibble(c.code);
    HexDigit {
        code: c.code,
        digit: digit.unwrap_or(0),
        bad: digit.is_none(),
        end: c.end,
    }
}

// One step of decoding: a byte is pushed behind the place of the first word, which is at `at`; a report is emitted. The string has
// `count` bytes so far, if there is room for them; how many it then has is answered, here and below.
fn step(p: &mut Parser, at: usize, count: Option<usize>, event: Event) -> Option<usize>
    requires { Small (event_of event) }
    ensures { Decodes (event_of event ∷ []) at count p.old result p.new }
{
    match event {
        Event::Byte(b) => bytes::push_byte(p.values, at, count, b),
        Event::Report {
            kind,
            detail,
            start,
            end,
        } => {
            reading::report::emit(p, kind, detail, start, end);
            count
        }
    }
}

// The bytes of the value from byte `i` of `w` on, up to the first report: how many there are then, and where it stands.
fn decode_bytes(
    values: &mut [u32],
    at: usize,
    count: Option<usize>,
    w: &[u8],
    base: usize,
    i: usize,
) -> Filled
    requires { (base + length w.now < 4294967296) × (i ≤ length w.now) }
    ensures { Stretch base w.now i result.next at count values.old result.count values.new }
{
    let first = bytes::push_plain(values, at, count, w, i);
    let mut so_far = first.count;
    let mut j = first.next;
    // The step isn't one: it is as many bytes as are decoded in a turn.
    while j < w.len() {
        let piece = piece_at(w, base, j);
        let Event::Byte(b) = piece.event else { break };
        let one = bytes::push_byte(values, at, so_far, b);
        let more = bytes::push_plain(values, at, one, w, piece.next);
        so_far = more.count;
        j = more.next;
    }
    Filled {
        count: so_far,
        next: j,
    }
}

// What stands between the quotes of a string token: bytes of the value, and what is reported between them.
fn decode_pieces(
    p: &mut Parser,
    at: usize,
    count: Option<usize>,
    w: &[u8],
    base: usize,
) -> Option<usize>
    requires { base + length w.now < 4294967296 }
    ensures { Decodes (events base w.now 0) at count p.old result p.new }
{
    let first = decode_bytes(p.values, at, count, w, base, 0);
    let mut so_far = first.count;
    let mut i = first.next;
    // The step isn't one: it is as many bytes as are decoded in a turn.
    while i < w.len() {
        let piece = piece_at(w, base, i);
        let one = step(p, at, so_far, piece.event);
        let more = decode_bytes(p.values, at, one, w, base, piece.next);
        so_far = more.count;
        i = more.next;
    }
    so_far
}

// What stands between the quotes of a token, of which `opening` bytes stand before them.
fn inside<'a>(source: &'a [u8], opening: usize) -> &'a [u8]
    requires { opening < 256 }
    ensures { result.now ≡ between opening source.now }
{
    if source.len() <= opening {
        return &source[0..0];
    }
    let end = source.len() - 1;
    &source[opening..end]
}

// `decode_string_token`, for token `token`.
pub fn decode_string(p: &mut Parser, at: usize, count: Option<usize>, token: u32) -> Option<usize>
    ensures { Decodes (decode_string (token_span p.old.tokens.now token) (spelling p.old.text.now p.old.tokens.now token)) at count p.old result p.new }
{
    let source = lexer::spelling(p.text, p.tokens, token as usize);
    let w = inside(source, 1);
    let start = stream::token_start(p.tokens, token);
    decode_pieces(p, at, count, w, start as usize + 1)
}

// The report of a bad digit, which stands at byte `i`: "only the first is reported".
fn bad_digit(
    p: &mut Parser,
    at: usize,
    count: Option<usize>,
    c: HexDigit,
    base: usize,
    i: usize,
    already: bool,
) -> Option<usize>
    requires { (base + i < 4294967296) × (base + c.end < 4294967296) × (c.bad ≡ is_bad (char c.code (base + i) (base + c.end))) }
    ensures { Decodes (bad_digit already (char c.code (base + i) (base + c.end))) at count p.old result p.new }
{
    if already || !c.bad {
        return count;
    }
    let event = Event::Report {
        kind: report::NON_HEX_DIGIT,
        detail: c.code,
        start: (base + i) as u32,
        end: (base + c.end) as u32,
    };
    step(p, at, count, event)
}

// Where the digits of a hex string stand: how many bytes were decoded, whether a bad digit was reported, and the byte of the next one.
#[derive(Clone, Copy)]
struct Digits {
    pub count: Option<usize>,
    pub already: bool,
    pub next: usize,
}

// The digit at byte `i` and the next one, or a lone last one, of a token from `start` to `end`.
fn pair(
    p: &mut Parser,
    at: usize,
    count: Option<usize>,
    w: &[u8],
    base: usize,
    start: u32,
    end: u32,
    i: usize,
    already: bool,
) -> Digits
    requires { (base + length w.now < 4294967296) × (i < length w.now) }
    ensures { Turn (span start end) at base w.now i already count p.old result.next result.already result.count p.new }
{
    let c = hex_digit(w, i);
    let k = c.end;
    let bad = already || c.bad;
    let first = bad_digit(p, at, count, c, base, i, already);
    if w.len() <= k {
        let event = Event::Report {
            kind: report::ODD_DIGITS,
            detail: 0,
            start,
            end,
        };
        return Digits {
            count: step(p, at, first, event),
            already: bad,
            next: k,
        };
    }
    let e = hex_digit(w, k);
    let second = bad_digit(p, at, first, e, base, k, bad);
    let event = Event::Byte(16 * c.digit + e.digit);
    Digits {
        count: step(p, at, second, event),
        already: bad || e.bad,
        next: e.end,
    }
}

// The characters between the quotes of a hex string token, digit by digit.
fn decode_digits(
    p: &mut Parser,
    at: usize,
    count: Option<usize>,
    w: &[u8],
    base: usize,
    start: u32,
    end: u32,
) -> Option<usize>
    requires { base + length w.now < 4294967296 }
    ensures { Decodes (hex_events (span start end) false base w.now 0) at count p.old result p.new }
{
    let mut so_far = count;
    let mut already = false;
    let mut i = 0;
    // The step isn't one: it is as many bytes as two digits take.
    while i < w.len() {
        let more = pair(p, at, so_far, w, base, start, end, i, already);
        so_far = more.count;
        already = more.already;
        i = more.next;
    }
    so_far
}

// `decode_hex_token`, for token `token`.
pub fn decode_hex(p: &mut Parser, at: usize, count: Option<usize>, token: u32) -> Option<usize>
    ensures { Decodes (decode_hex (token_span p.old.tokens.now token) (spelling p.old.text.now p.old.tokens.now token)) at count p.old result p.new }
{
    let source = lexer::spelling(p.text, p.tokens, token as usize);
    let w = inside(source, 4);
    let start = stream::token_start(p.tokens, token);
    let end = stream::token_end(p.tokens, token);
    decode_digits(p, at, count, w, start as usize + 4, start, end)
}

// The value of a string whose bytes were pushed: its first word, at the place before them.
pub fn string_value(p: &mut Parser, count: Option<usize>) -> usize
    ensures { StringKept count p.old result p.new }
{
    let at = p.state.values;
    if p.is_refused() {
        return at;
    }
    match count {
        Some(n) if at < p.values.len() => {
            p.values[at] = values::head(words::value::STRING, n);
            values::past(p, at + 1 + n.div_ceil(4));
        }
        _ => p.refuse(Refusal::ValuesDontFit),
    }
    at
}
