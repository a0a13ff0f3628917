// Lexing from tables: the token at an offset, as the branching lexer of crate tokens answers, and `lex` over it, as crate lexer has it.
#![tactic(auto)]

ghost use Rattle.std.specs.Prelude.{◌≡◌, true, false, ◌+◌, ◌-◌, ◌<◌, ◌≤◌, length, drop, get_or};
ghost use Rattle.words.specs.Token as TokenKind;
ghost use Rattle.scan.specs.Bytes.{within, ident_part, blank};
ghost use Rattle.scan.specs.Lexer.{longest_text, from, lexeme, run, token_at, invalid_char};
ghost use Rattle.scan.specs.Longest.{keyword_of};
ghost use Rattle.lexer.specs.Lex.{answer, lexed, lexed_words};
ghost use Rattle.rules.specs.Rule.{class_of, member, goes_on, numeric, operator, stop, start, block, after, kind_of};
ghost use Rattle.rules.specs.Walk.{walk, after_first, token_of};
ghost use Rattle.rules.specs.Tables.{class_list, next_list, kind_list};
ghost use Rattle.rules.specs.Keys.{key_list, spelling_list, right};

use lexer::Lexed;
use scan::Token;
use words::token;

// The class of each byte, 32 to a line, from byte 0 on. The classes are `0` to `U`:
//     0123456789:;<=>?@ABCDEFGHIJKLMNOPQRSTU
//     hexb_019az :=+-*/%<>!&|@";,.${}()[]^~?
// where `9` are the digits 2 to 9, `a` the hexadecimal letters but `b` and `e`, `z` the letters that are left, ` ` the blanks and `?`
// all other bytes. Lines 2 to 4 stand for
//      !"#$%&'()*+,-./0123456789:;<=>?
//     @ABCDEFGHIJKLMNOPQRSTUVWXYZ[\]^_
//     `abcdefghijklmnopqrstuvwxyz{|}~
const CLASSES: [u8; 256] = *b"\
UUUUUUUUU::UU:UUUUUUUUUUUUUUUUUU\
:DHULAEUOP?=J>K@5677777777;IB<CU\
G88888899999999999999999999QURS4\
U83881890999999999999999299MFNTU\
UUUUUUUUUUUUUUUUUUUUUUUUUUUUUUUU\
UUUUUUUUUUUUUUUUUUUUUUUUUUUUUUUU\
UUUUUUUUUUUUUUUUUUUUUUUUUUUUUUUU\
UUUUUUUUUUUUUUUUUUUUUUUUUUUUUUUU";

// The state after a byte: a line for each state, a column for each class. A state stands for what is read so far:
//     a  nothing yet
//     b  blanks
//     c  a name
//     d  `h`
//     e  `he`
//     f  `hex`
//     g  `@`
//     h  a builtin's name
//     i  `0`
//     j  a decimal number
//     k  `0x`
//     l  `0b`
//     m  a hexadecimal number
//     n  a binary number
//     o  a malformed number
//     p  `:`
//     q  `=`
//     r  `+`
//     s  `-`
//     t  `*`
//     u  `/`
//     v  `<`
//     w  `>`
//     x  `!`
//     y  `&`
//     z  `|`
// and these for what ends there: `;` `,` `.` `$` `{` `}` `(` `)` `[` `]` `%` `^` `~` themselves,
//     A ::   B =>   C +%   D -%   E *%   F +/   G -/   H </   I >/   J ==   K !=   L <=   M >=   N &&   O ||   P <<   Q >>
//     1 "    2 hex" 3 //   4 /*
// `-`: the byte is not of the token. docs/TABLES.md has each line beside its state.
//     hexb_019az :=+-*/%<>!&|@";,.${}()[]^~?
const NEXT: [u8; 988] = *b"\
dccccijjccbpqrstu%vwxyzg1;,.${}()[]^~-\
----------b---------------------------\
cccccccccc----------------------------\
cecccccccc----------------------------\
ccfccccccc----------------------------\
cccccccccc--------------2-------------\
hhhhh---hh----------------------------\
hhhhhhhhhh----------------------------\
ookljjjjoo----------------------------\
oooojjjjoo----------------------------\
omomommmmo----------------------------\
ooooonnooo----------------------------\
omommmmmmo----------------------------\
oooonnnooo----------------------------\
oooooooooo----------------------------\
-----------A--------------------------\
------------J------B------------------\
----------------FC--------------------\
----------------GD--------------------\
-----------------E--------------------\
---------------43---------------------\
------------L---H-P-------------------\
------------M---I--Q------------------\
------------K-------------------------\
---------------------N----------------\
----------------------O---------------";

// The kind of the token that ends in a state, from state 32 on; Eof where more than the state says it, or there is no such state.
const KINDS: [u32; 96] = [
    token::EOF, // 32
    token::EOF, // !
    token::EOF, // "
    token::EOF, // #
    token::DOLLAR, // $
    token::PERCENT, // %
    token::EOF, // &
    token::EOF, // '
    token::LEFT_ROUND, // (
    token::RIGHT_ROUND, // )
    token::EOF, // *
    token::EOF, // +
    token::COMMA, // ,
    token::EOF, // -
    token::DOT, // .
    token::EOF, // /
    token::EOF, // 0
    token::EOF, // 1
    token::EOF, // 2
    token::EOF, // 3
    token::EOF, // 4
    token::EOF, // 5
    token::EOF, // 6
    token::EOF, // 7
    token::EOF, // 8
    token::EOF, // 9
    token::EOF, // :
    token::SEMICOLON, // ;
    token::EOF, // <
    token::EOF, // =
    token::EOF, // >
    token::EOF, // ?
    token::EOF, // @
    token::DOUBLE_COLON, // A
    token::FAT_ARROW, // B
    token::PLUS_PERCENT, // C
    token::MINUS_PERCENT, // D
    token::STAR_PERCENT, // E
    token::PLUS_SLASH, // F
    token::MINUS_SLASH, // G
    token::LESS_SLASH, // H
    token::GREATER_SLASH, // I
    token::DOUBLE_EQUALS, // J
    token::BANG_EQUALS, // K
    token::LESS_EQUALS, // L
    token::GREATER_EQUALS, // M
    token::AMPER_AMPER, // N
    token::PIPE_PIPE, // O
    token::SHIFT_LEFT, // P
    token::SHIFT_RIGHT, // Q
    token::EOF, // R
    token::EOF, // S
    token::EOF, // T
    token::EOF, // U
    token::EOF, // V
    token::EOF, // W
    token::EOF, // X
    token::EOF, // Y
    token::EOF, // Z
    token::LEFT_SQUARE, // [
    token::EOF, // \
    token::RIGHT_SQUARE, // ]
    token::CARET, // ^
    token::EOF, // _
    token::EOF, // `
    token::EOF, // a
    token::WHITESPACE, // b
    token::EOF, // c
    token::EOF, // d
    token::EOF, // e
    token::EOF, // f
    token::AT_WITHOUT_IDENT_ERROR, // g
    token::BUILTIN_NAME, // h
    token::DECIMAL_LITERAL, // i
    token::DECIMAL_LITERAL, // j
    token::MALFORMED_IDENT_ERROR, // k
    token::MALFORMED_IDENT_ERROR, // l
    token::HEX_LITERAL, // m
    token::BIN_LITERAL, // n
    token::MALFORMED_IDENT_ERROR, // o
    token::COLON, // p
    token::EQUALS, // q
    token::PLUS, // r
    token::MINUS, // s
    token::STAR, // t
    token::SLASH, // u
    token::LESS_THAN, // v
    token::GREATER_THAN, // w
    token::BANG, // x
    token::AMPERSAND, // y
    token::PIPE, // z
    token::LEFT_CURLY, // {
    token::EOF, // |
    token::RIGHT_CURLY, // }
    token::TILDE, // ~
    token::EOF, // 127
];

// The keyword that begins with a letter and has a length, no two are alike in both: a line for each letter `a` to `z`, a column for each
// length, 1 to 8. `A` is the first of SPELLINGS, `-` none.
const KEYS: [u8; 208] = *b"\
-VR-----\
--------\
----G--M\
--------\
---BD---\
-C--Q---\
--------\
--------\
-A-H-N--\
--------\
--------\
--E-----\
--F-W---\
--------\
-S------\
--T-----\
--------\
--I--L--\
-----J--\
---PK---\
--U-----\
--------\
----O---\
--------\
--------\
--------";

// The keywords, in the order of their kinds, from token::IF on.
const SPELLINGS: [u8; 192] = *b"\
if------\
else----\
fn------\
eager---\
let-----\
mut-----\
const---\
init----\
run-----\
struct--\
tuple---\
return--\
comptime\
inline--\
while---\
true----\
false---\
and-----\
or------\
pub-----\
use-----\
as------\
match---\
Self----";

const START: u32 = 97;

const BLANKS: u32 = 98;

const NAME: u32 = 99;

const STOP: u32 = 45;

#[tactic(auto, using(std::proofs::lemmas::Bool::Decides::nat_tests))]
fn is_within(low: u32, high: u32, state: u32) -> bool
    ensures { result ≡ within low high state }
{
    low <= state && state <= high
}

fn goes_on(state: u32) -> bool
    ensures { result ≡ goes_on state }
{
    is_within(97, 122, state)
}

fn is_numeric(state: u32) -> bool
    ensures { result ≡ numeric state }
{
    is_within(105, 111, state)
}

fn is_operator(state: u32) -> bool
    ensures { result ≡ operator state }
{
    is_within(112, 122, state)
}

// A character that starts no token.
fn invalid(text: &[u8], at: usize) -> Token
    requires { at < length text.now }
    ensures { result ≡ from at (invalid_char (drop at text.now)) }
{
    match utf8::character_at(text, at) {
        Some(character) => Token {
            kind: token::INVALID_CHAR_ERROR,
            end: at + character.length,
        },
        None => Token {
            kind: token::INVALID_CHAR_ERROR,
            end: at + 1,
        },
    }
}

// The tables, made once by `lex` and lent: a constant array is made anew wherever it stands. Held by value they would be copied from
// where they are made, and the library for C would need `memcpy`.
#[derive(Drop)]
struct Tables<'a> {
    classes: &'a [u8; 256],
    states: &'a [u8; 988],
    kinds: &'a [u32; 96],
    keys: &'a [u8; 208],
    spellings: &'a [u8; 192],
    ghost classes_are: { classes.now ≡ class_list },
    ghost states_are: { states.now ≡ next_list },
    ghost kinds_are: { kinds.now ≡ kind_list },
    ghost keys_are: { keys.now ≡ key_list },
    ghost spellings_are: { spellings.now ≡ spelling_list },
}

impl Tables<'_> {
    fn class(&self, b: u8) -> u8
        ensures { (result ≡ class_of b) × (b < 256) }
    {
        self.classes[b as usize]
    }

    fn entry(&self, state: u32, class: u8) -> u32
        requires { (97 ≤ state) × (state ≤ 122) × (48 ≤ class) × (class ≤ 85) }
        ensures { result ≡ after state (member class) }
    {
        self.states[(state as usize - 97) * 38 + (class as usize - 48)] as u32
    }

    // The state after a byte.
    fn next(&self, state: u32, b: u8) -> u32
        requires { (97 ≤ state) × (state ≤ 122) }
        ensures { (result ≡ after state b) × (32 ≤ result) × (result < 128) }
    {
        self.entry(state, self.class(b))
    }

    fn kind_of(&self, state: u32) -> u32
        requires { (32 ≤ state) × (state < 128) }
        ensures { result ≡ kind_of state }
    {
        self.kinds[state as usize - 32]
    }

    // Where the run of bytes ends that leave the state as it is.
    fn stays(&self, text: &[u8], at: usize, state: u32) -> usize
        requires { (97 ≤ state) × (state ≤ 122) × (at ≤ length text.now) }
        ensures { (from result (walk state (drop result text.now)) ≡ from at (walk state (drop at text.now))) × (at ≤ result) × (result ≤ length text.now) }
    {
        scan::run_end(text, at, |b| self.next(state, b) == state)
    }

    // The walk from a state on: the state in which it ends, as the kind, and where.
    fn walk(&self, text: &[u8], at: usize, state: u32) -> Token
        requires { (97 ≤ state) × (state ≤ 122) × (at ≤ length text.now) }
        ensures { (result ≡ from at (walk state (drop at text.now))) × (32 ≤ result.kind) × (result.kind < 128) × (result.kind ≡ block → at < result.end) }
    {
        let mut q = state;
        let mut i = at;
        // No `for` goes over runs: `stays` says where the next byte is.
        while i < text.len() {
            let n = self.next(q, text[i]);
            if goes_on(n) {
                q = n;
                i = self.stays(text, i + 1, n);
            } else {
                if n == STOP {
                    return Token { kind: q, end: i };
                }
                return Token {
                    kind: n,
                    end: i + 1,
                };
            }
        }
        Token { kind: q, end: i }
    }

    // A letter, a digit or `_`: the classes before the blanks' class.
    fn is_part(&self, b: u8) -> bool
        ensures { (result ≡ ident_part b) × (b < 256) }
    {
        self.class(b) < b':'
    }

    fn is_blank(&self, b: u8) -> bool
        ensures { result ≡ blank b }
    {
        self.class(b) == b':'
    }

    // Where the run of letters, digits and `_` that goes on at `at` ends: the walk of a name, by the classes alone.
    fn name_end(&self, text: &[u8], at: usize) -> usize
        ensures { result ≡ at + run ident_part (drop at text.now) }
    {
        scan::run_end(text, at, |b| self.is_part(b))
    }

    // The same of blanks: crate scan's `blank_end` goes by tests, and not by the table.
    fn blank_end(&self, text: &[u8], at: usize) -> usize
        ensures { result ≡ at + run blank (drop at text.now) }
    {
        scan::run_end(text, at, |b| self.is_blank(b))
    }

    // The walk of a number: the classes alone say where it ends.
    fn numeral(&self, text: &[u8], at: usize, state: u32) -> Token
        requires { (numeric state ≡ true) × (at ≤ length text.now) }
        ensures { (result ≡ from at (walk state (drop at text.now))) × (numeric result.kind ≡ true) }
    {
        let mut q = state;
        for i in at..text.len() {
            let b = text[i];
            if !self.is_part(b) {
                return Token { kind: q, end: i };
            }
            q = self.next(q, b);
        }
        Token {
            kind: q,
            end: text.len(),
        }
    }

    // The state after an operator's next byte. Most are followed by a blank or a name, of which the class alone says that the operator ends.
    fn second(&self, text: &[u8], at: usize, state: u32) -> u32
        requires { operator state ≡ true }
        ensures { (result ≡ after_first state (drop at text.now)) × (32 ≤ result) × (result < 128) × (goes_on result ≡ false) × ((result ≡ stop → ⊥) → at < length text.now) }
    {
        if text.len() <= at {
            return STOP;
        }
        let b = text[at];
        if self.class(b) <= b':' {
            return STOP;
        }
        self.next(state, b)
    }

    // The line of the only keyword that a word may be, by its first byte and its length; `-` where it is none.
    fn key_of(&self, first: u8, n: usize) -> u8
        requires { (1 ≤ n) × (n ≤ 8) }
        ensures { right result first n ≡ true }
    {
        match (first, n) {
            (b'S', 4) => b'X',
            (b'a'..=b'z', _) => self.keys[(first as usize - 97) * 8 + (n - 1)],
            _ => b'-',
        }
    }

    // The kind of a word: a keyword's, or Identifier.
    fn keyword(&self, word: &[u8]) -> u32
        ensures { result ≡ keyword_of word.now }
    {
        let n = word.len();
        if n < 1 || 8 < n {
            return token::IDENTIFIER;
        }
        let key = self.key_of(word[0], n);
        if key == b'-' {
            return token::IDENTIFIER;
        }
        let spellings = self.spellings;
        let lines = &spellings[..];
        let line = (key as usize - 65) * 8;
        if &lines[line..line + n] == word {
            return key as u32 - 24;
        }
        token::IDENTIFIER
    }

    // The token of a walk that ended in a state which doesn't say the kind by itself.
    fn special(&self, text: &[u8], at: usize, state: u32, end: usize) -> Token
        requires { (length text.now ≤ longest_text) × (at < length text.now) × (at ≤ end) × (end ≤ length text.now) × (kind_of state ≡ TokenKind.Eof) × (state ≡ block → 2 ≤ end) }
        ensures { result ≡ from at (token_of (drop at text.now) (lexeme state (end - at))) }
    {
        match state {
            49 => scan::string(text, end, token::LOOSE_STRING_LITERAL, true),
            50 => scan::string(text, end, token::LOOSE_HEX_STRING_LITERAL, false),
            51 => scan::line_comment(text, end),
            52 => scan::block_comment(text, end),
            START => invalid(text, at),
            _ => Token {
                kind: self.keyword(&text[at..end]),
                end,
            },
        }
    }

    // The state and the end of the walk from the start, by the state after its first byte.
    fn ending(&self, text: &[u8], at: usize, first: u32) -> Token
        requires { (at < length text.now) × (first ≡ after start (get_or text.now at 0)) × (32 ≤ first) × (first < 128) }
        ensures { (result ≡ from at (walk start (drop at text.now))) × (32 ≤ result.kind) × (result.kind < 128) × (result.kind ≡ block → 2 ≤ result.end) }
    {
        if goes_on(first) {
            return self.walk(text, at + 1, first);
        }
        if first == STOP {
            return Token {
                kind: START,
                end: at,
            };
        }
        Token {
            kind: first,
            end: at + 1,
        }
    }

    // The token that begins with an operator's byte: a fixed spelling of one or two bytes, or a comment. That what `special` gives is taken
    // apart here and below was tried for speed; docs/DECISIONS.md has what it came to.
    fn operator_at(&self, text: &[u8], at: usize, first: u32) -> Token
        requires { (length text.now ≤ longest_text) × (at < length text.now) × (first ≡ after start (get_or text.now at 0)) × (operator first ≡ true) }
        ensures { result ≡ from at (token_at (drop at text.now)) }
    {
        let n = self.second(text, at + 1, first);
        if n == STOP {
            return Token {
                kind: self.kind_of(first),
                end: at + 1,
            };
        }
        let kind = self.kind_of(n);
        if kind != token::EOF {
            return Token { kind, end: at + 2 };
        }
        let comment = self.special(text, at, n, at + 2);
        Token {
            kind: comment.kind,
            end: comment.end,
        }
    }

    // The token at an offset inside the text. Names and blanks are run through by their classes.
    fn token_at(&self, text: &[u8], at: usize) -> Token
        requires { (length text.now ≤ longest_text) × (at < length text.now) }
        ensures { result ≡ from at (token_at (drop at text.now)) }
    {
        let first = self.next(START, text[at]);
        if first == NAME {
            let end = self.name_end(text, at + 1);
            let kind = self.keyword(&text[at..end]);
            return Token { kind, end };
        }
        if first == BLANKS {
            return Token {
                kind: token::WHITESPACE,
                end: self.blank_end(text, at + 1),
            };
        }
        if is_operator(first) {
            return self.operator_at(text, at, first);
        }
        if is_numeric(first) {
            let t = self.numeral(text, at + 1, first);
            return Token {
                kind: self.kind_of(t.kind),
                end: t.end,
            };
        }
        let t = self.ending(text, at, first);
        let kind = self.kind_of(t.kind);
        if kind != token::EOF {
            return Token { kind, end: t.end };
        }
        let other = self.special(text, at, t.kind, t.end);
        Token {
            kind: other.kind,
            end: other.end,
        }
    }
}

// `lex` of crate lexer, from the tables: a text's tokens as words, Eof last, and 0 in the rest of the slice; where it refuses, 0 in all of it.
pub fn lex(text: &[u8], tokens: &mut [u32]) -> Lexed
    ensures { (answer result ≡ lexed text.now (length tokens.old)) × (tokens.new ≡ lexed_words text.now (length tokens.old)) }
{
    let classes = CLASSES;
    let states = NEXT;
    let kinds = KINDS;
    let keys = KEYS;
    let spellings = SPELLINGS;
    let tables = Tables {
        classes: &classes,
        states: &states,
        kinds: &kinds,
        keys: &keys,
        spellings: &spellings,
    };
    lexer::lex_by(text, tokens, |at| tables.token_at(text, at))
}
