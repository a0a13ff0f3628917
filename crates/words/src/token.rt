// The kinds of a token: "declaration order in `Token` from 0, Eof 81" (01, Words that are lent); `Token` of lexer.rs.

ghost use Rattle.std.specs.Prelude.{◌≡◌};
ghost use Rattle.words.specs.Token.{is_trivia, lex_error};

use crate::error_token::ErrorToken;

pub const SEMICOLON: u32 = 0;

pub const COMMA: u32 = 1;

pub const COLON: u32 = 2;

pub const DOT: u32 = 3;

pub const DOLLAR: u32 = 4;

pub const LEFT_CURLY: u32 = 5;

pub const RIGHT_CURLY: u32 = 6;

pub const LEFT_ROUND: u32 = 7;

pub const RIGHT_ROUND: u32 = 8;

pub const LEFT_SQUARE: u32 = 9;

pub const RIGHT_SQUARE: u32 = 10;

pub const DOUBLE_COLON: u32 = 11;

pub const FAT_ARROW: u32 = 12;

pub const EQUALS: u32 = 13;

pub const PLUS: u32 = 14;

pub const PLUS_PERCENT: u32 = 15;

pub const MINUS: u32 = 16;

pub const MINUS_PERCENT: u32 = 17;

pub const STAR: u32 = 18;

pub const STAR_PERCENT: u32 = 19;

pub const SLASH: u32 = 20;

pub const PLUS_SLASH: u32 = 21;

pub const MINUS_SLASH: u32 = 22;

pub const LESS_SLASH: u32 = 23;

pub const GREATER_SLASH: u32 = 24;

pub const PERCENT: u32 = 25;

pub const DOUBLE_EQUALS: u32 = 26;

pub const BANG_EQUALS: u32 = 27;

pub const LESS_THAN: u32 = 28;

pub const GREATER_THAN: u32 = 29;

pub const LESS_EQUALS: u32 = 30;

pub const GREATER_EQUALS: u32 = 31;

pub const BANG: u32 = 32;

pub const AMPER_AMPER: u32 = 33;

pub const PIPE_PIPE: u32 = 34;

pub const AMPERSAND: u32 = 35;

pub const PIPE: u32 = 36;

pub const CARET: u32 = 37;

pub const TILDE: u32 = 38;

pub const SHIFT_LEFT: u32 = 39;

pub const SHIFT_RIGHT: u32 = 40;

pub const IF: u32 = 41;

pub const ELSE: u32 = 42;

pub const FN: u32 = 43;

pub const EAGER: u32 = 44;

pub const LET: u32 = 45;

pub const MUT: u32 = 46;

pub const CONST: u32 = 47;

pub const INIT: u32 = 48;

pub const RUN: u32 = 49;

pub const STRUCT: u32 = 50;

pub const TUPLE: u32 = 51;

pub const RETURN: u32 = 52;

pub const COMPTIME: u32 = 53;

pub const INLINE: u32 = 54;

pub const WHILE: u32 = 55;

pub const TRUE: u32 = 56;

pub const FALSE: u32 = 57;

pub const AND: u32 = 58;

pub const OR: u32 = 59;

pub const PUB: u32 = 60;

pub const USE: u32 = 61;

pub const AS: u32 = 62;

pub const MATCH: u32 = 63;

pub const SELF_TYPE: u32 = 64;

pub const IDENTIFIER: u32 = 65;

pub const BUILTIN_NAME: u32 = 66;

pub const DECIMAL_LITERAL: u32 = 67;

pub const HEX_LITERAL: u32 = 68;

pub const BIN_LITERAL: u32 = 69;

pub const LOOSE_STRING_LITERAL: u32 = 70;

pub const LOOSE_HEX_STRING_LITERAL: u32 = 71;

pub const WHITESPACE: u32 = 72;

pub const LINE_COMMENT: u32 = 73;

pub const BLOCK_COMMENT: u32 = 74;

pub const AT_WITHOUT_IDENT_ERROR: u32 = 75;

pub const INVALID_CHAR_ERROR: u32 = 76;

pub const MALFORMED_IDENT_ERROR: u32 = 77;

pub const MULTILINE_STRING_ERROR: u32 = 78;

pub const UNCLOSED_BLOCK_COMMENT_ERROR: u32 = 79;

pub const UNCLOSED_STRING_ERROR: u32 = 80;

pub const EOF: u32 = 81;

#[tactic(auto, unfolding(crate::specs::Token::is_trivia))]
pub fn is_trivia(kind: u32) -> bool
    ensures { result ≡ is_trivia kind }
{
    matches!(
        kind,
        WHITESPACE
            | LINE_COMMENT
            | BLOCK_COMMENT
            | INVALID_CHAR_ERROR
            | MALFORMED_IDENT_ERROR
            | UNCLOSED_BLOCK_COMMENT_ERROR
            | AT_WITHOUT_IDENT_ERROR
    )
}

// What a token that is a lexer error was.
#[tactic(auto, unfolding(crate::specs::Token::lex_error))]
pub fn lex_error(kind: u32) -> Option<ErrorToken>
    ensures { result ≡ lex_error kind }
{
    match kind {
        INVALID_CHAR_ERROR => Some(ErrorToken::InvalidChar),
        MALFORMED_IDENT_ERROR => Some(ErrorToken::MalformedIdent),
        MULTILINE_STRING_ERROR => Some(ErrorToken::MultilineString),
        UNCLOSED_BLOCK_COMMENT_ERROR => Some(ErrorToken::UnclosedBlockComment),
        UNCLOSED_STRING_ERROR => Some(ErrorToken::UnclosedString),
        AT_WITHOUT_IDENT_ERROR => Some(ErrorToken::AtWithoutIdent),
        _ => None,
    }
}
