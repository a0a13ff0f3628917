// The kinds of a report, 1 to 16 (01, Words that are lent).

pub const LEXER_ERROR: u32 = 1;

pub const UNEXPECTED: u32 = 2;

pub const MISSING_TOKEN: u32 = 3;

pub const MISSING_SPECIFIC: u32 = 4;

pub const BUILTIN_AS_NAME: u32 = 5;

pub const FIELD_AFTER_METHOD: u32 = 6;

pub const STAR_IN_GROUP: u32 = 7;

pub const PATH_IN_GROUP: u32 = 8;

pub const EMPTY_GROUP: u32 = 9;

pub const NEEDLESS_BRACES: u32 = 10;

// Reserved: "Report kind 11 is never made again." (01, W7)
pub const NON_ASCII: u32 = 11;

pub const BAD_HEX_ESCAPE: u32 = 12;

pub const UNKNOWN_ESCAPE: u32 = 13;

pub const NON_HEX_DIGIT: u32 = 14;

pub const ODD_DIGITS: u32 = 15;

pub const BACKSLASH_AT_END: u32 = 16;

// The words of one report.
pub const REPORT_WIDTH: usize = 3;

#[derive(Clone, Copy)]
pub struct Report {
    pub kind: u32,
    pub detail: u32,
    // Offsets in the text.
    pub start: u32,
    pub end: u32,
}
