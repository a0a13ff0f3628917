// The payload of a BinaryExpr: "operators by enum order" (01, Words that are lent); `BinaryOp` of cst/mod.rs.

pub const OR: u32 = 0;

pub const AND: u32 = 1;

pub const DOUBLE_EQUALS: u32 = 2;

pub const BANG_EQUALS: u32 = 3;

pub const LESS_THAN: u32 = 4;

pub const GREATER_THAN: u32 = 5;

pub const LESS_EQUALS: u32 = 6;

pub const GREATER_EQUALS: u32 = 7;

pub const PIPE: u32 = 8;

pub const CARET: u32 = 9;

pub const AMPERSAND: u32 = 10;

pub const SHIFT_LEFT: u32 = 11;

pub const SHIFT_RIGHT: u32 = 12;

pub const PLUS: u32 = 13;

pub const MINUS: u32 = 14;

pub const PLUS_PERCENT: u32 = 15;

pub const MINUS_PERCENT: u32 = 16;

pub const STAR: u32 = 17;

pub const SLASH: u32 = 18;

pub const PERCENT: u32 = 19;

pub const STAR_PERCENT: u32 = 20;

pub const PLUS_SLASH: u32 = 21;

pub const MINUS_SLASH: u32 = 22;

pub const LESS_SLASH: u32 = 23;

pub const GREATER_SLASH: u32 = 24;
