// The payload of a UnaryExpr: "operators by enum order" (01, Words that are lent); `UnaryOp` of cst/mod.rs.

pub const MINUS: u32 = 0;

pub const BANG: u32 = 1;

pub const TILDE: u32 = 2;
