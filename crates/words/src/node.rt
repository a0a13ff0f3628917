// The kinds of a node: "order in `NodeKind` from 0, Error 49" (01, Words that are lent); `NodeKind` of cst/mod.rs.

pub const FILE: u32 = 0;

pub const CONST_DECL: u32 = 1;

pub const IMPORT_DECL: u32 = 2;

pub const IMPORT_AS_DECL: u32 = 3;

pub const IMPORT_GROUP_DECL: u32 = 4;

pub const IMPORT_GROUP_ITEM: u32 = 5;

pub const INIT_BLOCK: u32 = 6;

pub const RUN_BLOCK: u32 = 7;

pub const COMPTIME_BLOCK: u32 = 8;

pub const BLOCK: u32 = 9;

pub const LET_STMT: u32 = 10;

pub const RETURN_STMT: u32 = 11;

pub const ASSIGN_STMT: u32 = 12;

pub const WHILE_STMT: u32 = 13;

pub const INLINE_WHILE_STMT: u32 = 14;

pub const BINARY_EXPR: u32 = 15;

pub const UNARY_EXPR: u32 = 16;

pub const PAREN_EXPR: u32 = 17;

pub const CALL_EXPR: u32 = 18;

pub const MEMBER_EXPR: u32 = 19;

pub const STRUCT_DEF: u32 = 20;

pub const STRUCT_BODY: u32 = 21;

pub const STRUCT_LIT: u32 = 22;

pub const TUPLE_TYPE: u32 = 23;

pub const TUPLE_LIT: u32 = 24;

pub const IF: u32 = 25;

pub const ELSE_IF_BRANCH_LIST: u32 = 26;

pub const ELSE_IF_BRANCH: u32 = 27;

pub const MATCH: u32 = 28;

pub const MATCH_ARM_LIST: u32 = 29;

pub const MATCH_ARM: u32 = 30;

pub const MATCH_FALLBACK_ARM: u32 = 31;

pub const BOOL_LITERAL: u32 = 32;

pub const NUM_LITERAL: u32 = 33;

pub const STRING_LITERAL: u32 = 34;

pub const SELF_TYPE: u32 = 35;

pub const IDENTIFIER: u32 = 36;

pub const BUILTIN_NAME: u32 = 37;

pub const FN_DEF: u32 = 38;

pub const METHOD_DEF: u32 = 39;

pub const PARAM_LIST: u32 = 40;

pub const PARAMETER: u32 = 41;

pub const COMPTIME_PARAMETER: u32 = 42;

pub const PARAM_ANY_TYPE: u32 = 43;

pub const OPERATOR: u32 = 44;

pub const STATEMENTS_LIST: u32 = 45;

pub const IMPORT_PATH: u32 = 46;

pub const FIELD_DEF: u32 = 47;

pub const FIELD_ASSIGN: u32 = 48;

pub const ERROR: u32 = 49;

// The words of one node.
pub const NODE_WIDTH: usize = 6;

#[derive(Clone, Copy)]
pub struct Node {
    pub kind: u32,
    pub payload: u32,
    // The first token and the one past the last.
    pub first: u32,
    pub end: u32,
    // The next sibling and the first child; 0 is none, as File is nobody's child.
    pub next: u32,
    pub child: u32,
    // The node whose child it is; 0 of File, and where it is nobody's.
    pub parent: u32,
}
