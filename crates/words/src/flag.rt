// The flags in the payload of a node, each as the number that it adds: "flags as bits, first flag highest" (01, Words that are lent).
// A name is that of the kind and of the field of `NodeKind` of cst/mod.rs; a BoolLiteral is 1 for true.

pub const CONST_DECL_TYPED: u32 = 1;

pub const IMPORT_DECL_PUBLIC: u32 = 2;

pub const IMPORT_DECL_GLOB: u32 = 1;

pub const IMPORT_AS_DECL_PUBLIC: u32 = 1;

pub const IMPORT_GROUP_DECL_PUBLIC: u32 = 1;

pub const LET_STMT_COMPTIME: u32 = 4;

pub const LET_STMT_MUTABLE: u32 = 2;

pub const LET_STMT_TYPED: u32 = 1;

pub const MATCH_FALLBACK_ARM_BINDING: u32 = 1;

pub const BOOL_LITERAL_TRUE: u32 = 1;

pub const FN_DEF_EAGER: u32 = 1;

pub const METHOD_DEF_EAGER: u32 = 1;
