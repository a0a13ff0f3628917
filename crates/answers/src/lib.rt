// What the parts and steps of readers answer, and the tables: the operators, the flags, and which statements need no semicolon.
#![tactic(auto)]

ghost use Rattle.std.specs.Prelude.{◌≡◌, ◌&&◌, ◌+◌};
ghost use Rattle.std.proofs.Math.Option.{some};
ghost use Rattle.words.specs.Flag;
ghost use Rattle.definition.specs.Nodes.{flag};
ghost use Rattle.definition.specs.Expressions.{allows_struct_literal, binaries, binary, binary_of, unary_of};
ghost use Rattle.definition.specs.Statements.{requires_semi, let_flags};
ghost use Rattle.cst.specs.Cst.{maybe};
ghost use Rattle.answers.specs.Parts.{operator};

use definition::{Mode, Unfinished};
use stream::contains;
use words::{binary_op, flag, node, token, unary_op};

// A binary operator: its token, its left and its right priority, and its number in `BinaryOp`.
#[derive(Clone, Copy)]
pub struct Binary {
    pub token: u32,
    pub left: u32,
    pub right: u32,
    pub op: u32,
}

// `StmtResult`
#[derive(Clone, Copy)]
pub enum StmtResult {
    Statement(u32),
    EndExprOrStmt(u32),
    EndExpr(u32),
}

// What a flag adds to a payload.
pub fn flag(set: bool, bit: u32) -> u32
    ensures { result ≡ flag set bit }
{
    if set {
        return bit;
    }
    0
}

// The flags of an import of all.
pub fn glob_flags(public: bool) -> u32
    ensures { result ≡ flag public Flag.ImportDecl-public + Flag.ImportDecl-glob }
{
    if public {
        return flag::IMPORT_DECL_PUBLIC + flag::IMPORT_DECL_GLOB;
    }
    flag::IMPORT_DECL_GLOB
}

// The prefix operator that a token is.
pub fn unary_of(token: u32) -> Option<u32>
    ensures { maybe result ≡ unary_of token }
{
    match token {
        token::MINUS => Some(unary_op::MINUS),
        token::BANG => Some(unary_op::BANG),
        token::TILDE => Some(unary_op::TILDE),
        _ => None,
    }
}

fn level(token: u32, left: u32, right: u32, op: u32) -> Option<Binary>
    ensures { operator result ≡ some (binary token left right op) }
{
    Some(Binary {
        token,
        left,
        right,
        op,
    })
}

// The binary operator that a token is.
pub fn binary_of(token: u32) -> Option<Binary>
    ensures { operator result ≡ binary_of binaries token }
{
    match token {
        token::OR => level(token, 1, 2, binary_op::OR),
        token::AND => level(token, 3, 4, binary_op::AND),
        token::DOUBLE_EQUALS => level(token, 5, 6, binary_op::DOUBLE_EQUALS),
        token::BANG_EQUALS => level(token, 5, 6, binary_op::BANG_EQUALS),
        token::LESS_THAN => level(token, 5, 6, binary_op::LESS_THAN),
        token::GREATER_THAN => level(token, 5, 6, binary_op::GREATER_THAN),
        token::LESS_EQUALS => level(token, 5, 6, binary_op::LESS_EQUALS),
        token::GREATER_EQUALS => level(token, 5, 6, binary_op::GREATER_EQUALS),
        token::PIPE => level(token, 7, 8, binary_op::PIPE),
        token::CARET => level(token, 9, 10, binary_op::CARET),
        token::AMPERSAND => level(token, 11, 12, binary_op::AMPERSAND),
        token::SHIFT_LEFT => level(token, 13, 14, binary_op::SHIFT_LEFT),
        token::SHIFT_RIGHT => level(token, 13, 14, binary_op::SHIFT_RIGHT),
        token::PLUS => level(token, 15, 16, binary_op::PLUS),
        token::MINUS => level(token, 15, 16, binary_op::MINUS),
        token::PLUS_PERCENT => level(token, 15, 16, binary_op::PLUS_PERCENT),
        token::MINUS_PERCENT => level(token, 15, 16, binary_op::MINUS_PERCENT),
        token::STAR => level(token, 17, 18, binary_op::STAR),
        token::SLASH => level(token, 17, 18, binary_op::SLASH),
        token::PERCENT => level(token, 17, 18, binary_op::PERCENT),
        token::STAR_PERCENT => level(token, 17, 18, binary_op::STAR_PERCENT),
        token::PLUS_SLASH => level(token, 17, 18, binary_op::PLUS_SLASH),
        token::MINUS_SLASH => level(token, 17, 18, binary_op::MINUS_SLASH),
        token::LESS_SLASH => level(token, 17, 18, binary_op::LESS_SLASH),
        token::GREATER_SLASH => level(token, 17, 18, binary_op::GREATER_SLASH),
        _ => None,
    }
}

pub fn allows_struct_literal(mode: Mode, tried: bool) -> bool
    ensures { result ≡ (allows_struct_literal mode && tried) }
{
    match mode {
        Mode::AllowAll => tried,
        Mode::NoPostFixCurlyBrace => false,
    }
}

// The flags of a `let`.
pub fn let_flags(comptime: bool, mutable: bool, typed: bool) -> u32
    ensures { result ≡ let_flags comptime mutable typed }
{
    let a = flag(comptime, flag::LET_STMT_COMPTIME);
    let b = flag(mutable, flag::LET_STMT_MUTABLE);
    let c = flag(typed, flag::LET_STMT_TYPED);
    a + (b + c)
}

// `expr_requires_semi_as_stmt`
pub fn requires_semi(kind: u32) -> bool
    ensures { result ≡ requires_semi kind }
{
    !contains(&NO_SEMI, kind)
}

const NO_SEMI: [u32; 5] = [
    node::COMPTIME_BLOCK,
    node::BLOCK,
    node::IF,
    node::MATCH,
    node::ERROR,
];

// The statements with an expression that no semicolon follows: it closes the block, or is a statement whose semicolon is missing.
#[derive(Clone, Copy)]
pub struct Ended {
    pub list: Unfinished,
    pub closing: Option<u32>,
    pub last: bool,
}

// A node, and whether what is read goes on.
#[derive(Clone, Copy)]
pub struct Longer {
    pub it: Unfinished,
    pub on: bool,
}

// A node and a list in it, both open.
#[derive(Clone, Copy)]
pub struct Two {
    pub outer: Unfinished,
    pub inner: Unfinished,
}

// Where an expression starts, and its prefix operator's node.
#[derive(Clone, Copy)]
pub struct Prefixed {
    pub start: u32,
    pub it: Option<Unfinished>,
}

// A binary expression up to its right operand, and that one's priority.
#[derive(Clone, Copy)]
pub struct Infixed {
    pub it: Option<Unfinished>,
    pub right: u32,
}

// What goes on from an expression and is no binary operator.
#[derive(Clone, Copy)]
pub enum Goes {
    Member(u32),
    Call,
    Literal,
}

// After `(`: an empty tuple, or what stands in the brackets begins.
#[derive(Clone, Copy)]
pub enum Brackets {
    Empty(u32),
    Open(Unfinished),
}

// A parameter up to its type: its type is `$` and a name; its type is an expression.
#[derive(Clone, Copy)]
pub enum Param {
    Any(Unfinished, u32),
    Wants(Unfinished),
}

// What an `else` begins, and where: an `if` follows; a block follows.
#[derive(Clone, Copy)]
pub enum Else {
    If(u32),
    Last,
}

// A `let` up to the colon of its type.
#[derive(Clone, Copy)]
pub struct LetHead {
    pub it: Unfinished,
    pub mutable: bool,
    pub typed: bool,
}

// What an expression is at the start of a statement: the left side of an assignment, or whole.
#[derive(Clone, Copy)]
pub enum After {
    Assign,
    Whole(StmtResult),
}
