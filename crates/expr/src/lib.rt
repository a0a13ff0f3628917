// Which node an expression is (`Expr::new` of ast/expr.rs), and the expressions that children are: operands, types, values.
#![tactic(auto, unfolding(looking::specs::View::and_then))]

ghost use Rattle.std.specs.Prelude.{◌≡◌};
ghost use Rattle.looking.specs.View.{answer, turns};
ghost use Rattle.expr.specs.Expr.{peel, struct_body, asked, whole, expr_at, expr, expr_of, type_of, value_of};

use looking::any::child;
use looking::{Kinds, Seen, flag_of, look, name_of, new_child, new_of, nth_of, turns};
use words::node;

// The node inside all brackets.
fn peel(nodes: &[u32], n: u32) -> Seen<u32>
    ensures { answer result ≡ peel (turns nodes.now) nodes.now n }
{
    let mut at = n;
    for _turn in 0..turns(nodes) {
        let found = look(nodes, at)?;
        if found.kind != node::PAREN_EXPR {
            return Ok(Some(at));
        }
        if found.child == 0 {
            return Ok(None);
        }
        at = found.child;
    }
    Ok(None)
}

// The body of a struct definition: its first child, or the second after an index type.
#[tactic(auto, unfolding(crate::specs::Expr::struct_body, looking::specs::View::and_then, looking::specs::View::or_else))]
pub fn struct_body(nodes: &[u32], n: u32) -> Seen<u32>
    ensures { answer result ≡ struct_body nodes.now n }
{
    let kind = Kinds::one(node::STRUCT_DEF);
    let body = Kinds::one(node::STRUCT_BODY);
    let Some(first) = nth_of(nodes, n, kind, Kinds::ANY, 0)? else {
        return Ok(None);
    };
    match new_of(nodes, first, body)? {
        None => new_child(nodes, n, kind, 1, body),
        found => Ok(found),
    }
}

// One more than the children that an expression of this kind asks for; 0 of no expression, and of one that asks for more than children.
#[tactic(auto, using(std::proofs::lemmas::Bool::Decides::nat_tests), unfolding(crate::specs::Expr::asked))]
fn asked(kind: u32) -> u32
    ensures { result ≡ asked kind }
{
    match kind {
        node::BINARY_EXPR | node::IF | node::MATCH => 3,
        node::FN_DEF => 4,
        node::UNARY_EXPR
        | node::CALL_EXPR
        | node::STRUCT_LIT
        | node::TUPLE_TYPE
        | node::TUPLE_LIT
        | node::BLOCK
        | node::COMPTIME_BLOCK
        | node::BOOL_LITERAL
        | node::NUM_LITERAL
        | node::STRING_LITERAL
        | node::SELF_TYPE
        | node::IDENTIFIER
        | node::BUILTIN_NAME => 1,
        _ => 0,
    }
}

// A node of this kind, which is no bracket, where it is a whole expression.
#[tactic(auto, using(std::proofs::lemmas::Bool::Decides::nat_tests), unfolding(crate::specs::Expr::whole, looking::specs::View::and_then))]
fn whole(nodes: &[u32], n: u32, kind: u32) -> Seen<u32>
    ensures { answer result ≡ whole nodes.now n kind }
{
    match kind {
        node::MEMBER_EXPR => Ok(name_of(nodes, n, Kinds::one(kind), 1)?.map(|_| n)),
        node::STRUCT_DEF => Ok(struct_body(nodes, n)?.map(|_| n)),
        _ => match asked(kind) {
            0 => Ok(None),
            1 => Ok(Some(n)),
            wanted => Ok(child(nodes, n, wanted - 2)?.map(|_| n)),
        },
    }
}

// The same, of a node whose kind is not known.
fn expr_at(nodes: &[u32], n: u32) -> Seen<u32>
    ensures { answer result ≡ expr_at nodes.now n }
{
    whole(nodes, n, look(nodes, n)?.kind)
}

// The node that an expression is, its brackets taken off.
pub fn expr(nodes: &[u32], n: u32) -> Seen<u32>
    ensures { answer result ≡ expr nodes.now n }
{
    let Some(inner) = peel(nodes, n)? else {
        return Ok(None);
    };
    expr_at(nodes, inner)
}

// The expression that the i-th child of a node of `kinds` is.
pub fn expr_of(nodes: &[u32], n: u32, kinds: Kinds, i: u64) -> Seen<u32>
    ensures { answer result ≡ expr_of kinds.from kinds.to i nodes.now n }
{
    let Some(child) = nth_of(nodes, n, kinds, Kinds::ANY, i)? else {
        return Ok(None);
    };
    expr(nodes, child)
}

// The type of a constant or a `let` that has one.
#[tactic(auto, using(std::proofs::lemmas::Bool::Decides::nat_tests), unfolding(looking::specs::View::and_then))]
pub fn type_of(nodes: &[u32], n: u32, kind: u32) -> Seen<u32>
    ensures { answer result ≡ type_of kind nodes.now n }
{
    let Some(typed) = flag_of(nodes, n, Kinds::one(kind), 1)? else {
        return Ok(None);
    };
    if typed == 0 {
        return Ok(None);
    }
    expr_of(nodes, n, Kinds::one(kind), 1)
}

// The value of a constant or a `let`, which stands after its type.
pub fn value_of(nodes: &[u32], n: u32, kind: u32) -> Seen<u32>
    ensures { answer result ≡ value_of kind nodes.now n }
{
    let Some(typed) = flag_of(nodes, n, Kinds::one(kind), 1)? else {
        return Ok(None);
    };
    expr_of(nodes, n, Kinds::one(kind), 1 + typed as u64)
}
