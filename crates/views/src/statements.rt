// Blocks and statements (ast/expr.rs).
ghost use Rattle.std.specs.Prelude.{◌≡◌};
ghost use Rattle.looking.specs.View.{answer};
ghost use Rattle.views.specs.Statements.{block, block_statement, block_statement_count, block_end_expr, let_stmt_name, let_stmt_name_span, let_stmt_comptime, let_stmt_mutable, let_stmt_span, let_stmt_type_expr, let_stmt_value, return_stmt_value, assign_stmt_target, assign_stmt_value, while_stmt_inline, while_stmt_condition, while_stmt_body};
ghost use Rattle.views.specs.Statements.{let_stmt_whole, let_stmt, while_stmt, statement_of, statement};

use expr::{expr, expr_of, type_of, value_of};
use looking::{
    Kinds, Seen, TokenSpan, flag_of, inner_count, inner_of, kind_of, look, name_of, new_child,
    new_of, nth_of, span_child, span_of,
};
use words::{flag, node};

// `BlockExpr::new`.
pub fn block(nodes: &[u32], n: u32) -> Seen<u32>
    ensures { answer result ≡ block nodes.now n }
{
    new_of(nodes, n, Kinds::BLOCKS)
}

// `BlockExpr::statements`, the node of its i-th.
pub fn block_statement(nodes: &[u32], n: u32, i: u32) -> Seen<u32>
    ensures { answer result ≡ block_statement i nodes.now n }
{
    inner_of(nodes, n, Kinds::BLOCKS, 0, Kinds::ANY, i as u64)
}

// `BlockExpr::statements`, counted.
pub fn block_statement_count(nodes: &[u32], n: u32) -> Seen<usize>
    ensures { answer result ≡ block_statement_count nodes.now n }
{
    inner_count(nodes, n, Kinds::BLOCKS, 0, Kinds::ANY)
}

// `BlockExpr::end_expr`.
pub fn block_end_expr(nodes: &[u32], n: u32) -> Seen<u32>
    ensures { answer result ≡ block_end_expr nodes.now n }
{
    expr_of(nodes, n, Kinds::BLOCKS, 1)
}

// `LetStmt::name`.
pub fn let_stmt_name(nodes: &[u32], n: u32) -> Seen<u32>
    ensures { answer result ≡ let_stmt_name nodes.now n }
{
    name_of(nodes, n, Kinds::one(node::LET_STMT), 0)
}

// `LetStmt::name_span`.
pub fn let_stmt_name_span(nodes: &[u32], n: u32) -> Seen<TokenSpan>
    ensures { answer result ≡ let_stmt_name_span nodes.now n }
{
    span_child(
        nodes,
        n,
        Kinds::one(node::LET_STMT),
        0,
        Kinds::one(node::IDENTIFIER),
    )
}

// `LetStmt::comptime`.
pub fn let_stmt_comptime(nodes: &[u32], n: u32) -> Seen<u32>
    ensures { answer result ≡ let_stmt_comptime nodes.now n }
{
    flag_of(
        nodes,
        n,
        Kinds::one(node::LET_STMT),
        flag::LET_STMT_COMPTIME,
    )
}

// `LetStmt::mutable`.
pub fn let_stmt_mutable(nodes: &[u32], n: u32) -> Seen<u32>
    ensures { answer result ≡ let_stmt_mutable nodes.now n }
{
    flag_of(nodes, n, Kinds::one(node::LET_STMT), flag::LET_STMT_MUTABLE)
}

// `LetStmt::span`.
pub fn let_stmt_span(nodes: &[u32], n: u32) -> Seen<TokenSpan>
    ensures { answer result ≡ let_stmt_span nodes.now n }
{
    span_of(nodes, n, Kinds::one(node::LET_STMT))
}

// `LetStmt::type_expr`.
pub fn let_stmt_type_expr(nodes: &[u32], n: u32) -> Seen<u32>
    ensures { answer result ≡ let_stmt_type_expr nodes.now n }
{
    type_of(nodes, n, node::LET_STMT)
}

// `LetStmt::value`.
pub fn let_stmt_value(nodes: &[u32], n: u32) -> Seen<u32>
    ensures { answer result ≡ let_stmt_value nodes.now n }
{
    value_of(nodes, n, node::LET_STMT)
}

// `ReturnStmt::value`.
pub fn return_stmt_value(nodes: &[u32], n: u32) -> Seen<u32>
    ensures { answer result ≡ return_stmt_value nodes.now n }
{
    expr_of(nodes, n, Kinds::one(node::RETURN_STMT), 0)
}

// `AssignStmt::target`.
pub fn assign_stmt_target(nodes: &[u32], n: u32) -> Seen<u32>
    ensures { answer result ≡ assign_stmt_target nodes.now n }
{
    expr_of(nodes, n, Kinds::one(node::ASSIGN_STMT), 0)
}

// `AssignStmt::value`.
pub fn assign_stmt_value(nodes: &[u32], n: u32) -> Seen<u32>
    ensures { answer result ≡ assign_stmt_value nodes.now n }
{
    expr_of(nodes, n, Kinds::one(node::ASSIGN_STMT), 1)
}

// `WhileStmt::inline`.
pub fn while_stmt_inline(nodes: &[u32], n: u32) -> Seen<u32>
    ensures { answer result ≡ while_stmt_inline nodes.now n }
{
    kind_of(nodes, n, Kinds::WHILES)
}

// `WhileStmt::condition`.
pub fn while_stmt_condition(nodes: &[u32], n: u32) -> Seen<u32>
    ensures { answer result ≡ while_stmt_condition nodes.now n }
{
    expr_of(nodes, n, Kinds::WHILES, 0)
}

// `WhileStmt::body`.
pub fn while_stmt_body(nodes: &[u32], n: u32) -> Seen<u32>
    ensures { answer result ≡ while_stmt_body nodes.now n }
{
    new_child(nodes, n, Kinds::WHILES, 1, Kinds::BLOCKS)
}

// `LetStmt::try_new`, after its name.
fn let_stmt_whole(nodes: &[u32], n: u32) -> Seen<u32>
    ensures { answer result ≡ let_stmt_whole nodes.now n }
{
    let kind = Kinds::one(node::LET_STMT);
    let Some(typed) = flag_of(nodes, n, kind, flag::LET_STMT_TYPED)? else {
        return Ok(None);
    };
    Ok(nth_of(nodes, n, kind, Kinds::ANY, 1 + typed as u64)?.map(|_| n))
}

// `LetStmt::try_new`.
pub fn let_stmt(nodes: &[u32], n: u32) -> Seen<u32>
    ensures { answer result ≡ let_stmt nodes.now n }
{
    let Some(_) = let_stmt_name(nodes, n)? else {
        return Ok(None);
    };
    let_stmt_whole(nodes, n)
}

// `WhileStmt::try_new`.
pub fn while_stmt(nodes: &[u32], n: u32) -> Seen<u32>
    ensures { answer result ≡ while_stmt nodes.now n }
{
    Ok(nth_of(nodes, n, Kinds::WHILES, Kinds::ANY, 1)?.map(|_| n))
}

#[tactic(auto, using(std::proofs::lemmas::Bool::Decides::nat_tests), unfolding(crate::specs::Statements::statement_of))]
fn statement_of(nodes: &[u32], n: u32, kind: u32) -> Seen<u32>
    ensures { answer result ≡ statement_of nodes.now n kind }
{
    match kind {
        node::LET_STMT => let_stmt(nodes, n),
        node::RETURN_STMT | node::ASSIGN_STMT => Ok(Some(n)),
        node::WHILE_STMT | node::INLINE_WHILE_STMT => while_stmt(nodes, n),
        _ => expr(nodes, n),
    }
}

// `Statement::new`: the node that a statement is, or the expression without its brackets.
pub fn statement(nodes: &[u32], n: u32) -> Seen<u32>
    ensures { answer result ≡ statement nodes.now n }
{
    statement_of(nodes, n, look(nodes, n)?.kind)
}
