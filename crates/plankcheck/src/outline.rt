// The tree as lines: a node's kind, its flags, and how it is spelled; children are indented.
use crate::{print, show};
use std::io::{self, Write};
use words::{NODE_WIDTH, Node, flag, node};

// The node that comes next, and how many nodes it is below File.
#[derive(Clone, Copy)]
struct Next {
    node: u32,
    depth: usize,
}

// A node by its number; one of zeros where there is none.
fn node_at(nodes: &[u32], number: u32) -> Node {
    match nodes.as_chunks::<NODE_WIDTH>().0.get(number as usize) {
        Some(words) => words::node_of(*words),
        None => words::node_of([0; NODE_WIDTH]),
    }
}

// Where a token starts: at the end of the one before it.
pub(crate) fn token_start(tokens: &[u32], token: u32) -> usize {
    if token == 0 {
        return 0;
    }
    match tokens.get(token as usize - 1) {
        Some(word) => words::token_end(*word) as usize,
        None => 0,
    }
}

fn print_flag(out: &mut impl Write, payload: u32, bit: u32, name: &[u8]) -> io::Result<()> {
    if payload & bit != 0 {
        out.write_all(name)?;
    }
    Ok(())
}

fn print_flags(out: &mut impl Write, kind: u32, payload: u32) -> io::Result<()> {
    match kind {
        node::CONST_DECL => print_flag(out, payload, flag::CONST_DECL_TYPED, b" typed"),
        node::IMPORT_DECL => {
            print_flag(out, payload, flag::IMPORT_DECL_PUBLIC, b" public")?;
            print_flag(out, payload, flag::IMPORT_DECL_GLOB, b" glob")
        }
        node::IMPORT_AS_DECL => print_flag(out, payload, flag::IMPORT_AS_DECL_PUBLIC, b" public"),
        node::IMPORT_GROUP_DECL => print_flag(
            out,
            payload,
            flag::IMPORT_GROUP_DECL_PUBLIC,
            b" public",
        ),
        node::LET_STMT => {
            print_flag(out, payload, flag::LET_STMT_COMPTIME, b" comptime")?;
            print_flag(out, payload, flag::LET_STMT_MUTABLE, b" mutable")?;
            print_flag(out, payload, flag::LET_STMT_TYPED, b" typed")
        }
        node::MATCH_FALLBACK_ARM => {
            print_flag(out, payload, flag::MATCH_FALLBACK_ARM_BINDING, b" binding")
        }
        node::FN_DEF => print_flag(out, payload, flag::FN_DEF_EAGER, b" eager"),
        node::METHOD_DEF => print_flag(out, payload, flag::METHOD_DEF_EAGER, b" eager"),
        _ => Ok(()),
    }
}

// Two blanks for a level, up to 40 levels; deeper ones are as those.
fn print_indent(out: &mut impl Write, depth: usize) -> io::Result<()> {
    let blanks = [b' '; 80];
    out.write_all(&blanks[..depth.min(40) * 2])
}

// Up to where a node's tokens are shown: all those of a name, a literal, an operator or an error, and the operator of a UnaryExpr.
fn shown_end(n: Node) -> u32 {
    match n.kind {
        node::IDENTIFIER | node::BUILTIN_NAME | node::SELF_TYPE | node::PARAM_ANY_TYPE => n.end,
        node::BOOL_LITERAL | node::NUM_LITERAL | node::STRING_LITERAL => n.end,
        node::OPERATOR | node::ERROR => n.end,
        node::UNARY_EXPR => { if n.first < n.end { n.first + 1 } else { n.end } }
        _ => n.first,
    }
}

// The script's part of some tokens.
fn print_tokens(
    out: &mut impl Write,
    text: &[u8],
    tokens: &[u32],
    first: u32,
    end: u32,
) -> io::Result<()> {
    if first < end {
        out.write_all(b" ")?;
        show::excerpt(
            out,
            text,
            token_start(tokens, first),
            token_start(tokens, end),
        )?;
    }
    Ok(())
}

fn print_node(
    out: &mut impl Write,
    text: &[u8],
    tokens: &[u32],
    n: Node,
    depth: usize,
) -> io::Result<()> {
    print_indent(out, depth)?;
    print::node(out, n.kind)?;
    print_flags(out, n.kind, n.payload)?;
    print_tokens(out, text, tokens, n.first, shown_end(n))?;
    out.write_all(b"\n")
}

// The next sibling of the nearest node above that has one. `waiting` has the next sibling of each node above, the deepest last.
fn above(waiting: &[u32], depth: usize) -> Option<Next> {
    for at in (0..depth.min(waiting.len())).rev() {
        let node = waiting[at];
        if node != 0 {
            return Some(Next { node, depth: at });
        }
    }
    None
}

// What comes behind a node: its first child, its next sibling, or one above.
fn following(n: Node, depth: usize, waiting: &mut [u32]) -> Option<Next> {
    if n.child != 0 && depth < waiting.len() {
        waiting[depth] = n.next;
        return Some(Next {
            node: n.child,
            depth: depth + 1,
        });
    }
    if n.next != 0 {
        return Some(Next {
            node: n.next,
            depth,
        });
    }
    above(waiting, depth)
}

// The tree of so many nodes.
pub(crate) fn list(
    out: &mut impl Write,
    text: &[u8],
    tokens: &[u32],
    nodes: &[u32],
    count: u32,
    waiting: &mut [u32],
) -> io::Result<()> {
    let mut at = Next { node: 0, depth: 0 };
    for _ in 0..count {
        let n = node_at(nodes, at.node);
        print_node(out, text, tokens, n, at.depth)?;
        let Some(next) = following(n, at.depth, waiting) else {
            break;
        };
        at = next;
    }
    Ok(())
}
