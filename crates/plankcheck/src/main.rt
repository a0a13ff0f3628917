// Checks scripts for people: what is wrong in each file that is named, or in standard input where none is, as
// `file:line:column: message` with the line and carets under the place. With `--tree`, the tree comes first.
#![tactic(auto)]

mod outline;
mod print;
mod reports;
mod show;

use std::alloc::Global;
use std::env::{Env, FillError};
use std::fmt::Display;
use std::fs;
use std::io::{self, Read, Write};

// The words that are lent: what a script of 65,536 bytes takes at most, as argued in bindings/README.md. A token for each byte, and Eof;
// three nodes for each byte, and File; a word of values for each byte, and one; two reports for each, and one at Eof.
const TOKENS: usize = 65537;

const NODES: usize = 1179654;

const VALUES: usize = 65537;

const REPORTS: usize = 393219;

// What an argument was.
#[derive(Clone, Copy)]
enum Argument {
    Tree,
    File,
}

// The tree, if it is asked for. The values are not printed, and their words serve to find the way through the tree.
fn tree_if_asked(
    out: &mut impl Write,
    with_tree: bool,
    text: &[u8],
    tokens: &[u32],
    nodes: &[u32],
    count: u32,
    values: &mut [u32],
) -> io::Result<()> {
    if with_tree {
        outline::list(out, text, tokens, nodes, count, values)?;
    }
    Ok(())
}

fn report_on(
    out: &mut impl Write,
    name: &[u8],
    text: &[u8],
    with_tree: bool,
    tokens: &mut [u32; TOKENS],
    nodes: &mut [u32; NODES],
    values: &mut [u32; VALUES],
    told: &mut [u32; REPORTS],
) -> io::Result<()> {
    match plank::read(text, tokens, nodes, values, told) {
        Ok(read) => {
            tree_if_asked(out, with_tree, text, tokens, nodes, read.nodes, values)?;
            reports::list(out, name, text, told, read.reports)?;
            reports::summary(out, name, read.reports)
        }
        Err(refused) => reports::refused(out, name, text, tokens, refused),
    }
}

fn check_text(out: &mut impl Write, name: &[u8], text: &[u8], with_tree: bool) -> io::Result<()> {
    let mut tokens = [0u32; TOKENS];
    let mut nodes = [0u32; NODES];
    let mut values = [0u32; VALUES];
    let mut told = [0u32; REPORTS];
    report_on(
        out,
        name,
        text,
        with_tree,
        &mut tokens,
        &mut nodes,
        &mut values,
        &mut told,
    )
}

// What is read of a text. One byte more than a script may have shows that there is more, and whether reading fails shows at the next.
fn read(alloc: Global, from: &mut impl Read) -> io::Result<Vec<u8>> {
    let mut text = Vec::new(alloc);
    from.take(65538).read_to_end(&mut text)?;
    Ok(text)
}

// Tells on standard error why something can't be read; where that can't be written either, no one is told.
fn fail(rt: &impl Eprint, name: &str, why: &impl Display) {
    let _ = eprintln!(rt; "{name}: {why}");
}

fn check_input(rt: &HostRuntime, with_tree: bool) -> io::Result<()> {
    match read(rt.alloc(), &mut rt.stdin()) {
        Ok(text) => check_text(&mut io::writer(rt), b"<stdin>", text.as_slice(), with_tree),
        Err(why) => {
            fail(rt, "<stdin>", &why);
            Ok(())
        }
    }
}

fn read_file(rt: &HostRuntime, path: &str) -> io::Result<Vec<u8>> {
    let mut file = fs::open(rt, path)?;
    read(rt.alloc(), &mut file)
}

fn check_file(rt: &HostRuntime, path: &str, with_tree: bool) -> io::Result<()> {
    if path == "-" {
        return check_input(rt, with_tree);
    }
    match read_file(rt, path) {
        Ok(text) => check_text(
            &mut io::writer(rt),
            path.as_bytes(),
            text.as_slice(),
            with_tree,
        ),
        Err(why) => {
            fail(rt, path, &why);
            Ok(())
        }
    }
}

// Does what an argument says. The library opens no file whose name is not UTF-8.
fn follow(rt: &HostRuntime, argument: &[u8], with_tree: bool) -> io::Result<Argument> {
    match str::from_utf8(argument) {
        Ok(text) => {
            if text == "--tree" {
                return Ok(Argument::Tree);
            }
            check_file(rt, text, with_tree)?;
        }
        Err(_) => fail(rt, "argument", &"not UTF-8"),
    }
    Ok(Argument::File)
}

// Does what the i-th argument says; none behind the last.
fn take(rt: &HostRuntime, i: usize, with_tree: bool) -> io::Result<Option<Argument>> {
    let mut buffer = [0u8; 4096];
    match rt.arg(i, &mut buffer) {
        Ok(n) => Ok(Some(follow(rt, &buffer[..n], with_tree)?)),
        Err(FillError::NotPresent) => Ok(None),
        Err(FillError::TooLong) => {
            fail(rt, "argument", &"too long");
            Ok(Some(Argument::File))
        }
    }
}

fn main(rt: HostRuntime) -> io::Result<()> {
    let mut with_tree = false;
    let mut is_named = false;
    for i in 1..usize::MAX {
        match take(&rt, i, with_tree)? {
            Some(Argument::Tree) => with_tree = true,
            Some(Argument::File) => is_named = true,
            None => break,
        }
    }
    if is_named {
        return Ok(());
    }
    check_input(&rt, with_tree)
}
