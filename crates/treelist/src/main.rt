// Lists the tree of the text on standard input: the numbers of nodes and reports, then for each node its number, kind, payload,
// first token, end token, next sibling, first child and parent.
#![tactic(auto)]

use std::io::{self, Read};
use words::{NODE_WIDTH, Node, Refusal, Refused};

// The most bytes of text that are read.
const LONGEST: usize = 2048;

fn print_refused(rt: &impl Print, refused: Refused) -> io::Result<()> {
    println!(rt; "refused {} {}", refused.number(), refused.place)
}

fn print_node(rt: &impl Print, n: usize, node: Node) -> io::Result<()> {
    print!(rt; "{n} {} {} {} ", node.kind, node.payload, node.first)?;
    println!(rt; "{} {} {} {}", node.end, node.next, node.child, node.parent)
}

fn print_nodes(rt: &impl Print, nodes: &[u32], count: usize) -> io::Result<()> {
    for (n, words) in nodes
        .as_chunks::<NODE_WIDTH>()
        .0
        .iter()
        .take(count)
        .enumerate()
    {
        print_node(rt, n, words::node_of(*words))?;
    }
    Ok(())
}

fn list(
    rt: &impl Print,
    text: &[u8],
    tokens: &mut [u32],
    nodes: &mut [u32],
    values: &mut [u32],
    reports: &mut [u32],
) -> io::Result<()> {
    match plank::read(text, tokens, nodes, values, reports) {
        Ok(read) => {
            println!(rt; "nodes {} reports {}", read.nodes, read.reports)?;
            print_nodes(rt, nodes, read.nodes as usize)
        }
        Err(refused) => print_refused(rt, refused),
    }
}

fn main(rt: HostRuntime) -> io::Result<()> {
    // One byte more than is taken shows that there is more.
    let mut text = Vec::new(rt.alloc());
    rt.stdin().take(LONGEST as u64 + 1).read_to_end(&mut text)?;
    if LONGEST < text.len() {
        return print_refused(&rt, Refusal::TooLong.at(LONGEST as u32));
    }
    let mut tokens = [0u32; 2049];
    let mut nodes = [0u32; 16384];
    let mut values = [0u32; 4096];
    let mut reports = [0u32; 4096];
    list(
        &rt,
        text.as_slice(),
        &mut tokens,
        &mut nodes,
        &mut values,
        &mut reports,
    )
}
