// Replays the recorded answers of the Rust lexer, then those of the Rust parser.
#![tactic(auto)]

mod lexed;
mod recorded;
mod trees;

use std::io;

fn main(rt: HostRuntime) -> io::Result<()> {
    lexed::replay_lexed(&rt)?;
    trees::replay_data(&rt)
}
