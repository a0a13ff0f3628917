// Lists the tokens of the text on standard input: their number, then for each its number, kind, start and end.
#![tactic(auto)]

use std::io::{self, Read};
use words::{Refusal, Refused};

// The most bytes of text that are read.
const LONGEST: usize = 2048;

fn print_refused(rt: &impl Print, refused: Refused) -> io::Result<()> {
    println!(rt; "refused {} {}", refused.number(), refused.place)
}

fn print_tokens(rt: &impl Print, tokens: &[u32]) -> io::Result<()> {
    let mut start = 0;
    for (n, word) in tokens.iter().enumerate() {
        let end = words::token_end(*word);
        println!(rt; "{n} {} {start} {end}", words::token_kind(*word))?;
        start = end;
    }
    Ok(())
}

fn list(rt: &impl Print, text: &[u8], tokens: &mut [u32]) -> io::Result<()> {
    match tables::lex(text, tokens) {
        Ok(n) => {
            println!(rt; "tokens {n}")?;
            // Always so: there are no more tokens than words were lent.
            if n <= tokens.len() {
                print_tokens(rt, &tokens[..n])?;
            }
            Ok(())
        }
        Err(refused) => print_refused(rt, refused),
    }
}

fn main(rt: HostRuntime) -> io::Result<()> {
    // One byte more than is taken shows that there is more.
    let mut text = Vec::new(rt.alloc());
    rt.stdin().take(LONGEST as u64 + 1).read_to_end(&mut text)?;
    if LONGEST < text.len() {
        return print_refused(&rt, Refusal::TooLong.at(LONGEST as u32));
    }
    let mut tokens = [0u32; 2049];
    list(&rt, text.as_slice(), &mut tokens)
}
