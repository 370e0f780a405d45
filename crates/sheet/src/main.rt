// Reads a sheet text from standard input, searches for the lightest formula over the built-in operators, and prints the answer.

#![tactic(auto)]

mod answer;
mod formula;
#[cfg(test)]
mod tests;

use answer::answer_to;
use std::io;
use std::io::{Read, Write};

// One byte more than a sheet may have, so that a longer one is seen.
const MOST: u64 = 4097;

fn read_sheet(rt: &HostRuntime) -> io::Result<Vec<u8>> {
    let mut text = Vec::new(rt.alloc());
    rt.stdin().take(MOST).read_to_end(&mut text)?;
    Ok(text)
}

fn run(rt: &HostRuntime) -> anyhow::Result<()> {
    let text = read_sheet(rt)?;
    let lines = answer_to(rt.alloc(), &text)?;
    rt.stdout().write_all(lines.as_bytes())?;
    Ok(())
}

fn main(rt: HostRuntime) -> anyhow::Result<()> {
    run(&rt)
}
