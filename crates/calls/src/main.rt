// Works the library from a text: one call a line on standard input, one answer a line on standard output.

#![tactic(auto)]

mod answer;
mod error;
mod expression;
mod forms;
mod session;
mod words;

use session::answers_to;
use std::io;
use std::io::{Read, Write};

fn read_calls(rt: &HostRuntime) -> io::Result<Vec<u8>> {
    let mut text = Vec::new(rt.alloc());
    rt.stdin().read_to_end(&mut text)?;
    Ok(text)
}

fn run(rt: &HostRuntime) -> anyhow::Result<()> {
    let text = read_calls(rt)?;
    let answers = answers_to(rt.alloc(), &text)?;
    rt.stdout().write_all(answers.as_bytes())?;
    Ok(())
}

fn main(rt: HostRuntime) -> anyhow::Result<()> {
    run(&rt)
}
