//! Reads a script of calls on standard input, one call a line, and answers one line each.
#![tactic(auto)]

mod answer;
mod boards;
mod script;
mod text;
mod view;

use answer::Denied;
use anyhow::bail;
use boards::Boards;
use script::{Call, Wrong};
use std::io::{BufRead, BufReader};

/// Answers the call that some words make.
fn answer_words(rt: &HostRuntime, boards: &mut Boards, words: &[&str]) -> anyhow::Result<()> {
    let call = match Call::parse(rt.alloc(), words) {
        Ok(call) => call,
        Err(Wrong::NoMemory) => bail!("no memory"),
        Err(wrong) => return Ok(println!(rt; "? {wrong}")?),
    };
    match boards.answer(call) {
        Ok(answer) => println!(rt; "ok {answer}")?,
        // Want of memory ends the session; any other refusal is an answer.
        Err(Denied::NoMemory(e)) => return Err(e.into()),
        Err(denied) => println!(rt; "no {denied}")?,
    }
    Ok(())
}

fn main(rt: HostRuntime) -> anyhow::Result<()> {
    let heap = rt.alloc();
    let mut boards = Boards::new(heap)?;
    for line in BufReader::new(heap, rt.stdin())?.split(heap, b'\n') {
        let line = String::from_utf8_lossy(heap, line?.as_slice())?;
        let words: Vec<&str> = line.as_str().split_ascii_whitespace().collect(heap)?;
        if words.is_empty() || words[0].starts_with('#') {
            continue;
        }
        answer_words(&rt, &mut boards, words.as_slice())?;
    }
    Ok(())
}
