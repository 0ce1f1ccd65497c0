//! `sleeptable`: reads a table's text from standard input, and prints its plan or the record of its refusal.
//!
//! A refusal is also told to a person, on standard error, and the program then ends with status 1.
#![tactic(auto)]

ghost use Rattle.std.specs.Prelude.{◌≤◌, length, IfOk};

use quote::page::quote_text;
use refusal::explain::Sentence;
use std::io::{Read, Write};
use std::process::ExitCode;

/// The most bytes that are read: one more than a text may have, so that a longer one is noticed.
const MOST_READ: usize = 8_193;

// Not by `read_to_end`, which asks for a part of the room at a time: an input that keeps the borders of its messages, as a
// packet socket does, drops what a read has no room for. Each read here has room for all that may still come.
/// Reads until the input ends or the buffer is full, and says how many bytes there are.
fn fill(input: &mut impl Read, buffer: &mut [u8]) -> anyhow::Result<usize>
    ensures { IfOk result (λ n. n ≤ length buffer.new) }
{
    let mut filled = 0;
    for _ in 0..MOST_READ {
        if filled >= buffer.len() {
            break;
        }
        let count = input.read(&mut buffer[filled..])?;
        if count == 0 {
            break;
        }
        filled += count;
    }
    Ok(filled)
}

fn main(rt: HostRuntime) -> anyhow::Result<ExitCode> {
    let mut buffer = [0u8; MOST_READ];
    let size = fill(&mut rt.stdin(), &mut buffer)?;
    let printed = quote_text(rt.alloc(), &buffer[..size])?;
    rt.stdout().write_all(printed.page.as_slice())?;
    let Some(refusal) = printed.refusal else {
        return Ok(ExitCode::SUCCESS);
    };
    rt.eprintln(Sentence(refusal))?;
    Ok(ExitCode::FAILURE)
}
