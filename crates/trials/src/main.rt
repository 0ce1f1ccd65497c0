//! Tries the reader and the planner on texts at the edge of every rule, and prints what each gets.
#![tactic(auto)]

mod made;
mod typed;

use quote::page::quote_text;
use refusal::cases::{Position, Refusal};
use refusal::explain::Sentence;
use std::io::Write;
use typed::Labelled;

/// Prints a label, and what is printed for the text.
pub(crate) fn show(rt: &HostRuntime, label: &str, text: &[u8]) -> anyhow::Result<()> {
    let quote = quote_text(rt.alloc(), text)?;
    rt.println(label)?;
    rt.stdout().write_all(quote.page.as_slice())?;
    Ok(())
}

/// Prints each label, and what is printed for its text.
fn show_all(rt: &HostRuntime, texts: &[Labelled]) -> anyhow::Result<()> {
    for (label, text) in texts {
        show(rt, label, text)?;
    }
    Ok(())
}

/// Prints the record and the sentence of each refusal that no text gets.
fn tell_others(rt: &HostRuntime) -> anyhow::Result<()> {
    let at = Position { line: 3, place: 57 };
    let others = [
        Refusal::NoSuchRow,
        Refusal::TooSoon,
        Refusal::ClockEnd,
        Refusal::NoOpenJob,
        Refusal::NotBegun,
        Refusal::WarmUpLimit,
        Refusal::GapLimit(at),
        Refusal::Overload { load: 113 },
    ];
    for other in others {
        rt.println(other)?;
        rt.println(Sentence(other))?;
    }
    Ok(())
}

fn run(rt: &HostRuntime) -> anyhow::Result<()> {
    show_all(rt, typed::FIGURES)?;
    show_all(rt, typed::ROWS)?;
    show_all(rt, typed::FORMS)?;
    show_all(rt, typed::EDGES)?;
    made::sizes(rt)?;
    made::counts(rt)?;
    tell_others(rt)
}

fn main(rt: HostRuntime) -> anyhow::Result<()> {
    run(&rt)
}
