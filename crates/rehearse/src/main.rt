//! `rehearse ALARM TABLE CALLS`: makes a list of calls on a board over a table's plan, and prints what each does.
//!
//! ALARM is `counter` or `divider`, or one of these under a layer: `ramp:W:counter` with a warm-up of W ticks,
//! `top-up:divider` and the like. TABLE is a file with a table's text; CALLS has one call a line, as `script` reads them.
#![tactic(auto)]

mod kinds;
mod script;
mod show;

use crate::kinds::Rehearsal;
use anyhow::{Context, anyhow};
use planner::plan::Plan;
use refusal::explain::Sentence;
use std::{env, fs};

fn run(rt: &HostRuntime) -> anyhow::Result<()> {
    let mut words = env::args(rt)?.skip(1);
    let kind = words
        .next()
        .context("which alarm? rehearse ALARM TABLE CALLS")?;
    let table = words
        .next()
        .context("which table? rehearse ALARM TABLE CALLS")?;
    let calls = words
        .next()
        .context("which calls? rehearse ALARM TABLE CALLS")?;
    let text = fs::read(rt, table.as_str())?;
    let mut plan = Plan::empty();
    if let Err(refusal) = plan.fill(&text) {
        rt.println(refusal)?;
        rt.eprintln(Sentence(refusal))?;
        return Err(anyhow!("the table is refused"));
    }
    let lines = fs::read_to_string(rt, calls.as_str())?;
    let calls = script::read_calls(rt, &text, &lines)?;
    let rehearsal = Rehearsal { rt, plan, calls };
    rehearsal.run(&kind)
}

fn main(rt: HostRuntime) -> anyhow::Result<()> {
    run(&rt)
}
