//! What is printed of each call.
use refusal::cases::Refusal;
use rules::calls::{Answer, Call, Status};
use rules::slots::Job;

// This program's own lines, some of two, and no `Display` of a status.
fn show_status(rt: &HostRuntime, status: Status) -> anyhow::Result<()> {
    let Status {
        now,
        ran,
        slept,
        job,
    } = status;
    println!(rt; "now {now}, ran {ran}, slept {slept}")?;
    if let Some(Job { due, given }) = job {
        println!(rt; "  an open job, due {due}, given {given}")?;
    }
    Ok(())
}

/// Prints a tick that begins at `now`, and says whether the board is awake after it.
fn show_tick(
    rt: &HostRuntime,
    now: u64,
    awake: bool,
    who: Option<usize>,
    rang: bool,
) -> anyhow::Result<bool> {
    match who {
        Some(row) => {
            if !awake {
                println!(rt; "{now}: woke, since the alarm had no time to wait")?;
            }
            println!(rt; "{now}: ran {row}")?;
            Ok(true)
        }
        None => {
            if rang {
                println!(rt; "{now}: slept, rang, woke")?;
            } else {
                println!(rt; "{now}: slept")?;
            }
            Ok(rang)
        }
    }
}

/// Prints the calls with their answers. A board that ran stays awake until a tick sleeps again.
pub(crate) fn show_log(
    rt: &HostRuntime,
    calls: &[Call],
    answers: &[Result<Answer, Refusal>],
) -> anyhow::Result<()> {
    let mut now: u64 = 0;
    let mut awake = false;
    for (call, answer) in calls.iter().zip(answers) {
        match *answer {
            Ok(Answer::Released | Answer::Closed) => println!(rt; "{now}: {call}")?,
            Ok(Answer::Ticked(who, rang)) => {
                awake = show_tick(rt, now, awake, who, rang)?;
                now = now.saturating_add(1);
            }
            Ok(Answer::Reported(status)) => show_status(rt, status)?,
            Err(refusal) => println!(rt; "{call}: {refusal}")?,
        }
    }
    Ok(())
}
