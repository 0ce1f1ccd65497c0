//! The worked figures: how many hold by the rules, and when the cutter's board rings by its code. `trials` prints what the
//! code answers to the tables' figures, and `alarm_piles` what it answers to the alarms'.
#![tactic(auto)]

mod cutter;
mod list;
mod premises;

use crate::cutter::{fan_released, head_released};
use crate::list::figures_hold;
use crate::premises::premises_met;
use alarm::base::Alarm;
use board::board::Board;
use refusal::cases::Refusal;
use std::io;

/// The ticks up to the next ring, if one comes within 100.
fn ticks_to_ring<T: Alarm>(board: &mut Board<T>) -> Result<Option<u32>, Refusal> {
    for passed in 1..=100_u32 {
        let (_, rang) = board.tick()?;
        if rang {
            return Ok(Some(passed));
        }
    }
    Ok(None)
}

fn main(rt: HostRuntime) -> io::Result<()> {
    let count = figures_hold();
    println!(rt; "{count} figures hold by the rules")?;
    let ticks = premises_met();
    println!(rt; "a sleep of {ticks} ticks meets the premises")?;
    if let Ok(Some(ticks)) = ticks_to_ring(&mut fan_released()) {
        println!(rt; "fan released at 0: rings after {ticks} ticks")?;
    }
    if let Ok(Some(ticks)) = ticks_to_ring(&mut head_released()) {
        println!(rt; "and head at 1: rings {ticks} ticks later")?;
    }
    Ok(())
}
