//! Alarms: one trait, and the kinds that a controller may be built with.
//!
//! An alarm is set to a wait, lets ticks go by, and rings. `Counter` and `Divider` stand for timers in hardware;
//! `Ramp` and `TopUp` are layers over any alarm, another layer included. Each keeps what is left to count in a `Countdown`.
#![tactic(auto)]

pub mod base;
pub mod countdown;
pub mod counter;
pub mod divider;
pub mod ramp;
pub mod topup;
