//! A board: the core and its alarm.
use crate::inner::Core;
use alarm::base::Alarm;

mod calls;
mod make;

/// A board over a plan and an alarm.
#[derive(Drop)]
pub struct Board<T: Alarm> {
    core: Core,
    alarm: T,
}
