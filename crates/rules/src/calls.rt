//! The calls of a board, and what they answer.
use crate::slots::Job;

/// A call, with the row that it names.
#[derive(Clone, Copy, PartialEq, Eq, Debug)]
pub enum Call {
    Release(usize),
    Done(usize),
    Tick,
    Report(usize),
}

/// What a report answers: the clock, the ticks given to jobs, those spent asleep, and the row's open job, if any.
#[derive(Clone, Copy, PartialEq, Eq, Debug)]
pub struct Status {
    pub now: u64,
    pub ran: u64,
    pub slept: u64,
    pub job: Option<Job>,
}

/// What a call answers that is accepted. A refused one answers why, so a call answers a `Result` of the two.
#[derive(Clone, Copy, PartialEq, Eq, Debug)]
pub enum Answer {
    Released,
    Closed,
    /// The row that ran, if any, and whether the alarm rang: the pair that a board's tick answers.
    Ticked(Option<usize>, bool),
    Reported(Status),
}
