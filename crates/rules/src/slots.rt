//! What a board keeps of each row.

/// Whether the board puts its work off.
#[derive(Clone, Copy, PartialEq, Eq, Debug)]
pub enum Mode {
    Asleep,
    Awake,
}

/// An open job: the tick by which it must be served, and the ticks that it was given.
#[derive(Clone, Copy, PartialEq, Eq, Debug)]
pub struct Job {
    pub due: u64,
    pub given: u32,
}

/// One row of the board: the tick of its last accepted release, and its open job.
#[derive(Clone, Copy, PartialEq, Eq, Debug, Default)]
pub struct Slot {
    pub last: Option<u64>,
    pub job: Option<Job>,
}
