//! What the queue of open jobs holds.

/// The turn of a row's open job, which must be served by the tick `due`. Turns go by their due tick, and by row at one tick.
#[derive(Clone, Copy, PartialEq, Eq, PartialOrd, Ord, Default)]
pub struct Turn {
    pub due: u64,
    pub row: usize,
}
