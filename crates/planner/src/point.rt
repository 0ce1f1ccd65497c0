//! A demand point, and the order in which a walk meets them.

// The row stands first, so that both fields are one 64-bit number in memory and a point's key is one load.
/// The tick at which a row's next job is due, counted from a release of all rows at once.
#[derive(Clone, Copy, PartialEq, Eq, Default)]
pub struct Point {
    pub row: u32,
    pub time: u32,
}
