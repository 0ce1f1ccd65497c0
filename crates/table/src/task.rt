//! One row of a table.

/// A task, in ticks: a job takes at most `run`, must be served within `due` of its release, and two releases are
/// at least `gap` apart.
#[derive(Clone, Copy, PartialEq, Eq, Default, Debug)]
pub struct Task {
    pub run: u32,
    pub due: u32,
    pub gap: u32,
}
