//! Rows within the limits that the reader asks for, and the table that some of them make.
ghost use Rattle.std.specs.Prelude.{◌≡◌, ℕ, ◌<◌, ◌≤◌, length, take};
ghost use Rattle.std.specs.Int.{◌∣◌};
ghost use Rattle.table.specs.Limits.{most_rows, most_common};
ghost use Rattle.table.specs.Tasks.{AllWhole, Bounded, Common};

use crate::task::Task;

mod adds;
mod views;

/// The most rows that a table may have.
pub const MOST_ROWS: usize = 64;

// An array and a count, since rows, tables and plans are Copy, which no vector is.
/// The tasks of some rows, none at first: those before `count` in the array. With them their common period, the least
/// common multiple of their gaps: 1 where there is no row.
#[derive(Clone, Copy)]
pub struct Rows {
    list: [Task; MOST_ROWS],
    count: usize,
    common: u32,
    ghost size: { length list ≡ most_rows },
    ghost within: { count ≤ most_rows },
    ghost whole: { AllWhole (take count list) },
    ghost bounded: { Bounded (take count list) },
    ghost positive: { 1 ≤ common },
    ghost short: { common ≤ most_common },
    ghost multiple: { Common (take count list) common },
    ghost least: { (x : ℕ) → Common (take count list) x → common ∣ x },
}

/// A table that was read: its rows, of which there is at least one.
#[derive(Clone, Copy)]
pub struct Table {
    rows: Rows,
    ghost some: { 1 ≤ rows.count },
}
