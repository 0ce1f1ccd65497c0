//! One slot a row, and the queue of the open jobs' turns.
ghost use Rattle.std.specs.Prelude.{◌≡◌, ℕ, ◌<◌, ◌≤◌, length, take};
ghost use Rattle.queue.specs.Queue.{Heaped};
ghost use Rattle.board.specs.Turns.{sooner, Queued};

use crate::turn::Turn;
use rules::slots::Slot;
use table::rows::MOST_ROWS;

mod moves;

/// A row that has a slot.
#[derive(Clone, Copy)]
pub struct KnownRow {
    pub row: usize,
    ghost in_range: { row < 64 },
}

// Arrays of 64, since the board has no heap: one slot a row, of which a call changes one. The turns have the number held beside
// them, since the queue works on a lent slice, and needs the free place past its own.
/// The slots, and the turns of the jobs that are open in them, the first `held` of the array.
#[derive(Drop)]
pub struct Jobs {
    slots: [Slot; MOST_ROWS],
    turns: [Turn; MOST_ROWS],
    held: usize,
    ghost size: { length slots ≡ 64 },
    ghost places: { length turns ≡ 64 },
    ghost within: { held ≤ 64 },
    ghost ordered: { Heaped sooner (take held turns) },
    ghost queued: { Queued slots (take held turns) },
}
