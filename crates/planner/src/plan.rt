//! The plan of a table: its tasks, and how long each row may sleep.
ghost use Rattle.std.specs.Prelude.{◌≡◌, ◌≤◌, length, take};
ghost use Rattle.table.specs.Drafts.{drafted, common_so_far};
ghost use Rattle.planner.specs.Demand.{Accepted, Loads};
ghost use Rattle.planner.specs.Sleeps.{Rested, Tight};

use table::rows::{MOST_ROWS, Rows};

mod fill;
mod readings;
mod text;

/// No rows, or those of an accepted table, with their sleeps: as many of the array as there are rows. What always holds
/// of it stands in its type, so whoever is handed a plan may use it. Of the empty plan the load is 0.
#[derive(Clone, Copy)]
pub struct Plan {
    rows: Rows,
    // An array, since a plan is Copy; and beside the rows, which are the table's own, with what their type knows: pairs of a
    // task and its sleep would have to say all of that again.
    sleeps: [u32; MOST_ROWS],
    load: u32,
    ghost sizes: { length sleeps ≡ 64 },
    ghost loads: { Loads (drafted rows) (common_so_far rows) load },
    ghost room: { load ≤ common_so_far rows },
    ghost accepted: { Accepted (drafted rows) },
    ghost rested: { Rested (drafted rows) (take (length (drafted rows)) sleeps) },
    ghost tight: { Tight (drafted rows) (common_so_far rows) (take (length (drafted rows)) sleeps) },
}
