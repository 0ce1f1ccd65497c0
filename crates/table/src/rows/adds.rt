//! Rows begin as none, take one task after the other, and end as a table.
ghost use Rattle.std.specs.Prelude.{◌≡◌, ℕ, ◌+◌, ◌<◌, ◌≤◌, [], ◌∷◌, ◌++◌, length, Some, None, MatchResult};
ghost use Rattle.refusal.specs.declared.cases.Refusal.TheVariants.{CommonLimit};
ghost use Rattle.table.specs.Common.{lcm};
ghost use Rattle.table.specs.Drafts.{drafted, common_so_far, Adds};
ghost use Rattle.table.specs.Limits.{most_rows, most_gap};
ghost use Rattle.table.specs.Rows.{rows_of, common_of};
ghost use Rattle.table.specs.Tasks.{Whole};

use crate::period::least_multiple;
use crate::rows::{MOST_ROWS, Rows, Table};
use crate::task::Task;
use refusal::cases::{Position, Refusal};

/// The most ticks that a common period may have.
const MOST_COMMON: u64 = 1_000_000;

impl Rows {
    /// No task yet.
    pub fn new() -> Rows
        ensures tasks { drafted result ≡ [] }
        ensures common { common_so_far result ≡ 1 }
    {
        Rows {
            list: [Task::default(); MOST_ROWS],
            count: 0,
            common: 1,
        }
    }

    /// One task more, of the row whose line stands `here`, unless the common period would pass its limit.
    pub(crate) fn add(&mut self, task: Task, here: Position) -> Result<(), Refusal>
        requires room { length (drafted self.old) < most_rows }
        requires whole { Whole task }
        requires bounded { task.gap ≤ most_gap }
        ensures { Adds here task result self.old self.new }
    {
        let common = least_multiple(self.common, task.gap);
        if common > MOST_COMMON {
            return Err(Refusal::CommonLimit(here));
        }
        self.list[self.count] = task;
        self.count += 1;
        // It is at most MOST_COMMON here, so the cast keeps it.
        self.common = common as u32;
        Ok(())
    }

    /// The table of the tasks so far.
    pub(crate) fn finish(self) -> Table
        requires { 1 ≤ length (drafted self) }
        ensures tasks { rows_of result ≡ drafted self }
        ensures common { common_of result ≡ common_so_far self }
    {
        Table { rows: self }
    }
}
