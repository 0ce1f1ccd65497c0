//! What rows tell of themselves, and a table of its rows.
ghost use Rattle.std.specs.Prelude.{◌≡◌, ℕ, ◌<◌, ◌≤◌, length};
ghost use Rattle.table.specs.Drafts.{drafted, common_so_far};
ghost use Rattle.table.specs.Limits.{most_rows, most_common};
ghost use Rattle.table.specs.Rows.{rows_of, common_of};
ghost use Rattle.table.specs.Tasks.{AllWhole, Bounded, LeastCommon};

use crate::rows::{Rows, Table};
use crate::task::Task;

impl Rows {
    /// The tasks, in the order of their rows.
    pub fn tasks(&self) -> &[Task]
        ensures value { result.now ≡ drafted self.now }
        ensures bound { length result.now ≤ most_rows }
        ensures whole { AllWhole result.now }
        ensures bounded { Bounded result.now }
    {
        &self.list[..self.count]
    }

    /// The common period: the least common multiple of the gaps, 1 where there is no row.
    pub fn common(&self) -> u32
        ensures value { result ≡ common_so_far self.now }
        ensures bound { result ≤ most_common }
        ensures least { LeastCommon (drafted self.now) result }
    {
        self.common
    }
}

// A table's readings say more than those of its rows: there is at least one.
impl Table {
    /// The rows, to be taken over whole.
    pub fn rows(&self) -> Rows
        ensures tasks { drafted result ≡ rows_of self.now }
        ensures common { common_so_far result ≡ common_of self.now }
    {
        self.rows
    }

    /// The tasks, in the order of their rows.
    pub fn tasks(&self) -> &[Task]
        ensures value { result.now ≡ rows_of self.now }
        ensures bound { (1 ≤ length result.now) × (length result.now ≤ most_rows) }
        ensures whole { AllWhole result.now }
        ensures bounded { Bounded result.now }
    {
        self.rows.tasks()
    }

    /// The common period: the least common multiple of the gaps.
    pub fn common(&self) -> u32
        ensures value { result ≡ common_of self.now }
        ensures bound { result ≤ most_common }
        ensures least { LeastCommon (rows_of self.now) result }
    {
        self.rows.common()
    }
}
