//! What a plan tells of itself.
ghost use Rattle.std.specs.Prelude.{◌≡◌, ◌<◌, ◌≤◌, [], length, MatchOption};
ghost use Rattle.std.specs.List.{slice_get};
ghost use Rattle.table.specs.Tasks.{Whole, LeastCommon};
ghost use Rattle.planner.specs.Computed.{shortest_of};
ghost use Rattle.planner.specs.Demand.{Loads, IsSleep};
ghost use Rattle.planner.specs.Sleeps.{MetNear};
ghost use Rattle.planner.specs.Plans.{planned, sleeps_of, period_of, load_of, AllSleeps, Shortest};

use crate::plan::Plan;
use table::task::Task;

impl Plan {
    /// How many tasks it has.
    pub fn count(&self) -> usize
        ensures tasks { result ≡ length (planned self.now) }
        ensures sleeps { result ≡ length (sleeps_of self.now) }
        ensures bound { result ≤ 64 }
    {
        self.rows.tasks().len()
    }

    /// The task of a row, if there is that row.
    pub fn task(&self, row: usize) -> Option<Task>
        ensures value { result ≡ slice_get (planned self.now) row }
        ensures whole { MatchOption result (length (planned self.now) ≤ row) (λ task. (row < length (planned self.now)) × Whole task × (task.gap ≤ 100000)) }
    {
        self.rows.tasks().get(row).copied()
    }

    /// The sleeps, row by row.
    pub fn sleeps(&self) -> &[u32]
        ensures value { result.now ≡ sleeps_of self.now }
        ensures each { AllSleeps (planned self.now) result.now }
    {
        &self.sleeps[..self.count()]
    }

    /// The sleep of a row, if there is that row.
    pub fn sleep(&self, row: usize) -> Option<u32>
        ensures value { result ≡ slice_get (sleeps_of self.now) row }
        ensures sleep { MatchOption result (length (planned self.now) ≤ row) (λ s. (row < length (planned self.now)) × IsSleep (planned self.now) row s) }
        ensures near { MatchOption result (length (planned self.now) ≤ row) (MetNear (planned self.now) (period_of self.now) row) }
    {
        self.sleeps().get(row).copied()
    }

    /// The common period of the tasks: the least common multiple of their gaps.
    pub fn common(&self) -> u32
        ensures value { result ≡ period_of self.now }
        ensures least { LeastCommon (planned self.now) result }
        ensures bound { result ≤ 1000000 }
    {
        self.rows.common()
    }

    /// The ticks that the tasks ask for in a common period.
    pub fn load(&self) -> u32
        ensures value { result ≡ load_of self.now }
        ensures loads { Loads (planned self.now) (period_of self.now) result }
        ensures bound { result ≤ period_of self.now }
    {
        self.load
    }

    /// The shortest sleep; none exactly where there are no tasks.
    pub fn shortest(&self) -> Option<u32>
        ensures value { result ≡ shortest_of (sleeps_of self.now) }
        ensures shortest { MatchOption result (planned self.now ≡ []) (λ s. (1 ≤ length (planned self.now)) × Shortest (sleeps_of self.now) s) }
    {
        self.sleeps().iter().copied().min()
    }
}
