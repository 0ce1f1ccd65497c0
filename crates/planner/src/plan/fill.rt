//! Filling a plan from a table.
ghost use Rattle.std.specs.Prelude.{MatchResult};
ghost use Rattle.table.specs.Rows.{rows_of, common_of};
ghost use Rattle.planner.specs.Plans.{Empty};
ghost use Rattle.planner.specs.Verdict.{Made, Refused, Windows, Judged};

use crate::period::load_of;
use crate::plan::Plan;
use crate::sleeps::sleeps_of;
use refusal::cases::Refusal;
use table::rows::{MOST_ROWS, Rows, Table};

impl Plan {
    /// The plan of no tasks.
    pub fn empty() -> Plan
        ensures { Empty result }
    {
        Plan {
            rows: Rows::new(),
            sleeps: [0; MOST_ROWS],
            load: 0,
        }
    }

    /// The plan of a table's tasks, or why they are refused.
    fn of(table: &Table) -> Result<Plan, Refusal>
        ensures answered { MatchResult result (Made (rows_of table.now) (common_of table.now)) (Refused (rows_of table.now) (common_of table.now)) }
        ensures windows { Windows (rows_of table.now) (common_of table.now) }
    {
        let load = load_of(table);
        if load > table.common() {
            return Err(Refusal::Overload { load });
        }
        let sleeps = sleeps_of(table)?;
        Ok(Plan {
            rows: table.rows(),
            sleeps,
            load,
        })
    }

    /// Fills the plan with a table's tasks and their sleeps, whatever it held before. A refused table leaves it empty.
    pub fn fill_from(&mut self, table: &Table) -> Result<(), Refusal>
        ensures { Judged (rows_of table.now) (common_of table.now) result self.new }
    {
        *self = Plan::empty();
        *self = Plan::of(table)?;
        Ok(())
    }
}
