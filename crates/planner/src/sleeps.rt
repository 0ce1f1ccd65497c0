//! The sleeps of all rows, from one walk that goes from due to due.
ghost use Rattle.std.specs.Prelude.{◌≤◌, length, MatchResult};
ghost use Rattle.table.specs.Rows.{rows_of, common_of};
ghost use Rattle.planner.specs.Demand.{load, Accepted};
ghost use Rattle.planner.specs.Margins.{Overdemands};
ghost use Rattle.planner.specs.Sleeps.{Rested, Tight, Lowered};

use crate::walk::Walk;
use refusal::cases::Refusal;
use table::rows::{MOST_ROWS, Table};
use table::task::Task;

/// Lowers the sleeps of the rows whose due is at most `from`.
fn lower(sleeps: &mut [u32], tasks: &[Task], from: u32, least: u32)
    requires { length tasks.now ≤ length sleeps.old }
    ensures { Lowered tasks.now from least sleeps.old sleeps.new }
{
    // By index: of sleeps that `iter_mut` lent to a `zip` a proof knows their number alone.
    for (row, task) in tasks.iter().enumerate() {
        if task.due <= from {
            sleeps[row] = sleeps[row].min(least);
        }
    }
}

// An array, as the plan keeps it: those of the rows come first.
/// The sleeps of an accepted table, or the refusal of the shortest window without room. The walk ends with the window of one common
/// period: what is longer has that window's margin and that of a shorter one.
pub(crate) fn sleeps_of(table: &Table) -> Result<[u32; MOST_ROWS], Refusal>
    requires { load (rows_of table.now) (common_of table.now) ≤ common_of table.now }
    ensures { MatchResult result (λ s. Accepted (rows_of table.now) × Rested (rows_of table.now) s × Tight (rows_of table.now) (common_of table.now) s) (Overdemands (rows_of table.now) 1) }
{
    let mut walk = Walk::new(table);
    let mut sleeps = [u32::MAX; MOST_ROWS];
    let common = table.common();
    let end = common + 1;
    // From due to due: no range has these steps.
    while walk.at < end {
        let from = walk.at;
        let until = walk.next_due(end);
        let least = walk.leg(until)?;
        lower(&mut sleeps, walk.tasks, from, least);
    }
    Ok(sleeps)
}
