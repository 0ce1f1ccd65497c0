//! What the rows run in a common period.
ghost use Rattle.std.specs.Prelude.{◌≡◌};
ghost use Rattle.table.specs.Rows.{rows_of, common_of};
ghost use Rattle.planner.specs.Demand.{load};

use table::rows::Table;

/// The ticks that the rows ask for in a common period.
pub(crate) fn load_of(table: &Table) -> u32
    ensures { result ≡ load (rows_of table.now) (common_of table.now) }
{
    let tasks = table.tasks();
    let period = table.common();
    let mut sum = 0;
    for task in tasks {
        sum += task.run * (period / task.gap);
    }
    sum
}
