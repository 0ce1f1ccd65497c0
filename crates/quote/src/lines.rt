//! The lines of a printed plan.
ghost use Rattle.std.specs.Prelude.{◌≡◌, ◌++◌, length, IfOk, string_bytes, OnOk};
ghost use Rattle.planner.specs.Plans.{planned, period_of, load_of};
ghost use Rattle.quote.specs.Printed.{plan_text, sleep_text, shortest_text};

use planner::plan::Plan;
use std::alloc::{AllocError, Global};

// Functions and no `Display`: a page's lines carry their bytes in their contracts.
/// The first line: how many rows there are, their load and their common period.
pub fn plan_line(heap: Global, plan: &Plan) -> Result<String, AllocError>
    ensures { IfOk result (λ s. string_bytes s ≡ plan_text (length (planned plan.now)) (load_of plan.now) (period_of plan.now)) }
{
    let count = plan.count();
    let load = plan.load();
    let common = plan.common();
    format!(in heap; "(plan {count} (load {load}) (common {common}))\n")
}

/// Adds a row's line: its name and its sleep.
pub fn add_sleep(page: &mut Vec<u8>, name: &[u8], sleep: u32) -> Result<(), AllocError>
    ensures { OnOk result (page.new.items ≡ page.old.items ++ sleep_text name.now sleep) }
{
    page.extend_from_slice(b"(sleep ")?;
    page.extend_from_slice(name)?;
    let heap = *page.allocator();
    let rest = format!(in heap; " {sleep})\n")?;
    page.extend_from_slice(rest.as_bytes())?;
    Ok(())
}

/// The last line: the shortest sleep.
pub fn shortest_line(heap: Global, shortest: u32) -> Result<String, AllocError>
    ensures { IfOk result (λ s. string_bytes s ≡ shortest_text shortest) }
{
    format!(in heap; "(shortest {shortest})\n")
}
