//! The whole page that is printed for a text.
ghost use Rattle.std.specs.Prelude.{◌≡◌, ◌++◌, length, IfOk, OnOk};
ghost use Rattle.planner.specs.Plans.{sleeps_of};
ghost use Rattle.planner.specs.Computed.{shortest_of};
ghost use Rattle.quote.specs.Printed.{sleep_texts, shortest_line_of, names_in, Printed};

use crate::lines::{add_sleep, plan_line, shortest_line};
use planner::plan::Plan;
use refusal::cases::Refusal;
use std::alloc::{AllocError, Global};
use table::name::name_of;

/// What is printed for a text, and why it was refused, if it was.
#[derive(Drop)]
pub struct Quote {
    pub page: Vec<u8>,
    pub refusal: Option<Refusal>,
}

/// Adds the lines of all rows.
fn add_rows(page: &mut Vec<u8>, text: &[u8], plan: &Plan) -> Result<(), AllocError>
    ensures { OnOk result (page.new.items ≡ page.old.items ++ sleep_texts (names_in text.now) (sleeps_of plan.now)) }
{
    for (row, sleep) in plan.sleeps().iter().enumerate() {
        let Some(name) = name_of(text, row) else {
            break;
        };
        add_sleep(page, name, *sleep)?;
    }
    Ok(())
}

/// Adds the line of the shortest sleep.
fn add_shortest(page: &mut Vec<u8>, plan: &Plan) -> Result<(), AllocError>
    ensures { OnOk result (page.new.items ≡ page.old.items ++ shortest_line_of (shortest_of (sleeps_of plan.now))) }
{
    if let Some(shortest) = plan.shortest() {
        let line = shortest_line(*page.allocator(), shortest)?;
        page.extend_from_slice(line.as_bytes())?;
    }
    Ok(())
}

/// What is printed for a text: its plan, or the record of its refusal.
pub fn quote_text(heap: Global, text: &[u8]) -> Result<Quote, AllocError>
    ensures { IfOk result (λ q. Printed text.now q.page.items q.refusal) }
{
    let mut plan = Plan::empty();
    match plan.fill(text) {
        Ok(()) => {
            let first = plan_line(heap, &plan)?;
            let mut page = Vec::from_slice(heap, first.as_bytes())?;
            add_rows(&mut page, text, &plan)?;
            add_shortest(&mut page, &plan)?;
            Ok(Quote {
                page,
                refusal: None,
            })
        }
        Err(refusal) => {
            let line = format!(in heap; "{refusal}\n")?;
            let page = Vec::from_slice(heap, line.as_bytes())?;
            Ok(Quote {
                page,
                refusal: Some(refusal),
            })
        }
    }
}
