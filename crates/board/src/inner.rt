//! Everything of a board but its alarm.
ghost use Rattle.std.specs.Prelude.{◌≡◌, ℕ, ◌<◌, ◌≤◌, length, Some};
ghost use Rattle.planner.specs.Plans.{planned};
ghost use Rattle.rules.specs.declared.slots.Job.{Job};
ghost use Rattle.rules.specs.Plans.{limit};
ghost use Rattle.rules.specs.Views.{slot_at, job_at};

use crate::jobs::Jobs;
use planner::plan::Plan;
use rules::slots::Mode;

mod events;

/// The last tick of the clock.
pub const CLOCK_END: u64 = 1_000_000_000_000;

/// The clock, the ticks given to jobs, those spent asleep, the mode and the slots, over a plan.
#[derive(Drop)]
pub struct Core {
    plan: Plan,
    now: u64,
    ran: u64,
    slept: u64,
    mode: Mode,
    jobs: Jobs,
    ghost clock: { now ≤ limit },
    ghost given: { ran ≤ now },
    ghost rest: { slept ≤ now },
    ghost past: { (row t : ℕ) → (slot_at jobs.slots row).last ≡ Some t → t ≤ now },
    ghost listed: { (row : ℕ) (j : Job) → job_at jobs.slots row ≡ Some j → row < length (planned plan) },
}
