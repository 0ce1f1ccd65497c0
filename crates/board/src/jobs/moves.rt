//! What is done to the slots, each time to one of them, and to the queue with it.
ghost use Rattle.std.specs.Prelude.{◌≡◌, ℕ, ◌<◌, ◌≤◌, length, replicate, Some, None, MatchBool, slice_set};
ghost use Rattle.queue.specs.Order.{Linear};
ghost use Rattle.rules.specs.declared.slots.Job.{Job};
ghost use Rattle.rules.specs.Steps.{Idle, Busy};
ghost use Rattle.rules.specs.Views.{empty, slot_at, job_at, opened, closed, fed};
ghost use Rattle.board.specs.Jobs.{Foremost, Working};
ghost use Rattle.board.specs.Turns.{sooner};

use crate::jobs::{Jobs, KnownRow};
use crate::turn::Turn;
use queue::{peek, push, remove};
use rules::slots::{Job, Slot};
use table::rows::MOST_ROWS;

impl Jobs {
    /// No row was released yet. Turns go by a linear order.
    pub(crate) fn new() -> Jobs
        ensures slots { result.slots ≡ replicate 64 empty }
        ensures order { Linear sooner }
    {
        Jobs {
            slots: [Slot::default(); MOST_ROWS],
            turns: [Turn::default(); MOST_ROWS],
            held: 0,
        }
    }

    /// The slot of a row.
    pub(crate) fn slot(&self, known: KnownRow) -> Slot
        ensures { result ≡ slot_at self.now.slots known.row }
    {
        self.slots[known.row]
    }

    /// Whether no job is open.
    pub(crate) fn is_idle(&self) -> bool
        ensures { MatchBool result (Idle self.now.slots) (Busy self.now.slots) }
    {
        self.held == 0
    }

    /// The row whose job comes first: the one with the smallest due tick, and the lowest of those.
    pub(crate) fn first(&self) -> Option<usize>
        ensures { Foremost self.now.slots result }
    {
        peek(&self.turns, self.held).map(|turn| turn.row)
    }

    /// Opens a job of the row, which has none, due by the tick `due`.
    fn enter(&mut self, known: KnownRow, at: u64, due: u64)
        requires { job_at self.old.slots known.row ≡ None }
        ensures { self.new.slots ≡ slice_set self.old.slots known.row (opened at due) }
    {
        let row = known.row;
        self.held = push(&mut self.turns, self.held, Turn { due, row }).unwrap();
        self.slots[row] = Slot {
            last: Some(at),
            job: Some(Job { due, given: 0 }),
        };
    }

    /// Closes the row's job, which leaves the queue wherever it stands there.
    // Out of line, so that the calls that close nothing stay short: with this inlined an awake tick takes a tenth longer.
    #[inline(never)]
    pub(crate) fn close(&mut self, known: KnownRow)
        requires { Working self.old.slots known.row }
        ensures { self.new.slots ≡ slice_set self.old.slots known.row (closed (slot_at self.old.slots known.row)) }
    {
        let row = known.row;
        let slot = self.slots[row];
        let due = slot.job.unwrap().due;
        self.held = remove(&mut self.turns, self.held, Turn { due, row }).unwrap();
        self.slots[row] = Slot { job: None, ..slot };
    }

    /// Opens a job of the row. One that is still open there gives way.
    pub(crate) fn open(&mut self, known: KnownRow, at: u64, due: u64)
        ensures { self.new.slots ≡ slice_set self.old.slots known.row (opened at due) }
    {
        if self.slot(known).job.is_some() {
            self.close(known);
        }
        self.enter(known, at, due);
    }

    /// Gives the row's job a tick; it closes when it has had its run.
    pub(crate) fn feed(&mut self, known: KnownRow, run: u32)
        requires { Working self.old.slots known.row }
        ensures { (j : Job) → job_at self.old.slots known.row ≡ Some j → self.new.slots ≡ slice_set self.old.slots known.row (fed run (slot_at self.old.slots known.row) j) }
    {
        let slot = self.slots[known.row];
        let job = slot.job.unwrap();
        if u64::from(run) <= u64::from(job.given) + 1 {
            self.close(known);
        } else {
            let given = job.given + 1;
            self.slots[known.row] = Slot {
                job: Some(Job { given, ..job }),
                ..slot
            };
        }
    }
}
