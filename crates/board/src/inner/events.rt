//! What each event does to the clock, the mode and the slots.
ghost use Rattle.std.specs.Prelude.{◌≡◌, ℕ, ◌<◌, ◌≤◌, Some, false, MatchBool, MatchResult, OnErr};
ghost use Rattle.rules.specs.declared.slots.Mode.TheVariants.{Asleep, Awake};
ghost use Rattle.rules.specs.declared.calls.Call.TheVariants.{Release, Done, Tick, Report};
ghost use Rattle.refusal.specs.declared.cases.Refusal.TheVariants.{NoSuchRow};
ghost use Rattle.table.specs.Tasks.{task_at};
ghost use Rattle.planner.specs.Plans.{planned, sleeps_of};
ghost use Rattle.planner.specs.Sleeps.{sleep_at};
ghost use Rattle.rules.specs.Plans.{limit};
ghost use Rattle.rules.specs.Views.{slot_at};
ghost use Rattle.rules.specs.Steps.{Idle, Busy, Apart, Soon, mode_after};
ghost use Rattle.board.specs.Cores.{rows, slots_of, New, Same, Tells, Refusing, Opens, Settled, Gives, Advances, Serves, Dozes, Shuts};
ghost use Rattle.board.specs.Jobs.{Foremost};

use crate::inner::{CLOCK_END, Core};
use crate::jobs::{Jobs, KnownRow};
use planner::plan::Plan;
use refusal::cases::Refusal;
use rules::calls::Status;
use rules::slots::{Job, Mode};

/// Whether the job has had a tick.
fn has_begun(job: Job) -> bool
    ensures { MatchBool result (0 < job.given) (job.given ≡ 0) }
{
    job.given > 0
}

impl Core {
    /// Asleep at tick 0, without jobs.
    pub(crate) fn new(plan: Plan) -> Core
        ensures { New plan result }
    {
        Core {
            plan,
            now: 0,
            ran: 0,
            slept: 0,
            mode: Mode::Asleep,
            jobs: Jobs::new(),
        }
    }

    /// Whether the board sleeps.
    pub(crate) fn mode(&self) -> Mode
        ensures { result ≡ self.entry.now.mode }
    {
        self.mode
    }

    /// Refuses a tick once the clock has reached its last.
    fn early(&self) -> Result<(), Refusal>
        ensures { MatchResult result (λ _. self.entry.now.now < limit) (Refusing self.entry.now Tick) }
    {
        if self.now >= CLOCK_END {
            return Err(Refusal::ClockEnd);
        }
        Ok(())
    }

    /// The row, which is refused unless the plan has it.
    fn known(&self, row: usize) -> Result<KnownRow, Refusal>
        ensures { MatchResult result (λ known. (known.row ≡ row) × (row < rows self.entry.now)) (λ why. (why ≡ NoSuchRow) × (rows self.entry.now ≤ row)) }
    {
        if row >= self.plan.count() {
            return Err(Refusal::NoSuchRow);
        }
        Ok(KnownRow { row })
    }

    /// Wakes the board.
    pub(crate) fn wake(&mut self)
        ensures same { Same self.entry.now self.exit.now }
        ensures mode { self.exit.now.mode ≡ Awake }
    {
        self.mode = Mode::Awake;
    }

    /// The counts, and the row's open job.
    pub(crate) fn status(&self, row: usize) -> Result<Status, Refusal>
        ensures { MatchResult result (Tells self.entry.now row) (Refusing self.entry.now (Report row)) }
    {
        let job = self.jobs.slot(self.known(row)?).job;
        Ok(Status {
            now: self.now,
            ran: self.ran,
            slept: self.slept,
            job,
        })
    }

    /// Whether no job is open.
    pub(crate) fn is_idle(&self) -> bool
        ensures { MatchBool result (Idle (slots_of self.entry.now)) (Busy (slots_of self.entry.now)) }
    {
        self.jobs.is_idle()
    }

    /// With no job open the board falls asleep.
    fn settle(&mut self)
        ensures same { Same self.entry.now self.exit.now }
        ensures settled { Settled self.entry.now.mode self.exit.now }
    {
        if self.jobs.is_idle() {
            self.mode = Mode::Asleep;
        }
    }

    /// Whether the row's gap is over since its last release.
    fn is_apart(&self, known: KnownRow, gap: u32) -> bool
        ensures { MatchBool result (Apart (slot_at self.entry.now.jobs.slots known.row).last gap self.entry.now.now) (Soon (slot_at self.entry.now.jobs.slots known.row).last gap self.entry.now.now) }
    {
        let last = self.jobs.slot(known).last;
        last.is_none_or(|last| u64::from(gap) <= self.now - last)
    }

    /// Opens a job of the row, and answers the row's sleep.
    pub(crate) fn open(&mut self, row: usize) -> Result<u32, Refusal>
        ensures answer { MatchResult result (λ sleep. Opens self.entry.now row sleep self.exit.now) (Refusing self.entry.now (Release row)) }
        ensures refused { OnErr result (self.exit.now ≡ self.entry.now) }
    {
        let known = self.known(row)?;
        let task = self.plan.task(row).unwrap();
        let sleep = self.plan.sleep(row).unwrap();
        if !self.is_apart(known, task.gap) {
            return Err(Refusal::TooSoon);
        }
        let due = self.now + u64::from(task.due);
        self.jobs.open(known, self.now, due);
        Ok(sleep)
    }

    /// Closes the row's job, which has had a tick.
    pub(crate) fn close(&mut self, row: usize) -> Result<(), Refusal>
        ensures answer { MatchResult result (λ _. Shuts self.entry.now row self.exit.now) (Refusing self.entry.now (Done row)) }
        ensures refused { OnErr result (self.exit.now ≡ self.entry.now) }
    {
        let known = self.known(row)?;
        let job = self.jobs.slot(known).job.ok_or(Refusal::NoOpenJob)?;
        if !has_begun(job) {
            return Err(Refusal::NotBegun);
        }
        self.jobs.close(known);
        self.settle();
        Ok(())
    }

    /// Gives one tick to the row, whose job comes first.
    fn feed(&mut self, row: usize)
        requires before_end { self.now.now < limit }
        requires foremost { Foremost self.now.jobs.slots (Some row) }
        ensures gives { Gives (Some row) self.entry.now self.exit.now }
        ensures advances { Advances self.entry.now self.exit.now }
    {
        let task = self.plan.task(row).unwrap();
        self.now += 1;
        self.ran += 1;
        self.jobs.feed(KnownRow { row }, task.run);
    }

    /// One tick awake: the job that comes first gets it.
    pub(crate) fn serve(&mut self) -> Result<Option<usize>, Refusal>
        ensures answer { MatchResult result (λ who. Serves self.entry.now who self.exit.now) (Refusing self.entry.now Tick) }
        ensures refused { OnErr result (self.exit.now ≡ self.entry.now) }
    {
        self.early()?;
        let first = self.jobs.first();
        match first {
            Some(row) => self.feed(row),
            None => self.now += 1,
        }
        self.settle();
        Ok(first)
    }

    /// One tick asleep.
    pub(crate) fn doze(&mut self) -> Result<(), Refusal>
        requires { self.now.mode ≡ Asleep }
        ensures answer { MatchResult result (λ _. Dozes self.entry.now false self.exit.now) (Refusing self.entry.now Tick) }
        ensures refused { OnErr result (self.exit.now ≡ self.entry.now) }
    {
        self.early()?;
        self.now += 1;
        self.slept += 1;
        Ok(())
    }

    /// After a tick asleep, a ring wakes the board.
    pub(crate) fn ring(&mut self, rang: bool)
        ensures same { Same self.entry.now self.exit.now }
        ensures mode { self.exit.now.mode ≡ mode_after rang }
    {
        self.mode = if rang { Mode::Awake } else { Mode::Asleep };
    }
}
