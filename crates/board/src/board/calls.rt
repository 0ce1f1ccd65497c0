//! The four calls of a board, and the one place where they meet its mode.
ghost use Rattle.std.specs.Prelude.{◌≡◌, OnErr};
ghost use Rattle.rules.specs.declared.slots.Mode.TheVariants.{Asleep};
ghost use Rattle.rules.specs.declared.calls.Call.TheVariants.{Release, Done, Tick, Report};
ghost use Rattle.rules.specs.declared.calls.Answer.TheVariants.{Released, Closed, Ticked, Reported};
ghost use Rattle.board.specs.Boards.{rules_of, answer_for, Calmed, Does, Arms};
ghost use Rattle.board.specs.Cores.{slots_of};

use crate::board::Board;
use alarm::base::Alarm;
use refusal::cases::Refusal;
use rules::calls::{Answer, Call, Status};
use rules::slots::Mode;

impl<T: Alarm> Board<T> {
    /// Asleep: sets the alarm to the released row's sleep, unless it rings as soon. A wait of 0 wakes the board.
    fn arm(&mut self, sleep: u32)
        requires { self.old.core.mode ≡ Asleep }
        ensures { Arms T.Alarm self.old sleep self.new }
    {
        if self.alarm.left().is_none_or(|left| sleep < left) {
            if self.alarm.set(sleep) == 0 {
                self.core.wake();
            }
        }
    }

    /// With no job open the alarm is cleared.
    fn calm(&mut self)
        ensures core { self.new.core ≡ self.old.core }
        ensures calmed { Calmed T.Alarm (slots_of self.old.core) self.old.alarm self.new.alarm }
        ensures rules { rules_of T.Alarm self.new ≡ rules_of T.Alarm self.old }
    {
        if self.core.is_idle() {
            self.alarm.clear();
        }
    }

    /// What a call does depends on the call and on whether the board sleeps.
    pub fn act(&mut self, call: Call) -> Result<Answer, Refusal>
        ensures does { Does T.Alarm self.old call result self.new }
        ensures refused { OnErr result (self.new ≡ self.old) }
    {
        match (call, self.core.mode()) {
            (Call::Release(row), Mode::Asleep) => {
                let sleep = self.core.open(row)?;
                self.arm(sleep);
                Ok(Answer::Released)
            }
            (Call::Release(row), Mode::Awake) => {
                self.core.open(row)?;
                Ok(Answer::Released)
            }
            (Call::Tick, Mode::Asleep) => {
                self.core.doze()?;
                let rang = self.alarm.pass();
                self.core.ring(rang);
                Ok(Answer::Ticked(None, rang))
            }
            (Call::Tick, Mode::Awake) => {
                let who = self.core.serve()?;
                let rang = self.alarm.pass();
                self.calm();
                Ok(Answer::Ticked(who, rang))
            }
            (Call::Done(row), _) => {
                self.core.close(row)?;
                self.calm();
                Ok(Answer::Closed)
            }
            (Call::Report(row), _) => {
                let status = self.core.status(row)?;
                Ok(Answer::Reported(status))
            }
        }
    }

    /// Opens a job of the row. Asleep, the alarm is set to the row's sleep if it is unset or has more left; a wait of 0
    /// wakes the board.
    pub fn release(&mut self, row: usize) -> Result<(), Refusal>
        ensures does { Does T.Alarm self.old (Release row) (answer_for (λ _. Released) result) self.new }
        ensures refused { OnErr result (self.new ≡ self.old) }
    {
        // As `done`, of another call: each call has its name.
        self.act(Call::Release(row)).map(|_| ())
    }

    /// Closes the row's job early. With no job left open the board falls asleep, with its alarm unset.
    pub fn done(&mut self, row: usize) -> Result<(), Refusal>
        ensures does { Does T.Alarm self.old (Done row) (answer_for (λ _. Closed) result) self.new }
        ensures refused { OnErr result (self.new ≡ self.old) }
    {
        self.act(Call::Done(row)).map(|_| ())
    }

    /// Lets one tick go by. Awake, the job with the smallest due tick gets it, the lower row's in a tie; asleep, a ring
    /// wakes the board. Answers the row that ran, if any, and whether the alarm rang.
    pub fn tick(&mut self) -> Result<(Option<usize>, bool), Refusal>
        ensures does { Does T.Alarm self.old Tick (answer_for (λ p. Ticked p.0 p.1) result) self.new }
        ensures refused { OnErr result (self.new ≡ self.old) }
    {
        match self.act(Call::Tick)? {
            Answer::Ticked(who, rang) => Ok((who, rang)),
            // No other answer is a tick's: what a call does stands in `act` alone, where mode and call meet.
            _ => unreachable!(),
        }
    }

    /// The clock, the counts, and the row's open job. It alters nothing.
    pub fn report(&self, row: usize) -> Result<Status, Refusal>
        ensures { Does T.Alarm self.now (Report row) (answer_for Reported result) self.now }
    {
        self.core.status(row)
    }
}
