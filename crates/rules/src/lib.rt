//! The rules of the board, and what they promise.
//!
//! The board is an earliest-deadline-first scheduler that puts its work off while it sleeps. `specs/Steps.antt` says
//! what each call does, as a relation between what is seen of a board before and after it. `specs/Logs.antt` says what
//! can be told from a log of calls alone, and `specs/Promises.antt` what every log keeps: no due tick is missed, no
//! sleep is cut short, and no longer sleeps would do. The functions below carry the theorems: every run of the rules
//! keeps the promises, every call has a step, and the words of the promises speak of every job, sleep and waking.
#![tactic(auto)]

ghost use Rattle.rules.specs.Promises.{PromisesKept, GoesOn};
ghost use Rattle.rules.specs.Exact.{OpenExact, BeginsAsleep, AsleepBegins, WakesExact, AwakeBusy, SomePlan};

pub mod calls;
mod display;
pub mod slots;

/// Every log of a board whose sleeps are as planned keeps the three promises.
pub fn promises_stand() -> bool
    ensures kept { PromisesKept }
{
    true
}

/// In every view that is reached, each call has an answer by the rules.
pub fn rules_go_on() -> bool
    ensures answered { GoesOn }
{
    true
}

/// What is told from a log alone is what the board holds, so that the promises speak of all jobs, sleeps and wakings.
pub fn logs_tell() -> bool
    ensures opened { OpenExact }
    ensures rests { BeginsAsleep }
    ensures begins { AsleepBegins }
    ensures wakes { WakesExact }
    ensures works { AwakeBusy }
    ensures plan { SomePlan }
{
    true
}
