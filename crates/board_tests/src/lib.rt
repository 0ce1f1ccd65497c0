//! Scenarios of the board: the example of docs/board.md, each refusal, and a board over each kind of alarm.
//!
//! `errand` is a caller of the board in another crate: what the board's builder promises of every list of calls holds of
//! the calls that it makes, by their contracts alone.
#![tactic(auto)]

ghost use Rattle.std.specs.Prelude.{◌≡◌, List, [], ◌∷◌};
ghost use Rattle.rules.specs.declared.calls.Call.TheVariants.{Release, Tick};
ghost use Rattle.rules.specs.Steps.{Entry};
ghost use Rattle.rules.specs.Logs.{calls_of};
ghost use Rattle.rules.specs.Promises.{Promise};
ghost use Rattle.board.specs.Cores.{rules_for};

use alarm::base::Alarm;
use board::board::Board;
use planner::plan::Plan;

#[cfg(test)]
mod tests;

/// A release of the row and a tick, made on a new board.
pub fn errand<T: Alarm + Drop>(plan: Plan, alarm: T, row: usize)
    ensures { (log : List Entry) × (calls_of log ≡ Release row ∷ Tick ∷ []) × Promise (rules_for plan (T.reach alarm) (T.grain alarm)) log }
{
    let mut board = Board::new(plan, alarm);
    let _ = board.release(row);
    let _ = board.tick();
}
