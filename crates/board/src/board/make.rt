//! A new board.
ghost use Rattle.std.specs.Prelude.{◌≡◌, length};
ghost use Rattle.planner.specs.Plans.{planned};
ghost use Rattle.rules.specs.Views.{fresh};
ghost use Rattle.rules.specs.Promises.{Promised};
ghost use Rattle.alarm.specs.Effects.{Cleared};
ghost use Rattle.board.specs.Cores.{rules_for};
ghost use Rattle.board.specs.Boards.{view_of, rules_of};

use crate::board::Board;
use crate::inner::Core;
use alarm::base::Alarm;
use planner::plan::Plan;

impl<T: Alarm> Board<T> {
    /// A board over a plan and an alarm, which it clears: asleep at tick 0, without jobs.
    ///
    /// Whatever calls are then made on it, in whatever order, refused ones among them, and over whatever alarm: no due
    /// tick is missed, no sleep is cut short, and no longer sleeps would do (`promise`). Each call of a board is one step
    /// of these rules, so the calls that a user makes are such a list.
    pub fn new(plan: Plan, mut alarm: T) -> Board<T>
        ensures fresh { view_of T.Alarm result ≡ fresh (length (planned plan)) }
        ensures rules { rules_of T.Alarm result ≡ rules_for plan (T.reach alarm) (T.grain alarm) }
        ensures cleared { Cleared T.Alarm alarm result.alarm }
        ensures promise { Promised (rules_of T.Alarm result) (view_of T.Alarm result) }
    {
        alarm.clear();
        Board {
            core: Core::new(plan),
            alarm,
        }
    }
}
