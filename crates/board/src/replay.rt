//! A list of calls, made on a new board.
ghost use Rattle.std.specs.Prelude.{IfOk};
ghost use Rattle.rules.specs.Promises.{Replayed};
ghost use Rattle.board.specs.Boards.{Replays};
ghost use Rattle.board.specs.Cores.{rules_for};

use crate::board::Board;
use alarm::base::Alarm;
use planner::plan::Plan;
use refusal::cases::Refusal;
use rules::calls::{Answer, Call};
use std::alloc::{AllocError, Global};

/// Makes the calls on a new board, one after the other, and says what each answered. The calls with their answers are
/// the log of a run, which keeps the promise; the waits that the alarm answered are not seen, but are those of its own
/// effects.
pub fn replay<T: Alarm + Drop>(
    heap: Global,
    plan: Plan,
    alarm: T,
    calls: &[Call],
) -> Result<Vec<Result<Answer, Refusal>>, AllocError>
    ensures promise { IfOk result (λ answers. Replayed (rules_for plan (T.reach alarm) (T.grain alarm)) calls.now answers.items) }
    ensures acts { IfOk result (λ answers. Replays T.Alarm plan alarm calls.now answers.items) }
{
    let mut board = Board::new(plan, alarm);
    let mut answers = Vec::new(heap);
    // A loop and no chain: of a closure that changes the board a proof does not know what it answered.
    for call in calls {
        answers.push(board.act(*call))?;
    }
    Ok(answers)
}
