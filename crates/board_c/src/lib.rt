//! The board for programs in C and Rust: a table's text and a list of calls go in, what each call answered comes out.
//!
//! Calls and answers cross as numbers: `codes` has the two codes. Nothing is kept between two calls of the library, and
//! nothing is allocated.
#![tactic(auto)]

ghost use Rattle.std.specs.Prelude.{◌≡◌, ◌≤◌, length};
ghost use mir.Syntax.{Dict};
ghost use Rattle.alarm.specs.contracts.ramp.RampAlarm.TheImpl.{ghosts as ramp_over};
ghost use Rattle.board_c.specs.Called.{Answered, Over, told, Called};

use crate::codes::decode;
use crate::record::AnswerRecord;
use alarm::base::Alarm;
use alarm::counter::Counter;
use alarm::divider::Divider;
use alarm::ramp::Ramp;
use alarm::topup::TopUp;
use board::board::Board;
use planner::plan::Plan;
use refusal::cases::Refusal;

mod codes;
pub mod record;

// Numbers and no enum, since they cross to C.
/// What is answered for an alarm that is none of the three.
const NO_SUCH_ALARM: u32 = 100;

/// What is answered where there are more calls than places for answers.
const TOO_FEW_PLACES: u32 = 101;

// Calls and answers stay two lists, as C lends them.
/// Makes the calls on a new board, and writes what each answered.
fn answer_all<T: Alarm + Drop>(plan: Plan, alarm: T, calls: &[u64], answers: &mut [AnswerRecord])
    requires { length calls.now ≤ length answers.now }
    ensures { Answered T.Alarm plan alarm calls.now answers.old answers.new }
{
    let mut board = Board::new(plan, alarm);
    // By index: of places that `iter_mut` lent to a `zip` a proof knows their number alone.
    for (i, code) in calls.iter().enumerate() {
        answers[i] = AnswerRecord::from(board.act(decode(*code)));
    }
}

/// The same over the alarm under a ramp, unless the warm-up is 0. What a ramp promises is the same however the calls of the
/// alarm below are found (`calls_found`).
fn answer_over<T: Alarm + Drop>(
    plan: Plan,
    alarm: T,
    warm: u32,
    calls: &[u64],
    answers: &mut [AnswerRecord],
) -> Result<(), Refusal>
    requires { length calls.now ≤ length answers.now }
    ensures { (calls_found : Dict) → Over T.Alarm (ramp_over T.row T.Alarm calls_found) plan alarm warm calls.now answers.old (told result) answers.new }
{
    if warm == 0 {
        answer_all(plan, alarm, calls, answers);
        return Ok(());
    }
    let ramp = Ramp::new(alarm, warm).map_err(|(_, refusal)| refusal)?;
    answer_all(plan, ramp, calls, answers);
    Ok(())
}

/// What C is told: 0, or the refusal's number.
fn number(made: Result<(), Refusal>) -> u32
    ensures { result ≡ told made }
{
    made.map_or_else(|refusal| refusal.record().number, |_| 0)
}

/// Makes the calls on a new board over a table's plan, and writes what each answered, one record a call; places past
/// them keep what they held. The alarm is 0, a counter, 1, a divider, or 2, a top-up over a divider, under a ramp of
/// `warm` ticks unless that is 0. Answers 0, or why nothing was made and written: 101 for too few places, the number of
/// the text's refusal, 100 for another alarm, or the number of the warm-up's refusal, asked in this order.
#[unsafe(no_mangle)]
pub extern "C" fn bolzighes_calls(
    text: &[u8],
    alarm: u32,
    warm: u32,
    calls: &[u64],
    answers: &mut [AnswerRecord],
) -> u32
    ensures { Called text.now alarm warm calls.now answers.old result answers.new }
{
    if answers.len() < calls.len() {
        return TOO_FEW_PLACES;
    }
    let mut plan = Plan::empty();
    // Numbers come out of each arm, since they go to C.
    match plan.fill(text) {
        // The alarm is a number, since it comes from C.
        Ok(()) => match alarm {
            0 => number(answer_over(plan, Counter::new(), warm, calls, answers)),
            1 => number(answer_over(plan, Divider::new(), warm, calls, answers)),
            2 => number(answer_over(plan, TopUp::new(Divider::new()), warm, calls, answers)),
            _ => NO_SUCH_ALARM,
        },
        Err(refusal) => number(Err(refusal)),
    }
}
