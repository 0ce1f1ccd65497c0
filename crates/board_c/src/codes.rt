//! A call from its number, and the record of an answer.
ghost use Rattle.std.specs.Prelude.{◌≡◌};
ghost use Rattle.rules.specs.declared.calls.Answer.TheVariants.{Reported};
ghost use Rattle.board_c.specs.Codes.{decoded, encoded};

use crate::record::AnswerRecord;
use refusal::cases::Refusal;
use rules::calls::{Answer, Call, Status};

// The kinds are numbers and no enums, since they cross to C.
/// How many kinds of calls there are: a call is this many times its row, and its kind.
const KINDS: u64 = 4;

/// The kinds of answers.
const RELEASED: u32 = 0;

const CLOSED: u32 = 1;

const TICKED: u32 = 2;

const REPORTED: u32 = 3;

const REFUSED: u32 = 4;

// No `From`: a number and a call are both other crates' types.
/// The call that a number stands for; the row of a tick is not looked at.
pub(crate) fn decode(code: u64) -> Call
    ensures { result ≡ decoded code }
{
    // By `as`, since no `From` leads from u64 to usize.
    let row = (code / KINDS) as usize;
    match code % KINDS {
        0 => Call::Release(row),
        1 => Call::Done(row),
        2 => Call::Tick,
        _ => Call::Report(row),
    }
}

/// The record of a report. Without an open job its fields are 0.
fn reported(status: Status) -> AnswerRecord
    ensures { result ≡ encoded (Ok (Reported status)) }
{
    let (due, given) = status.job.map_or((0, 0), |job| (job.due, job.given));
    AnswerRecord {
        kind: REPORTED,
        now: status.now,
        ran: status.ran,
        slept: status.slept,
        busy: u32::from(status.job.is_some()),
        due,
        given,
        ..AnswerRecord::default()
    }
}

/// The record of what a call answered.
impl From<Result<Answer, Refusal>> for AnswerRecord {
    ghost from_gives = { λ answer told. told ≡ encoded answer };

    fn from(answer: Result<Answer, Refusal>) -> AnswerRecord {
        let blank = AnswerRecord::default();
        match answer {
            Ok(Answer::Released) => AnswerRecord {
                kind: RELEASED,
                ..blank
            },
            Ok(Answer::Closed) => AnswerRecord {
                kind: CLOSED,
                ..blank
            },
            Ok(Answer::Ticked(None, rang)) => AnswerRecord {
                kind: TICKED,
                rang: u32::from(rang),
                ..blank
            },
            Ok(Answer::Ticked(Some(row), rang)) => AnswerRecord {
                kind: TICKED,
                // By `as`, since no `From` leads from usize to u64.
                row: row as u64,
                busy: 1,
                rang: u32::from(rang),
                ..blank
            },
            Ok(Answer::Reported(status)) => reported(status),
            Err(why) => AnswerRecord {
                kind: REFUSED,
                number: why.record().number,
                ..blank
            },
        }
    }
}
