//! The planner for programs in C and Rust: two calls on a table's text, which keep nothing between them.
#![tactic(auto)]

ghost use Rattle.std.specs.Prelude.{◌≡◌, ◌+◌, ◌<◌};
ghost use Rattle.planner.specs.Texts.{answer_to};
ghost use Rattle.planner_c.specs.Calls.{checked, quoted, raised, Checks, Quotes};

use planner::plan::Plan;
use refusal::cases::Refusal;

/// What is added to a refusal's number where a sleep is asked for. Every sleep is below it.
const REFUSED: u32 = 1_000_000;

/// Checks a table's text: 0 if it is accepted, else the refusal's number.
#[unsafe(no_mangle)]
pub extern "C" fn bolzighes_check(text: &[u8]) -> u32
    ensures value { result ≡ checked (answer_to text.now) }
    ensures checks { Checks text.now result }
{
    let mut plan = Plan::empty();
    // A number, since it goes to C.
    match plan.fill(text) {
        Ok(()) => 0,
        Err(refusal) => refusal.record().number,
    }
}

/// The sleep of a row of a table's text. A text is refused before a missing row.
fn sleep_in(text: &[u8], row: usize) -> Result<u32, Refusal>
    ensures { Quotes text.now row (raised result) }
{
    let mut plan = Plan::empty();
    plan.fill(text)?;
    plan.sleep(row).ok_or(Refusal::NoSuchRow)
}

/// The sleep of a row of a table's text, or 1,000,000 plus the refusal's number: that of the text if it is refused,
/// else that of a missing row.
#[unsafe(no_mangle)]
pub extern "C" fn bolzighes_sleep(text: &[u8], row: u64) -> u32
    ensures value { result ≡ quoted (answer_to text.now) row }
    ensures quotes { Quotes text.now row result }
{
    // By `as`, since no `From` leads from u64 to usize; one number answers both, since it goes to C.
    sleep_in(text, row as usize).unwrap_or_else(|refusal| REFUSED + refusal.record().number)
}
