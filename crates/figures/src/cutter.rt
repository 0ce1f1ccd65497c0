//! The cutter's table by the code, from its text to its board: the figures hold of what the calls leave.
ghost use Rattle.std.specs.Prelude.{◌≡◌, Some};
ghost use Rattle.planner.specs.Plans.{planned, sleeps_of};
ghost use Rattle.figures.specs.Boards.{left_on};
ghost use Rattle.figures.specs.Figures.{cutter, sleeps_of_cutter};

use alarm::counter::Counter;
use board::board::Board;
use planner::plan::Plan;

const CUTTER: &[u8] =
    b"(table 3)\n(task head (run 8) (due 16) (gap 16))\n(task lens (run 12) (due 28) (gap 28))\n(task fan (run 1) (due 56) (gap 56))\n";

/// The rows that are released.
const HEAD: usize = 0;

const FAN: usize = 2;

/// The plan of the cutter's text.
pub fn cutter_plan() -> Plan
    ensures tasks { planned result ≡ cutter }
    ensures sleeps { sleeps_of result ≡ sleeps_of_cutter }
{
    let mut plan = Plan::empty();
    plan.fill(CUTTER).unwrap();
    plan
}

/// A board over that plan and a counter, its fan released at 0.
pub fn fan_released() -> Board<Counter>
    ensures left { left_on result ≡ Some 6 }
{
    let plan = cutter_plan();
    let mut board = Board::new(plan, Counter::new());
    let _ = board.release(FAN);
    board
}

// Its first call is that of `fan_released`, whose contract tells what is left and no more.
/// Such a board with its head released a tick later.
pub fn head_released() -> Board<Counter>
    ensures left { left_on result ≡ Some 4 }
{
    let plan = cutter_plan();
    let mut board = Board::new(plan, Counter::new());
    let _ = board.release(FAN);
    let _ = board.tick();
    let _ = board.release(HEAD);
    board
}
