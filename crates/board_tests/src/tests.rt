//! Each scenario makes calls on a board, and compares every answer.
use alarm::base::Alarm;
use alarm::counter::Counter;
use alarm::divider::Divider;
use alarm::ramp::Ramp;
use alarm::topup::TopUp;
use board::board::Board;
use board::replay::replay;
use planner::plan::Plan;
use refusal::cases::Refusal;
use rules::calls::{Answer, Call, Status};
use rules::slots::Job;
use std::process::Abort;
use std::test::Fail;

/// Sleeps 4, 4 and 6.
const CUTTER: &[u8] =
    b"(table 3)\n(task head (run 8) (due 16) (gap 16))\n(task lens (run 12) (due 28) (gap 28))\n(task fan (run 1) (due 56) (gap 56))\n";

/// Sleep 99.
const LAMP: &[u8] = b"(table 1)\n(task lamp (run 1) (due 100) (gap 100))\n";

/// Sleeps 2 and 2.
const PAIR: &[u8] =
    b"(table 2)\n(task left (run 2) (due 6) (gap 9))\n(task right (run 2) (due 6) (gap 9))\n";

fn plan_of(text: &[u8]) -> Result<Plan, Refusal> {
    let mut plan = Plan::empty();
    plan.fill(text)?;
    Ok(plan)
}

/// One tick, with its answer.
fn tick<T: Alarm>(
    rt: &impl Abort,
    board: &mut Board<T>,
    who: Option<usize>,
    rang: bool,
) -> Result<(), Fail> {
    assert_eq!(rt; board.tick()?, (who, rang));
    Ok(())
}

/// So many ticks in which nothing runs or rings.
fn quiet<T: Alarm>(rt: &impl Abort, board: &mut Board<T>, ticks: u32) -> Result<(), Fail> {
    for _ in 0..ticks {
        tick(rt, board, None, false)?;
    }
    Ok(())
}

#[test]
fn a_later_release_shortens_the_wait(rt: HostRuntime) -> Result<(), Fail> {
    let mut board = Board::new(plan_of(CUTTER)?, Counter::new());
    board.release(2)?;
    tick(&rt, &mut board, None, false)?;
    board.release(0)?;
    quiet(&rt, &mut board, 3)?;
    tick(&rt, &mut board, None, true)?;
    tick(&rt, &mut board, Some(0), false)
}

#[test]
fn a_later_release_never_lengthens_the_wait(rt: HostRuntime) -> Result<(), Fail> {
    let mut board = Board::new(plan_of(CUTTER)?, Counter::new());
    board.release(0)?;
    quiet(&rt, &mut board, 1)?;
    board.release(2)?;
    quiet(&rt, &mut board, 2)?;
    tick(&rt, &mut board, None, true)
}

#[test]
fn the_lower_row_runs_first_in_a_tie(rt: HostRuntime) -> Result<(), Fail> {
    let mut board = Board::new(plan_of(PAIR)?, Counter::new());
    board.release(1)?;
    board.release(0)?;
    quiet(&rt, &mut board, 1)?;
    tick(&rt, &mut board, None, true)?;
    tick(&rt, &mut board, Some(0), false)?;
    tick(&rt, &mut board, Some(0), false)?;
    tick(&rt, &mut board, Some(1), false)?;
    tick(&rt, &mut board, Some(1), false)?;
    tick(&rt, &mut board, None, false)
}

#[test]
fn a_done_closes_the_only_job_and_the_board_sleeps(rt: HostRuntime) -> Result<(), Fail> {
    let mut board = Board::new(plan_of(PAIR)?, Counter::new());
    board.release(0)?;
    assert_eq!(rt; board.done(0), Err(Refusal::NotBegun));
    quiet(&rt, &mut board, 1)?;
    tick(&rt, &mut board, None, true)?;
    tick(&rt, &mut board, Some(0), false)?;
    assert_eq!(rt;
        board.report(0)?,
        Status {
            now: 3,
            ran: 1,
            slept: 2,
            job: Some(Job { due: 6, given: 1 }),
        }
    );
    board.done(0)?;
    assert_eq!(rt;
        board.report(0)?,
        Status {
            now: 3,
            ran: 1,
            slept: 2,
            job: None,
        }
    );
    assert_eq!(rt; board.done(0), Err(Refusal::NoOpenJob));
    quiet(&rt, &mut board, 5)?;
    assert_eq!(rt; board.release(0), Err(Refusal::TooSoon));
    quiet(&rt, &mut board, 1)?;
    board.release(0)?;
    assert_eq!(rt;
        board.report(0)?,
        Status {
            now: 9,
            ran: 1,
            slept: 8,
            job: Some(Job { due: 15, given: 0 }),
        }
    );
    Ok(())
}

#[test]
fn the_empty_plan_refuses_every_row(rt: HostRuntime) -> Result<(), Fail> {
    let mut board = Board::new(Plan::empty(), Counter::new());
    assert_eq!(rt; board.release(0), Err(Refusal::NoSuchRow));
    assert_eq!(rt; board.done(0), Err(Refusal::NoSuchRow));
    quiet(&rt, &mut board, 3)?;
    assert_eq!(rt; board.report(0), Err(Refusal::NoSuchRow));
    Ok(())
}

#[test]
fn over_a_divider_a_wait_ends_at_a_boundary(rt: HostRuntime) -> Result<(), Fail> {
    let mut board = Board::new(plan_of(LAMP)?, Divider::new());
    board.release(0)?;
    quiet(&rt, &mut board, 95)?;
    tick(&rt, &mut board, None, true)?;
    tick(&rt, &mut board, Some(0), false)
}

#[test]
fn over_a_divider_a_short_sleep_wakes_at_once(rt: HostRuntime) -> Result<(), Fail> {
    let mut board = Board::new(plan_of(CUTTER)?, Divider::new());
    board.release(2)?;
    tick(&rt, &mut board, Some(2), false)?;
    tick(&rt, &mut board, None, false)
}

#[test]
fn over_a_ramp_the_warm_up_is_slept_through(rt: HostRuntime) -> Result<(), Fail> {
    let ramp = Ramp::new(Counter::new(), 10).map_err(|(_, refusal)| refusal)?;
    let mut board = Board::new(plan_of(LAMP)?, ramp);
    board.release(0)?;
    quiet(&rt, &mut board, 98)?;
    tick(&rt, &mut board, None, true)?;
    tick(&rt, &mut board, Some(0), false)?;
    assert_eq!(rt;
        board.report(0)?,
        Status {
            now: 100,
            ran: 1,
            slept: 99,
            job: None,
        }
    );
    Ok(())
}

#[test]
fn over_a_top_up_a_divider_is_exact(rt: HostRuntime) -> Result<(), Fail> {
    let mut board = Board::new(plan_of(LAMP)?, TopUp::new(Divider::new()));
    board.release(0)?;
    quiet(&rt, &mut board, 98)?;
    tick(&rt, &mut board, None, true)?;
    tick(&rt, &mut board, Some(0), false)
}

#[test]
fn a_replay_says_what_each_call_answered(rt: HostRuntime) -> Result<(), Fail> {
    let calls = [
        Call::Release(2),
        Call::Tick,
        Call::Release(2),
        Call::Release(7),
        Call::Done(1),
        Call::Report(2),
    ];
    let answers = replay(rt.alloc(), plan_of(CUTTER)?, Counter::new(), &calls)?;
    assert!(rt; answers.len() == 6);
    assert_eq!(rt; answers[0], Ok(Answer::Released));
    assert_eq!(rt; answers[1], Ok(Answer::Ticked(None, false)));
    assert_eq!(rt; answers[2], Err(Refusal::TooSoon));
    assert_eq!(rt; answers[3], Err(Refusal::NoSuchRow));
    assert_eq!(rt; answers[4], Err(Refusal::NoOpenJob));
    assert_eq!(rt;
        answers[5],
        Ok(Answer::Reported(Status {
            now: 1,
            ran: 0,
            slept: 1,
            job: Some(Job { due: 56, given: 0 }),
        }))
    );
    Ok(())
}
