//! The waits that the kinds choose at the figures of docs/alarms.md.
ghost use Rattle.std.specs.Prelude.{◌≡◌, ◌+◌, ◌-◌, ◌<◌, ◌≤◌, min, None, MatchResult};
ghost use Rattle.alarm.specs.Boundaries.{Nearest, divider_reach};
ghost use Rattle.alarm.specs.Counting.{counter_reach};
ghost use Rattle.alarm.specs.Warming.{warm_up_limit};
ghost use Rattle.alarm_piles.specs.Figures.{Figures};

use crate::drive::rings_at;
use alarm::base::Alarm;
use alarm::counter::Counter;
use alarm::divider::Divider;
use alarm::ramp::Ramp;
use alarm::topup::TopUp;
use refusal::cases::Refusal;
use std::io;

/// A divider that is unset, five ticks old.
pub(crate) fn at_phase_five() -> Divider
    ensures phase { result.phase ≡ 5 }
    ensures unset { result.laps.rest ≡ None }
{
    let mut divider = Divider::new();
    for _tick in 0..5_u8 {
        let _ = divider.pass();
    }
    divider
}

/// The wait that a divider chooses.
fn divider_waits(mut divider: Divider, n: u32) -> u32
    ensures { Nearest divider.phase (min n divider_reach) result }
{
    divider.set(n)
}

/// The wait of a ramp over a counter.
fn ramp_waits(warm: u32, n: u32) -> Result<u32, Refusal>
    ensures { MatchResult result (λ m. (n ≤ warm → m ≡ 0) × (warm < n → m ≡ min (n - warm) counter_reach + warm))
        (λ _. (1 ≤ warm → warm_up_limit < warm)) }
{
    let mut ramp = Ramp::new(Counter::new(), warm).map_err(|(_, refusal)| refusal)?;
    Ok(ramp.set(n))
}

/// What is left of a counter that was set to 7 and meant for a ramp of 1001, and the number of the refusal.
fn handed_back() -> (u32, u32)
    ensures { result ≡ (7, 17) }
{
    let mut counter = Counter::new();
    let _ = counter.set(7);
    let (counter, refusal) = Ramp::new(counter, 1_001).unwrap_err();
    (counter.left().unwrap(), refusal.record().number)
}

/// The figures follow from the effects that the kinds promise, whatever the code.
pub(crate) fn figures_hold()
    ensures { Figures }
{}

/// The figures, one to a line.
pub(crate) fn show_figures(rt: &impl Print) -> io::Result<()> {
    let far = divider_waits(at_phase_five(), 70);
    println!(rt; "divider at phase 5, set to 70: waits {far}")?;
    let near = divider_waits(Divider::new(), 31);
    println!(rt; "divider at phase 0, set to 31: waits {near}")?;
    for n in 10..12_u32 {
        let wait = ramp_waits(10, n).unwrap();
        println!(rt; "ramp of 10 over a counter, set to {n}: waits {wait}")?;
    }
    let at = rings_at(&mut TopUp::new(at_phase_five()), 70);
    println!(rt; "top-up over a divider at phase 5, set to 70: rings at pass {at}")?;
    let (left, number) = handed_back();
    println!(rt; "counter with {left} left comes back from a ramp of 1001: refused {number}")
}
