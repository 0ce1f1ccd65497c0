//! Piles of kinds, all driven by the same code.
ghost use Rattle.std.specs.Prelude.{◌≡◌, None};

use crate::drive::{agrees, rings_at};
use crate::figures::at_phase_five;
use crate::stepped::Stepped;
use alarm::base::Alarm;
use alarm::counter::Counter;
use alarm::ramp::Ramp;
use alarm::topup::TopUp;
use std::io;

/// The warm-up of every ramp here.
const WARM_UP: u32 = 10;

/// Sets a pile to some numbers, one after another, and shows when it rings.
fn show<L: Alarm>(rt: &impl Print, name: &str, pile: &mut L) -> io::Result<()> {
    for n in [0_u32, 10, 11, 41, 70, 80, 10_000] {
        let at = rings_at(pile, n);
        let told = agrees(pile, n);
        println!(rt; "{name}, set to {n}: rings at pass {at}, agrees {told}")?;
    }
    Ok(())
}

/// A ramp over a pile; its warm-up is within the limits, so none is refused.
fn ramp_over<L: Alarm + Drop>(below: L) -> Ramp<L>
    ensures warm { result.warm ≡ 10 }
    ensures unset { result.count.rest ≡ None }
{
    Ramp::new(below, WARM_UP).unwrap()
}

/// Each pile, by its name.
pub(crate) fn show_piles(rt: &impl Print) -> io::Result<()> {
    show(rt, "ramp over divider", &mut ramp_over(at_phase_five()))?;
    show(
        rt,
        "ramp over top-up over divider",
        &mut ramp_over(TopUp::new(at_phase_five())),
    )?;
    show(rt, "top-up over divider", &mut TopUp::new(at_phase_five()))?;
    show(
        rt,
        "top-up over ramp over counter",
        &mut TopUp::new(ramp_over(Counter::new())),
    )?;
    show(
        rt,
        "ramp over a kind of its own",
        &mut ramp_over(Stepped::new()),
    )?;
    show(
        rt,
        "top-up over a kind of its own",
        &mut TopUp::new(Stepped::new()),
    )
}
