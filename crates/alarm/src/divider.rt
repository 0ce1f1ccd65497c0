//! A slow timer behind a divider: it counts boundaries, each a period apart, and not ticks.
ghost use Rattle.std.specs.Prelude.{◌≡◌, ℕ, ◌+◌, ◌%◌, ◌<◌, ◌≤◌, min, Some, None};
ghost use Rattle.alarm.specs.Boundaries.{Nearest, until, period, most, divider_reach};
ghost use Rattle.std.proofs.Common.{rules};

use crate::base::Alarm;
use crate::countdown::Countdown;

/// The ticks from a boundary to the next.
const PERIOD: u32 = 32;

/// The last phase, one tick before a boundary.
const LAST_PHASE: u8 = 31;

/// As many boundaries as eight bits count.
const MOST: u32 = 255;

/// The longest wait.
const REACH: u32 = MOST * PERIOD;

/// Counts down at each boundary.
#[derive(Drop)]
pub struct Divider {
    /// The boundaries left.
    laps: Countdown,
    /// The ticks since the last boundary.
    phase: u8,
    ghost fits: { (k : ℕ) → laps.rest ≡ Some k → k ≤ most },
    ghost turning: { phase < period },
}

impl Divider {
    /// A divider that is unset, at phase 0.
    pub fn new() -> Divider
        ensures unset { result.laps.rest ≡ None }
        ensures phase { result.phase ≡ 0 }
    {
        Divider {
            laps: Countdown::unset(),
            phase: 0,
        }
    }
}

// A wait, and so a number with 0 for none, as `set` answers it.
/// The ticks from a phase to the last boundary within the next `k`, 0 if there is none.
#[tactic(auto, using(crate::proofs::Chosen::quotient_chooses))]
fn last_boundary(phase: u32, k: u32) -> u32
    requires turning { phase < period }
    requires reach { k ≤ divider_reach }
    ensures nearest { Nearest phase k result }
    ensures near { k < result + period }
{
    ((k + phase) / PERIOD * PERIOD).saturating_sub(phase)
}

/// It waits for the last boundary that is not too late.
impl Alarm for Divider {
    ghost meaning = { λ x. until x.phase x.laps.rest };

    ghost reach = { λ _. divider_reach };

    ghost grain = { λ _. period };

    ghost sets = { λ x n m y. Nearest x.phase (min n divider_reach) m × (y.phase ≡ x.phase) };

    ghost clears = { λ x y. y.phase ≡ x.phase };

    ghost passes = { λ x y. y.phase ≡ (x.phase + 1) % period };

    ghost some = { Prim.search rules };

    ghost reaches = { Prim.search rules };

    ghost grains = { Prim.search rules };

    fn set(&mut self, n: u32) -> u32 {
        let phase = u32::from(self.phase);
        let wait = last_boundary(phase, n.min(REACH));
        self.laps = Countdown::of((wait + phase) / PERIOD);
        wait
    }

    fn clear(&mut self) {
        self.laps = Countdown::unset();
    }

    fn pass(&mut self) -> bool {
        if self.phase < LAST_PHASE {
            self.phase += 1;
            return false;
        }
        self.phase = 0;
        self.laps.pass()
    }

    fn left(&self) -> Option<u32> {
        let laps = self.laps.left()?;
        Some(laps * PERIOD - u32::from(self.phase))
    }
}
