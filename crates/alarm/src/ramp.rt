//! A warm-up over any alarm: what it wakes is ready only some ticks after the alarm below has rung.
ghost use Rattle.std.specs.Prelude.{◌≡◌, ◌+◌, ◌<◌, ◌≤◌, ◌⊎◌, None, MatchResult};
ghost use Rattle.refusal.specs.declared.cases.Refusal.TheVariants.{WarmUpLimit};
ghost use Rattle.alarm.specs.Meaning.{waiting, onward};
ghost use Rattle.alarm.specs.Effects.{Cleared, Passed};
ghost use Rattle.alarm.specs.Warming.{Level, Ramped, warm_up_limit};
ghost use Rattle.std.proofs.Common.{rules};

use crate::base::Alarm;
use crate::countdown::Countdown;
use refusal::cases::Refusal;

/// The longest warm-up; the shortest is one tick.
const WARM_UP_LIMIT: u32 = 1_000;

/// Rings a warm-up later than the alarm below.
#[derive(Drop)]
pub struct Ramp<L> {
    below: L,
    /// The warm-up.
    warm: u32,
    /// The ticks left.
    count: Countdown,
    ghost some: { 1 ≤ warm },
    ghost most: { warm ≤ warm_up_limit },
}

impl<L: Alarm> Ramp<L> {
    /// A ramp that is unset, over an alarm that it clears; a warm-up outside its limits is refused, and the alarm comes back as it was.
    pub fn new(mut below: L, warm: u32) -> Result<Ramp<L>, (L, Refusal)>
        ensures { MatchResult result
            (λ x. (1 ≤ warm) × (warm ≤ warm_up_limit) × (x.warm ≡ warm) × (x.count.rest ≡ None)
            × Cleared L.Alarm below x.below)
            (λ e. ((warm ≡ 0) ⊎ (warm_up_limit < warm)) × (e.0 ≡ below) × (e.1 ≡ WarmUpLimit)) }
    {
        if warm == 0 || warm > WARM_UP_LIMIT {
            return Err((below, Refusal::WarmUpLimit));
        }
        below.clear();
        Ok(Ramp {
            below,
            warm,
            count: Countdown::unset(),
        })
    }
}

/// It waits as the alarm below does for the number less the warm-up, and then the warm-up.
impl<L: Alarm> Alarm for Ramp<L> {
    ghost meaning = { λ x. x.count.rest };

    ghost reach = { λ x. L.Alarm.reach x.below + x.warm };

    ghost grain = { λ x. L.Alarm.grain x.below + x.warm };

    ghost sets = { λ x n m y. (y.warm ≡ x.warm) × (y.count.rest ≡ waiting m) × Ramped L.Alarm x.warm n m x.below y.below
        × Level y.warm (L.Alarm.meaning y.below) y.count.rest };

    ghost clears = { λ x y. (y.warm ≡ x.warm) × (y.count.rest ≡ None) × Cleared L.Alarm x.below y.below };

    ghost passes = { λ x y. (y.warm ≡ x.warm) × (y.count.rest ≡ onward x.count.rest) × Passed L.Alarm x.below y.below
        × (Level x.warm (L.Alarm.meaning x.below) x.count.rest → Level y.warm (L.Alarm.meaning y.below) y.count.rest) };

    ghost some = { λ x. x.count.some };

    ghost reaches = { Prim.search rules };

    ghost grains = { Prim.search rules };

    fn set(&mut self, n: u32) -> u32 {
        if n <= self.warm {
            self.clear();
            return 0;
        }
        let below = self.below.set(n - self.warm);
        let wait = if below > 0 { below + self.warm } else { 0 };
        self.count = Countdown::of(wait);
        wait
    }

    fn clear(&mut self) {
        self.below.clear();
        self.count = Countdown::unset();
    }

    fn pass(&mut self) -> bool {
        let _ = self.below.pass();
        self.count.pass()
    }

    fn left(&self) -> Option<u32> {
        self.count.left()
    }
}
