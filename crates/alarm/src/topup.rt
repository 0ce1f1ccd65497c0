//! An exact wait over any alarm: it sets the alarm below again and again until the wait is over.
ghost use Rattle.std.specs.Prelude.{◌≡◌, ℕ, min, None};
ghost use Rattle.alarm.specs.Meaning.{waiting, onward};
ghost use Rattle.alarm.specs.Effects.{SetTo, Cleared};
ghost use Rattle.alarm.specs.Topping.{Covers, Resumed, top_up_reach};
ghost use Rattle.std.proofs.Common.{rules};

use crate::base::Alarm;
use crate::countdown::Countdown;

/// The longest wait.
const REACH: u32 = 1_000_000;

/// Rings just when it was asked to, however coarse the alarm below is.
#[derive(Drop)]
pub struct TopUp<L> {
    below: L,
    /// The ticks left.
    count: Countdown,
}

impl<L: Alarm> TopUp<L> {
    /// A top-up that is unset, over an alarm that it clears.
    pub fn new(mut below: L) -> TopUp<L>
        ensures unset { result.count.rest ≡ None }
        ensures below { Cleared L.Alarm below result.below }
    {
        below.clear();
        TopUp {
            below,
            count: Countdown::unset(),
        }
    }
}

/// It waits for just what is asked, up to its reach; where the alarm below waits for less, the rest is asked of it anew, or counted here.
impl<L: Alarm> Alarm for TopUp<L> {
    ghost meaning = { λ x. x.count.rest };

    ghost reach = { λ _. top_up_reach };

    ghost grain = { λ _. 1 };

    ghost sets = { λ x n m y. (m ≡ min n top_up_reach) × (y.count.rest ≡ waiting m) × ((b : ℕ) × SetTo L.Alarm x.below m b y.below)
        × Covers (L.Alarm.meaning y.below) y.count.rest };

    ghost clears = { λ x y. (y.count.rest ≡ None) × Cleared L.Alarm x.below y.below };

    ghost passes = { λ x y. (y.count.rest ≡ onward x.count.rest) × Resumed L.Alarm x.below y.count.rest y.below
        × (Covers (L.Alarm.meaning x.below) x.count.rest → Covers (L.Alarm.meaning y.below) y.count.rest) };

    ghost some = { λ x. x.count.some };

    ghost reaches = { Prim.search rules };

    ghost grains = { Prim.search rules };

    fn set(&mut self, n: u32) -> u32 {
        let wait = n.min(REACH);
        let _ = self.below.set(wait);
        self.count = Countdown::of(wait);
        wait
    }

    // `clear` and `left` are as a ramp's: a trait's default method has no fields to work on.
    fn clear(&mut self) {
        self.below.clear();
        self.count = Countdown::unset();
    }

    fn pass(&mut self) -> bool {
        let rang = self.below.pass();
        let rings = self.count.pass();
        if let Some(rest) = self.left()
            && rang
        {
            let _ = self.below.set(rest);
        }
        rings
    }

    fn left(&self) -> Option<u32> {
        self.count.left()
    }
}
