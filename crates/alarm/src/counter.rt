//! A counter that is exact as far as sixteen bits reach.
ghost use Rattle.std.specs.Prelude.{◌≡◌, ℕ, ◌≤◌, min, Some, None};
ghost use Rattle.alarm.specs.Meaning.{waiting, onward};
ghost use Rattle.alarm.specs.Counting.{counter_reach};
ghost use Rattle.std.proofs.Common.{rules};

use crate::base::Alarm;
use crate::countdown::Countdown;

/// The longest wait: the most that sixteen bits hold.
const REACH: u32 = 65_535;

/// Counts down each tick.
#[derive(Drop)]
pub struct Counter {
    /// The ticks left.
    count: Countdown,
    ghost fits: { (t : ℕ) → count.rest ≡ Some t → t ≤ counter_reach },
}

impl Counter {
    /// A counter that is unset.
    pub fn new() -> Counter
        ensures unset { result.count.rest ≡ None }
    {
        Counter {
            count: Countdown::unset(),
        }
    }
}

/// It waits for just what is asked, up to its reach.
impl Alarm for Counter {
    ghost meaning = { λ x. x.count.rest };

    ghost reach = { λ _. counter_reach };

    ghost grain = { λ _. 1 };

    ghost sets = { λ _ n m y. (m ≡ min n counter_reach) × (y.count.rest ≡ waiting m) };

    ghost clears = { λ _ y. y.count.rest ≡ None };

    ghost passes = { λ x y. y.count.rest ≡ onward x.count.rest };

    ghost some = { λ x. x.count.some };

    ghost reaches = { Prim.search rules };

    ghost grains = { Prim.search rules };

    fn set(&mut self, n: u32) -> u32 {
        let wait = n.min(REACH);
        self.count = Countdown::of(wait);
        wait
    }

    fn clear(&mut self) {
        self.count = Countdown::unset();
    }

    fn pass(&mut self) -> bool {
        self.count.pass()
    }

    fn left(&self) -> Option<u32> {
        self.count.left()
    }
}
