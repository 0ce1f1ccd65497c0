//! A kind of its own: a timer that counts steps of ten ticks, and begins a step when it is set.
ghost use Rattle.std.specs.Prelude.{◌≡◌, None};
ghost use Rattle.std.proofs.Common.{rules};

use alarm::base::Alarm;
use alarm::countdown::Countdown;

/// The ticks of a step.
const STEP: u32 = 10;

/// The longest wait: 25 steps.
const REACH: u32 = 250;

// Its calls are a counter's, on purpose in full: it is the example of a kind that others write, and promises less.
#[derive(Drop)]
pub struct Stepped {
    /// The ticks left.
    count: Countdown,
}

impl Stepped {
    /// A timer that is unset.
    pub fn new() -> Stepped
        ensures unset { result.count.rest ≡ None }
    {
        Stepped {
            count: Countdown::unset(),
        }
    }
}

/// It promises no more than every alarm does, so its users know its waits by the two bounds alone.
impl Alarm for Stepped {
    ghost meaning = { λ x. x.count.rest };

    ghost reach = { λ _. 250 };

    ghost grain = { λ _. 10 };

    ghost some = { λ x. x.count.some };

    ghost reaches = { Prim.search rules };

    ghost grains = { Prim.search rules };

    fn set(&mut self, n: u32) -> u32 {
        let wait = n.min(REACH) / STEP * STEP;
        self.count = Countdown::of(wait);
        wait
    }

    fn clear(&mut self) {
        self.count = Countdown::unset();
    }

    fn pass(&mut self) -> bool {
        self.count.pass()
    }

    fn left(&self) -> Option<u32> {
        self.count.left()
    }
}
