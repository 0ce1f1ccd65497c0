//! The countdown that every kind keeps: what is left to count, ticks but in a divider, which counts boundaries.
ghost use Rattle.std.specs.Prelude.{◌≡◌, ℕ, ◌≤◌, Some, None};
ghost use Rattle.alarm.specs.Meaning.{waiting, onward, rings};

/// What is left to count, at least 1, or none where it is unset.
#[derive(Clone, Copy)]
pub struct Countdown {
    rest: Option<u32>,
    ghost some: { (t : ℕ) → rest ≡ Some t → 1 ≤ t },
}

impl Countdown {
    /// A countdown that is unset.
    pub fn unset() -> Countdown
        ensures { result.rest ≡ None }
    {
        Countdown { rest: None }
    }

    /// A countdown of this many; of 0 it is over at once, and unset.
    pub fn of(wait: u32) -> Countdown
        ensures { result.rest ≡ waiting wait }
    {
        Countdown {
            rest: (wait > 0).then_some(wait),
        }
    }

    /// What is left.
    pub fn left(&self) -> Option<u32>
        ensures { result ≡ self.now.rest }
    {
        self.rest
    }

    /// Counts one down, and answers whether that was the last.
    pub fn pass(&mut self) -> bool
        ensures rings { result ≡ rings self.old.rest }
        ensures left { self.new.rest ≡ onward self.old.rest }
    {
        // By the last and the others, which keeps a pass a jump and a decrement: with one way for both, a whole wait takes
        // twice as long.
        match self.left() {
            None => false,
            Some(1) => {
                *self = Countdown::unset();
                true
            }
            Some(left) => {
                *self = Countdown::of(left - 1);
                false
            }
        }
    }
}
