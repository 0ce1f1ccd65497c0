//! What an alarm is: four calls, none of which refuses.
//!
//! The effects that all alarms share speak of the meaning, the reach and the grain. What else a kind does, as the wait that it chooses and what
//! becomes of its hidden state, stands in its own relations `sets`, `clears` and `passes`: every kind of this crate tells its whole state by them.
ghost use Rattle.std.specs.Prelude.{◌≡◌, ℕ, ◌+◌, ◌<◌, ◌≤◌, min, Some, None, Option};
ghost use Rattle.alarm.specs.Meaning.{waiting, onward, rings};

/// An alarm is unset, or has a number of ticks left, at least 1.
pub trait Alarm {
    /// Unset, or the ticks left.
    ghost meaning: { Self → Option ℕ };

    /// The longest wait that it can be set to.
    ghost reach: { Self → ℕ };

    /// A wait falls short of what was asked, or of the reach, by less than this.
    ghost grain: { Self → ℕ };

    /// What the kind promises of a set beyond the effects that all alarms share: of the state before, the number asked, the wait answered and
    /// the state after. A kind that keeps the default may choose any wait within the two bounds.
    ghost sets: { Self → ℕ → ℕ → Self → Type 0 } = { λ _ _ _ _. Unit {0} };

    /// What the kind promises of a clear: of the state before and the state after.
    ghost clears: { Self → Self → Type 0 } = { λ _ _. Unit {0} };

    /// What the kind promises of a pass: of the state before and the state after.
    ghost passes: { Self → Self → Type 0 } = { λ _ _. Unit {0} };

    /// Sets it to a wait near `n`, whatever it was set to before, and answers the wait; a wait of 0 leaves it unset.
    // It answers a number and no `Option`, since both bounds speak of the wait, be it 0 or not.
    fn set(&mut self, n: u32) -> u32
        ensures above { result ≤ min n (reach self.old) }
        ensures near { min n (reach self.old) < result + grain self.old }
        ensures left { meaning self.new ≡ waiting result }
        ensures reach { reach self.new ≡ reach self.old }
        ensures grain { grain self.new ≡ grain self.old }
        ensures sets { sets self.old n result self.new };

    /// Makes it unset.
    fn clear(&mut self)
        ensures left { meaning self.new ≡ None }
        ensures reach { reach self.new ≡ reach self.old }
        ensures grain { grain self.new ≡ grain self.old }
        ensures clears { clears self.old self.new };

    /// Lets one tick go by, and answers whether it rings.
    fn pass(&mut self) -> bool
        ensures rings { result ≡ rings (meaning self.old) }
        ensures left { meaning self.new ≡ onward (meaning self.old) }
        ensures reach { reach self.new ≡ reach self.old }
        ensures grain { grain self.new ≡ grain self.old }
        ensures passes { passes self.old self.new };

    /// Its meaning.
    fn left(&self) -> Option<u32>
        ensures value { result ≡ meaning self.now };

    ghost some: { (x : Self) (t : ℕ) → meaning x ≡ Some t → 1 ≤ t };

    ghost reaches: { (x : Self) → 1 ≤ reach x };

    ghost grains: { (x : Self) → 1 ≤ grain x };
}
