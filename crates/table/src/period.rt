//! The least common multiple of gaps.
ghost use Rattle.std.specs.Prelude.{◌≡◌, ℕ, ◌+◌, ◌*◌, ◌<◌, ◌≤◌};
ghost use Rattle.table.specs.Common.{Measure, LeastMultiple, lcm};
ghost use Rattle.table.specs.Limits.{most_gap, most_common};

/// The greatest common divisor, by Euclid.
fn gcd(a: u32, b: u32) -> u32
    requires { 1 ≤ a }
    ensures { Measure a b result }
{
    let mut high = a;
    let mut low = b;
    // Euclid's steps count nothing.
    while low != 0 {
        let rest = high % low;
        high = low;
        low = rest;
    }
    high
}

/// The least common multiple.
pub(crate) fn least_multiple(a: u32, b: u32) -> u64
    requires { (1 ≤ a) × (a ≤ most_common) × (1 ≤ b) × (b ≤ most_gap) }
    ensures value { result ≡ lcm a b }
    ensures least { LeastMultiple a b result }
{
    u64::from(a / gcd(a, b)) * u64::from(b)
}
