//! Demand points in time order, and by row at one time.
// By hand: with the order that a derive gives, which compares field by field, the walk takes twice as long.
ghost use Rattle.std.specs.Prelude.{◌≡◌, ◌+◌, ◌*◌, ◌<◌};
ghost use Rattle.std.specs.Ordering.{nat_cmp, on, then_cmp, as_partial_cmp};
ghost use Rattle.std.specs.Cmp.{partial_order_from_own_ties};
ghost use Rattle.std.specs.Cmp.Rules.{comparing};
ghost use Rattle.planner.specs.Points.{by_time};
ghost use Rattle.std.proofs.Common.{rules};

use crate::point::Point;
use std::cmp::Ordering;

/// Row numbers have 32 bits.
const ROW_RANGE: u64 = 4_294_967_296;

impl Point {
    /// Time and row as one number, which two points compare by: the walk lives on that comparison.
    fn key(&self) -> u64
        ensures value { result ≡ self.now.time * 4294967296 + self.now.row }
        ensures bound { self.now.row < 4294967296 }
    {
        u64::from(self.time) * ROW_RANGE + u64::from(self.row)
    }
}

impl Ord for Point {
    ghost cmp = { by_time };

    ghost total = { Prim.search (comparing, rules) };

    ghost matches_partial_cmp = { Prim.search (comparing, rules) };

    ghost matches_eq = { Prim.search (comparing, rules) };

    fn cmp(&self, other: &Point) -> Ordering {
        self.key().cmp(&other.key())
    }
}

impl PartialOrd for Point {
    ghost partial_cmp = { as_partial_cmp by_time };

    ghost laws = { partial_order_from_own_ties (Prim.search (comparing, rules)) (Prim.search (comparing, rules)) };

    fn partial_cmp(&self, other: &Point) -> Option<Ordering> {
        Some(self.cmp(other))
    }
}
