//! The walk over the demand points in time order: at each, the need grows by the run of the row that it is of.
ghost use Rattle.planner.specs.Standing.{Readable, Stands};
ghost use Rattle.std.proofs.Props.{props};

use crate::point::Point;
use table::rows::MOST_ROWS;
use table::task::Task;

mod steps;

/// A walk over a table's demand points: the next one of each row, in a queue, the need before the first of them, and
/// the tick at which the walk stands, with the points before it taken and no other.
#[derive(Clone, Copy)]
pub struct Walk<'a> {
    pub tasks: &'a [Task],
    // As many as there are tasks: an array, since the queue works on a lent slice.
    points: [Point; MOST_ROWS],
    total: u32,
    pub at: u32,
    ghost readable: { Readable tasks.now },
    ghost stands: { Stands tasks.now points at total } by { Prim.hlevel props },
}
