//! How a walk begins, and goes on from point to point.
ghost use Rattle.std.specs.Prelude.{◌≡◌, ℕ, ◌+◌, ◌<◌, ◌≤◌, length, take, MatchResult, slice_index_or};
ghost use Rattle.std.specs.List.{AllByRecursion};
ghost use Rattle.queue.specs.Order.{Linear};
ghost use Rattle.table.specs.Rows.{rows_of};
ghost use Rattle.table.specs.Tasks.{task_at};
ghost use Rattle.planner.specs.Demand.{need};
ghost use Rattle.planner.specs.Margins.{LeastMargin, Overdemands};
ghost use Rattle.planner.specs.Points.{sooner};
ghost use Rattle.planner.specs.Standing.{horizon};
ghost use Rattle.planner.specs.Walks.{Onward};

use crate::point::Point;
use crate::walk::Walk;
use refusal::cases::Refusal;
use table::rows::{MOST_ROWS, Table};

impl<'a> Walk<'a> {
    /// Before the first point of every row, which is at its due. Points go by a linear order.
    pub(crate) fn new(table: &'a Table) -> Walk<'a>
        ensures tasks { result.tasks.now ≡ rows_of table.now }
        ensures start { result.at ≡ 1 }
        ensures order { Linear sooner }
    {
        let tasks = table.tasks();
        let mut points = [Point::default(); MOST_ROWS];
        let mut held = 0;
        for task in tasks {
            // By `as`, since no `From` leads from usize to u32; as many points are held as rows are behind.
            let first = Point {
                time: task.due,
                row: held as u32,
            };
            held = queue::push(&mut points, held, first).unwrap();
        }
        Walk {
            tasks,
            points,
            total: 0,
            at: 1,
        }
    }

    /// The first due after where the walk stands, or `end`.
    pub(crate) fn next_due(&self, end: u32) -> u32
        requires { self.now.at < end }
        ensures bound { (self.now.at < result) × (result ≤ end) }
        ensures next { (row : ℕ) → row < length self.now.tasks.now → self.now.at < (task_at self.now.tasks.now row).due → result ≤ (task_at self.now.tasks.now row).due }
    {
        let mut next = end;
        for task in self.tasks {
            if self.at < task.due {
                next = next.min(task.due);
            }
        }
        next
    }

    /// The first of the next points.
    fn first(&self) -> Point
        ensures value { result ≡ slice_index_or self.now.points 0 result }
        ensures least { AllByRecursion (λ p. result.time ≤ p.time) (take (length self.now.tasks.now) self.now.points) }
    {
        queue::peek(&self.points, self.tasks.len()).unwrap()
    }

    /// Takes every point where the walk stands, each row's next one coming a gap later, and goes a tick on.
    fn take_all(&mut self)
        requires { self.old.at ≤ horizon }
        ensures tasks { self.new.tasks.now ≡ self.old.tasks.now }
        ensures next { self.new.at ≡ self.old.at + 1 }
        ensures value { need self.old.tasks.now self.old.at ≡ self.new.total }
    {
        let mut first = self.first();
        // As long as the queue's first is here: it counts nothing.
        while first.time == self.at {
            // By `as`, since no `From` leads from u32 to usize.
            let task = self.tasks[first.row as usize];
            let next = Point {
                time: self.at + task.gap,
                row: first.row,
            };
            queue::replace_first(&mut self.points, self.tasks.len(), next).unwrap();
            self.total += task.run;
            first = self.first();
        }
        self.at += 1;
    }

    /// Goes on to `until`, and says what the smallest margin was on the way, or refuses the first window without room.
    pub(crate) fn leg(&mut self, until: u32) -> Result<u32, Refusal>
        requires { (self.old.at < until) × (until ≤ horizon) }
        ensures { MatchResult result (λ least. Onward self.old until self.new × LeastMargin self.old.tasks.now self.old.at until least) (Overdemands self.old.tasks.now self.old.at) }
    {
        let mut least = u32::MAX;
        // From point to point, and not from tick to tick: no range has these steps.
        while self.at < until {
            let at = self.at;
            self.take_all();
            if self.total > at {
                return Err(Refusal::Overdemand { window: at });
            }
            least = least.min(at - self.total);
            self.at = self.first().time.min(until);
        }
        Ok(least)
    }
}
