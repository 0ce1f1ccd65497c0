//! Filling a plan from a text: the reader's checks first, then the planner's.
ghost use Rattle.planner.specs.Texts.{Filled};

use crate::plan::Plan;
use refusal::cases::Refusal;
use table::read::read;

impl Plan {
    // The plan is lent and no result, so that a controller fills the one that it has.
    /// Fills the plan from a table's text, whatever it held before. A refused text leaves it empty.
    pub fn fill(&mut self, text: &[u8]) -> Result<(), Refusal>
        ensures { Filled text.now result self.new }
    {
        *self = Plan::empty();
        let table = read(text)?;
        self.fill_from(&table)
    }
}
