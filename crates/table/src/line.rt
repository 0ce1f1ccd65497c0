//! The two kinds of line: the first, which has the count of rows, and a row's.
ghost use Rattle.std.specs.Prelude.{◌≡◌, ℕ, ◌+◌, ◌^◌, ◌<◌, length, MatchResult};
ghost use Rattle.table.specs.Lines.{count_line, row_line};
ghost use Rattle.table.specs.Steps.{MovesBy, Halts};
ghost use Rattle.table.specs.RowLines.{MovesOver};

use crate::cursor::Cursor;
use crate::task::Task;
use crate::token::Mark;

/// What a row's line says: its name, as the part of the text itself, and its task.
#[derive(Clone, Copy)]
pub struct Row<'a> {
    pub name: &'a [u8],
    pub task: Task,
}

// What fails answers the place alone, as the cursor's steps do.
impl<'a> Cursor<'a> {
    /// Reads the first line: `(table 3)`.
    pub(crate) fn count_line(self) -> Result<(u32, Cursor<'a>), usize>
        ensures { MatchResult result (λ v. MovesBy count_line self.entry v.0 v.1) (λ q. Halts count_line self.entry q) }
    {
        let title = self.mark(Mark::Open)?;
        let gap = title.keyword(b"table")?;
        let digits = gap.mark(Mark::Space)?;
        let (count, close) = digits.number()?;
        let end = close.mark(Mark::Close)?;
        let next = end.mark(Mark::LineEnd)?;
        Ok((count, next))
    }

    /// Reads a row's line: `(task head (run 8) (due 16) (gap 16))`.
    pub(crate) fn row_line(self) -> Result<(Row<'a>, Cursor<'a>), usize>
        ensures { MatchResult result (λ v. MovesOver self.entry v.0 v.1) (λ q. Halts row_line self.entry q) }
    {
        let title = self.mark(Mark::Open)?;
        let space = title.keyword(b"task")?;
        let letters = space.mark(Mark::Space)?;
        let (name, at_run) = letters.name()?;
        let (run, at_due) = at_run.field(b"run")?;
        let (due, at_gap) = at_due.field(b"due")?;
        let (gap, close) = at_gap.field(b"gap")?;
        let end = close.mark(Mark::Close)?;
        let next = end.mark(Mark::LineEnd)?;
        let task = Task { run, due, gap };
        Ok((Row { name, task }, next))
    }
}
