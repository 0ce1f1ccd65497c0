//! Reading a text: the checks of a table, asked in turn, line by line.
ghost use Rattle.std.specs.Prelude.{◌≡◌, ℕ, ◌+◌, ◌^◌, ◌<◌, ◌≤◌, length, Err, MatchResult};
ghost use Rattle.table.specs.Drafts.{drafted};
ghost use Rattle.table.specs.Limits.{most_rows};
ghost use Rattle.table.specs.Readings.{contents, reading, Takes, Reads};
ghost use Rattle.table.specs.Verdict.{taken, limited, lined};

use crate::cursor::Cursor;
use crate::rows::{MOST_ROWS, Rows, Table};
use crate::task::Task;
use arrayvec::ArrayVec;
use refusal::cases::{Position, Refusal};

/// The most bytes that a text may have.
pub const MOST_BYTES: usize = 8_192;

/// The most ticks that a gap may have.
const MOST_GAP: u32 = 100_000;

/// Whether one of the names is this one.
fn name_taken(names: &[&[u8]], name: &[u8]) -> bool
    ensures { result ≡ taken name.now (contents names.now) }
{
    // `contains` compares the names in groups, which took a seventh of the reading more.
    names.iter().any(|other| *other == name)
}

/// The checks of a row's numbers.
fn limits(task: Task, here: Position) -> Result<(), Refusal>
    ensures { result ≡ limited here task }
{
    if task.run > task.due {
        return Err(Refusal::RunAboveDue(here));
    }
    if task.due > task.gap {
        return Err(Refusal::DueAboveGap(here));
    }
    if task.gap > MOST_GAP {
        return Err(Refusal::GapLimit(here));
    }
    Ok(())
}

/// Reads the next row's line and takes its task into the draft: the row's name, and what follows the line.
fn next_row<'a>(
    at: Cursor<'a>,
    line: usize,
    names: &[&'a [u8]],
    draft: &mut Rows,
) -> Result<(&'a [u8], Cursor<'a>), Refusal>
    requires { length (drafted draft.old) < most_rows }
    ensures { MatchResult result (λ v. Takes line at.entry (contents names.now) draft.old v.0.now v.1 draft.new) (λ e. lined line at.entry.place at.entry.rest.now (reading (contents names.now) draft.old) ≡ Err e) }
{
    let (row, next) = at
        .row_line()
        .map_err(|place| Refusal::LineForm(Position { line, place }))?;
    let here = Position {
        line,
        place: at.place,
    };
    limits(row.task, here)?;
    if name_taken(names, row.name) {
        return Err(Refusal::NameTaken(here));
    }
    draft.add(row.task, here)?;
    Ok((row.name, next))
}

/// Reads a text: its table, or the first check that says no.
pub fn read(text: &[u8]) -> Result<Table, Refusal>
    ensures { Reads text.now result }
{
    if text.is_empty() || text.len() > MOST_BYTES {
        return Err(Refusal::TextLength);
    }
    let (count, first_row) = Cursor::new(text)
        .count_line()
        .map_err(|place| Refusal::LineForm(Position { line: 1, place }))?;
    // The cast widens, and usize has no From<u32>.
    let rows = count as usize;
    if rows < 1 || rows > MOST_ROWS {
        return Err(Refusal::RowCount(Position { line: 1, place: 0 }));
    }
    let mut names: ArrayVec<&[u8], MOST_ROWS> = ArrayVec::new();
    let mut draft = Rows::new();
    let mut at = first_row;
    // The row's number is no index: it tells the line.
    for row in 0..rows {
        let (name, next) = next_row(at, row + 2, &names, &mut draft)?;
        names.push(name);
        at = next;
    }
    if !at.rest.is_empty() {
        return Err(Refusal::TextAfter(Position {
            line: rows + 2,
            place: at.place,
        }));
    }
    Ok(draft.finish())
}
