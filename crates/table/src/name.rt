//! A row's name, handed out as the part of the text itself.
ghost use Rattle.std.specs.Prelude.{◌≡◌, ℕ, ◌+◌, ◌<◌, ◌≤◌};
ghost use Rattle.table.specs.Names.{Names};

use crate::cursor::Cursor;
use crate::read::read;

/// The name of a row, rows counting from 0: none for a text that `read` refuses, and none for a missing row.
pub fn name_of(text: &[u8], row: usize) -> Option<&[u8]>
    ensures { Names text.now row result }
{
    let rows = read(text).ok()?.tasks().len();
    if row >= rows {
        return None;
    }
    let (_, mut at) = Cursor::new(text).count_line().ok()?;
    for _ in 0..row {
        (_, at) = at.row_line().ok()?;
    }
    let (found, _) = at.row_line().ok()?;
    Some(found.name)
}
