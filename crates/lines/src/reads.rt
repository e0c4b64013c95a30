// Reading a line.
ghost use Rattle.std.specs.Prelude.{◌≡◌};
ghost use Rattle.column.specs.Columns.{Column, Sound, Clean, offer_seen};
ghost use Rattle.lines.specs.Answers.{Reads, Back};
ghost use Rattle.lines.specs.Held.{held};
ghost use Rattle.lines.specs.Lines.{line_of};
ghost use Rattle.lines.specs.Worked.{Worked};

use crate::columns::{LineColumn, LineError};
use crate::fields::{count_commas, is_comma, kind_named, read_field};
use crate::rows::Rows;
use column::views::{MAX_ROWS, View};
use std::alloc::Global;

impl LineColumn {
    pub fn view(&self) -> View<'_>
        ensures same { offer_seen result ≡ held self.now }
        ensures sound { Sound result }
    {
        View {
            kind: self.kind,
            cells: self.cells.as_slice(),
            words: self.words.as_slice(),
        }
    }
}

// The column that the text is the line of. A column's own line gives that column `back`; `worked` are lines at the edges.
pub fn read_line(heap: Global, text: &[u8]) -> Result<LineColumn, LineError>
    ensures reads { Reads text.now result }
    ensures back { (c : Column) → Clean c → text.now ≡ line_of c → Back c result }
    ensures worked { Worked }
{
    if count_commas(text) > MAX_ROWS {
        return Err(LineError::TooManyRows);
    }
    let mut fields = text.split(|b| is_comma(*b));
    let Some(kind) = fields.next().and_then(kind_named) else {
        return Err(LineError::Unreadable);
    };
    let mut rows = Rows::new(heap);
    for field in fields {
        rows.push(read_field(kind, field)?)?;
    }
    Ok(rows.finish(kind)?)
}
