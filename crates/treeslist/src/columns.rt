// Columns with chosen cells under their blanks.
ghost use Rattle.column.specs.Columns.{Sound, cells as cells_of, offer_refused, offer_seen, offered};
ghost use Rattle.column.specs.Kinds.{number_of};
ghost use Rattle.column.specs.Words.{words_for};
ghost use Rattle.std.specs.Prelude.{◌≡◌, ◌≤◌, length, None};

use column::cleaned::Cleaned;
use column::kinds::Kind;
use column::views::View;
use lines::columns::LineColumn;
use std::alloc::{AllocError, Global};

#[derive(Drop)]
pub struct Column {
    pub kind: Kind,
    pub cells: Vec<u64>,
    pub words: Vec<u64>,
}

impl Column {
    // The column that was read, with `cell` under every blank.
    pub fn with_hidden(heap: Global, column: &LineColumn, cell: u64) -> Result<Column, AllocError> {
        let view = column.view();
        let cells = view
            .cells
            .iter()
            .enumerate()
            .map(|(row, here)| if view.is_present(row) { *here } else { cell })
            .collect(heap)?;
        Ok(Column {
            kind: column.kind,
            cells,
            words: column.words.clone()?,
        })
    }
}

// The column of a view that is not refused, cleaned into `out`, which has a place for each row.
pub fn clean<'a>(view: View<'a>, out: &'a mut [u64]) -> Cleaned<'a>
    requires sound { Sound view }
    requires unrefused { offer_refused (offer_seen view) ≡ None }
    requires room { length out.old ≡ length view.cells.now }
    ensures { length result.view.cells.now ≡ length view.entry.cells.now }
{
    view.clean(out);
    as_cleaned(view.kind, out, view.words)
}

// A column that is not refused and has 0 under its blanks.
fn as_cleaned<'a>(kind: Kind, cells: &'a [u64], words: &'a [u64]) -> Cleaned<'a>
    requires few { length cells.now ≤ 131072 }
    requires worded { length words.now ≡ words_for (length cells.now) }
    requires unrefused { offer_refused (record { kind = number_of kind; cells = cells.now; words = words.now }) ≡ None }
    requires zeros { cells.now ≡ cells_of (offered (record { kind = number_of kind; cells = cells.now; words = words.now })) }
    ensures { length result.view.cells.now ≡ length cells.entry.now }
{
    let view = View { kind, cells, words };
    Cleaned { view }
}
