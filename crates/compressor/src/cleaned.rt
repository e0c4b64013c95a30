// A column as all later work sees it.
ghost use Rattle.std.specs.Prelude.{◌≡◌, ◌≤◌, length, None};
ghost use Rattle.column.specs.Columns.{cells as cells_of, cleaned, offer_refused, offer_seen, seen, words_for};
ghost use Rattle.column.specs.Kinds.{number_of};

use column::cleaned::Cleaned;
use column::kinds::Kind;
use column::views::View;

// The column with 0 under each blank, its cells in a lent place.
pub fn cleaned<'a>(view: View<'a>, cells: &'a mut [u64]) -> Cleaned<'a>
    requires taken { offer_refused (offer_seen view) ≡ None }
    requires room { length cells.old ≡ length view.cells.now }
    ensures column { seen result.view ≡ seen view.entry }
    ensures rows { length result.view.cells.now ≡ length view.entry.cells.now }
{
    view.clean(cells);
    stored(view.kind, cells, view.words)
}

// A column that no refusal turns away, whose cells have 0 under each blank.
fn stored<'a>(kind: Kind, cells: &'a [u64], words: &'a [u64]) -> Cleaned<'a>
    requires few { length cells.now ≤ 131072 }
    requires worded { length words.now ≡ words_for (length cells.now) }
    requires taken { offer_refused (record { kind = number_of kind; cells = cells.now; words = words.now }) ≡ None }
    requires blanks { cells.now ≡ cells_of (cleaned (record { kind = number_of kind; cells = cells.now; words = words.now })).rows }
    ensures column { seen result.view ≡ cleaned (record { kind = number_of kind; cells = cells.entry.now; words = words.entry.now }) }
    ensures rows { length result.view.cells.now ≡ length cells.entry.now }
{
    let view = View { kind, cells, words };
    Cleaned { view }
}
