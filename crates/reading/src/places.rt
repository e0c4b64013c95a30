// Rows in lent places.
ghost use Rattle.std.specs.Prelude.{◌≡◌, ◌≤◌, length};
ghost use Rattle.column.specs.Columns.{Sound, offer_seen, words_for};
ghost use Rattle.reading.specs.Places.{offer_read};

use crate::restored::Restored;
use column::kinds::Kind;
use column::rows::words_for;
use column::views::View;

impl Restored {
    // Stands where a scheme has no such child.
    pub(crate) fn nothing() -> Restored
        ensures { result.rows ≡ 0 }
    {
        Restored {
            kind: Kind::U8,
            rows: 0,
        }
    }

    // The rows at the fronts of the places.
    pub(crate) fn view<'a>(self, cells: &'a [u64], words: &'a [u64]) -> View<'a>
        requires cells { self.rows ≤ length cells.now }
        requires words { words_for self.rows ≤ length words.now }
        ensures is { offer_seen result ≡ offer_read self cells.entry.now words.entry.now }
        ensures rows { length result.cells.now ≡ self.rows }
        ensures sound { Sound result }
    {
        View {
            kind: self.kind,
            cells: &cells[..self.rows],
            words: &words[..words_for(self.rows)],
        }
    }
}
