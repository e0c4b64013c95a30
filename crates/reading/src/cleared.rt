// Rows with 0 under blanks and spare bits 0.
ghost use Rattle.std.specs.Prelude.{◌≡◌, ◌≤◌, length};
ghost use Rattle.column.specs.Columns.{has_blank, rows_of, word_bits, words_for, cells as cells_of, presence};
ghost use Rattle.node.specs.Payloads.{words_of};
ghost use Rattle.node.specs.Reading.{held_rows};

use column::kinds::Kind;
use column::rows::is_set;
use column::views::View;
use packing::low_bits;

// Cells and presence words as those rows are stored.
pub(crate) fn clear(cells: &mut [u64], words: &mut [u64])
    requires few { length cells.old ≤ 131072 }
    requires worded { length words.old ≡ words_for (length cells.old) }
    ensures cells { cells.new ≡ cells_of (held_rows cells.old words.old) }
    ensures words { words.new ≡ presence (held_rows cells.old words.old) }
{
    // Most columns have no blank, and their words alone tell.
    if has_blank(cells, words) {
        clear_blanks(cells, words);
    }
    clear_spare(words, cells.len());
}

fn has_blank(cells: &[u64], words: &[u64]) -> bool
    requires few { length cells.now ≤ 131072 }
    requires worded { length words.now ≡ words_for (length cells.now) }
    ensures { result ≡ has_blank (held_rows cells.now words.now) }
{
    let view = View {
        kind: Kind::U64,
        cells,
        words,
    };
    view.has_blank()
}

// 0 under each blank.
fn clear_blanks(cells: &mut [u64], words: &[u64])
    requires worded { length words.now ≡ words_for (length cells.old) }
    ensures { cells.new ≡ cells_of (held_rows cells.old words.now) }
{
    for (i, cell) in cells.iter_mut().enumerate() {
        if !is_set(words[i / 64], i % 64) {
            *cell = 0;
        }
    }
}

// No bit past the last of so many rows.
fn clear_spare(words: &mut [u64], rows: usize)
    requires few { rows ≤ 131072 }
    requires worded { length words.old ≡ words_for rows }
    ensures { words.new ≡ words_of rows (word_bits rows words.old) }
{
    let rest = rows % 64;
    if rest != 0 {
        words[rows / 64] = low_bits(words[rows / 64] as u128, rest as u32);
    }
}
