// Runs written out again.
ghost use Rattle.std.specs.Prelude.{◌≡◌, ◌-◌, ◌≤◌, length, take};
ghost use Rattle.column.specs.Columns.{filled, has_blank, rows_of, word_bits, words_for};
ghost use Rattle.runs.specs.Runs.{unrun};

use column::kinds::Kind;
use column::rows::is_set;
use column::views::View;

// The values of runs to the front of `out`, as many as it holds; how many they are.
pub fn write_runs(firsts: &[u64], ends: &[u64], out: &mut [u64]) -> usize
    ensures front { take result out.new ≡ take (length out.old) (unrun 0 firsts.now ends.now) }
    ensures few { result ≤ length out.old }
{
    let mut before = 0;
    // The place of the next value, and at last the answer.
    let mut count = 0;
    for (first, end) in firsts.iter().zip(ends) {
        let full = count + run_len(before, *end).min(out.len() - count);
        out[count..full].fill(*first);
        before = *end;
        count = full;
    }
    count
}

// How many values a run has after the end before it: none where it ends no later.
fn run_len(before: u64, end: u64) -> usize
    ensures { result ≡ end - before }
{
    end.saturating_sub(before) as usize
}

// A value for each row whose bit is set, in order; 0 where they run out.
pub fn spread(values: &[u64], words: &[u64], cells: &mut [u64])
    requires few { length cells.old ≤ 131072 }
    requires words { length words.now ≡ words_for (length cells.old) }
    ensures { rows_of (word_bits (length cells.old) words.now) cells.new ≡ filled (word_bits (length cells.old) words.now) values.now }
{
    if values.len() == cells.len() && !has_blank(cells, words) {
        cells.copy_from_slice(values);
    } else {
        spread_by_rows(values, words, cells);
    }
}

fn has_blank(cells: &[u64], words: &[u64]) -> bool
    requires few { length cells.now ≤ 131072 }
    requires worded { length words.now ≡ words_for (length cells.now) }
    ensures { result ≡ has_blank (rows_of (word_bits (length cells.now) words.now) cells.now) }
{
    let view = View {
        kind: Kind::U64,
        cells,
        words,
    };
    view.has_blank()
}

fn spread_by_rows(values: &[u64], words: &[u64], cells: &mut [u64])
    requires words { length words.now ≡ words_for (length cells.old) }
    ensures { rows_of (word_bits (length cells.old) words.now) cells.new ≡ filled (word_bits (length cells.old) words.now) values.now }
{
    let mut rest = values.iter();
    // By place: no proof knows what is written through `chunks_mut`, so a word's 64 cells cannot go with it.
    for (i, cell) in cells.iter_mut().enumerate() {
        if is_set(words[i / 64], i % 64) {
            *cell = rest.next().copied().unwrap_or(0);
        }
    }
}
