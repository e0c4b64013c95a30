// The sample of a column.
ghost use Rattle.std.specs.Prelude.{◌≡◌, ◌+◌, ◌*◌, ◌/◌, ◌%◌, ◌^◌, ◌<◌, ◌≤◌, length, take, drop};
ghost use Rattle.column.specs.Columns.{cells as cells_of, presence, seen, words_for};
ghost use Rattle.packing.specs.Packing.{joined, written, written_at};
ghost use Rattle.sample.specs.Samples.{drawn_rows, sample_count, sample_rows};
ghost use Rattle.sample.specs.Laws.{Sampled};

use crate::draws::Draws;
use crate::strata::{SAMPLE_SIZE, sample_count, stratum};
use column::cleaned::Cleaned;

const SAMPLE_SEED: u64 = 1234567890;

// Writes the sample of a cleaned column, its cells and its presence words, and answers its rows; `None`, and nothing is written, where
// the column is its own sample. Cells and words are two parameters: in a clause, what a struct of two `&mut` holds after the call is
// named by place alone.
pub fn sample<D: Draws + Drop>(
    array: Cleaned<'_>,
    cells: &mut [u64],
    words: &mut [u64],
) -> Option<usize>
    requires cells_room { length array.view.cells.now ≤ length cells.old }
    requires words_room { words_for (length array.view.cells.now) ≤ length words.old }
    ensures rows { result ≡ drawn_rows (length array.entry.view.cells.now) }
    ensures sampled { Sampled D.Draws.source (seen array.entry.view) cells.old words.old cells.new words.new result }
{
    let rows = array.view.cells.len();
    let count = sample_count(rows);
    if rows <= SAMPLE_SIZE * count {
        return None;
    }
    draw_rows::<D>(array, cells, &mut words[..count]);
    Some(SAMPLE_SIZE * count)
}

// Writes 64 rows of each stratum: their cells and one presence word.
fn draw_rows<D: Draws + Drop>(array: Cleaned<'_>, cells: &mut [u64], words: &mut [u64])
    requires counted { length words.old ≡ sample_count (length array.view.cells.now) }
    requires large { 64 * length words.old < length array.view.cells.now }
    requires cells_room { 64 * length words.old ≤ length cells.old }
    ensures cells { cells.new ≡ written (cells_of (sample_rows D.Draws.source (seen array.entry.view).rows)) cells.old }
    ensures words { words.new ≡ written (presence (sample_rows D.Draws.source (seen array.entry.view).rows)) words.old }
{
    let rows = array.view.cells.len();
    let count = words.len();
    let mut source = D::begin(SAMPLE_SEED);
    for (i, word) in words.iter_mut().enumerate() {
        let (start, stop) = stratum(rows, count, i);
        let from = source.draw(start as u64, (stop - SAMPLE_SIZE) as u64) as usize;
        // Not `chunks_exact_mut` beside the words: a proof would know the chunks' lengths alone, and not what was written.
        put_cells(array.view.cells, from, cells, SAMPLE_SIZE * i);
        *word = word_from(array.view.words, from);
    }
}

// Copies 64 cells, those from row `from` on, to place `at` on.
fn put_cells(cells: &[u64], from: usize, out: &mut [u64], at: usize)
    requires within { from + 64 ≤ length cells.now }
    requires room { at + 64 ≤ length out.old }
    ensures { out.new ≡ written_at at (take 64 (drop from cells.now)) out.old }
{
    out[at..at + SAMPLE_SIZE].copy_from_slice(&cells[from..from + SAMPLE_SIZE]);
}

// The 64 presence bits from row `from` on.
#[tactic(auto, using(crate::proofs::Joins::word_whole, crate::proofs::Joins::word_two, crate::proofs::Joins::word_fits))]
fn word_from(words: &[u64], from: usize) -> u64
    requires within { from + 64 ≤ 64 * length words.now }
    ensures { result ≡ joined (2 ^ 64) words.now / 2 ^ from % 2 ^ 64 }
{
    let at = from / 64;
    let bit = from % 64;
    if bit == 0 {
        return words[at];
    }
    (words[at] >> bit) + (words[at + 1] << (64 - bit))
}
