// The rows of a view, a block of 64 and its presence word at a time.
ghost use Rattle.std.specs.Prelude.{◌≡◌, ◌-◌, ◌^◌, ◌<◌, ◌≤◌, not, length, take, None, nat_lt, slice_index_or};
ghost use Rattle.packing.specs.Packing.{written};
ghost use Rattle.column.specs.Kinds.{number_of};
ghost use Rattle.column.specs.Columns.{Sound, seen, cells as cells_of, has_blank, stray_from, words_wrong, or_else};
ghost use Rattle.column.specs.Views.{is_value, block_rows, unless, Inspected, Hidden, Again};
ghost use Rattle.column.specs.Words.{bit, words_for};

use crate::blocks::Block;
use crate::kinds::Kind;
use crate::refusals::Refusal;
use crate::views::{MAX_ROWS, View};

impl<'a> View<'a> {
    // A view of a column that no refusal turns away, its kind by number, as a caller has it. Cells under blanks are never looked at.
    pub fn new(kind: u8, cells: &'a [u64], words: &'a [u64]) -> Result<View<'a>, Refusal>
        ensures inspected { Inspected (record { kind = kind; cells = cells.now; words = words.now }) result }
        ensures hidden { Hidden (record { kind = kind; cells = cells.now; words = words.now }) }
    {
        let kind = Kind::try_from(kind)?;
        check_shape(cells.len(), words)?;
        let view = View { kind, cells, words };
        // Every word is a value of a kind that is as wide.
        if kind.width() == 64 {
            return Ok(view);
        }
        match view.first_stray() {
            Some(row) => Err(Refusal::ValueOutside { row }),
            None => Ok(view),
        }
    }

    pub fn rows(&self) -> usize
        ensures { result ≡ length self.now.cells.now }
    {
        self.cells.len()
    }

    pub fn is_present(&self, row: usize) -> bool
        requires sound { Sound self.now }
        requires within { row < length self.now.cells.now }
        ensures { result ≡ is_value (slice_index_or (seen self.now).rows row None) }
    {
        let words = self.words;
        is_set(words[row / 64], row % 64)
    }

    // A block at a time; spare bits of the last word do not matter.
    pub fn has_blank(&self) -> bool
        requires sound { Sound self.now }
        ensures { result ≡ has_blank (seen self.now).rows }
    {
        // Not `any`: tried, and its closure does not know that a chunk has at most 64 cells.
        for (cells, word) in self.cells.chunks(64).zip(self.words) {
            let block = Block { cells, word: *word };
            if block.has_blank() {
                return true;
            }
        }
        false
    }

    // Each row's cell, 0 under each blank, at the front of `out`.
    pub fn clean(&self, out: &mut [u64])
        requires sound { Sound self.now }
        requires room { length self.now.cells.now ≤ length out.old }
        ensures written { out.new ≡ written (cells_of (seen self.now).rows) out.old }
        ensures again { Again self.now (take (length self.now.cells.now) out.new) }
    {
        for (b, (cells, word)) in self.cells.chunks(64).zip(self.words).enumerate() {
            let start = 64 * b;
            let block = Block { cells, word: *word };
            block.clean(&mut out[start..start + cells.len()]);
        }
    }

    // The first row with a value outside the kind.
    fn first_stray(&self) -> Option<u32>
        requires sound { Sound self.now }
        ensures { result ≡ stray_from (number_of self.now.kind) 0 (seen self.now).rows }
    {
        // Not `find_map`: as at `has_blank`.
        for (b, (cells, word)) in self.cells.chunks(64).zip(self.words).enumerate() {
            let block = Block { cells, word: *word };
            if let Some(row) = block.first_stray(self.kind, 64 * b) {
                return Some(row);
            }
        }
        None
    }
}

// Turns away so many rows, or these presence words for them.
fn check_shape(rows: usize, words: &[u64]) -> Result<(), Refusal>
    ensures { result ≡ unless (or_else (nat_lt 131072 rows) Refusal.TooManyRows (or_else (words_wrong rows words.now) Refusal.BadPresence None)) }
{
    if rows > MAX_ROWS {
        return Err(Refusal::TooManyRows);
    }
    if !words_fit(words, rows) {
        return Err(Refusal::BadPresence);
    }
    Ok(())
}

// A word for each 64 rows, and no bit set past the last row.
fn words_fit(words: &[u64], rows: usize) -> bool
    requires few { rows ≤ 131072 }
    ensures { result ≡ not (words_wrong rows words.now) }
{
    if words.len() != words_for(rows) {
        return false;
    }
    match words.get(rows / 64) {
        Some(last) => *last >> (rows % 64) == 0,
        None => true,
    }
}

// Presence words for so many rows.
pub fn words_for(rows: usize) -> usize
    ensures { result ≡ words_for rows }
{
    rows.div_ceil(64)
}

// Whether bit `i` of a word is set.
pub fn is_set(word: u64, i: usize) -> bool
    requires within { i < 64 }
    ensures { result ≡ bit word i }
{
    (word >> i) % 2 == 1
}

#[cfg(test)]
mod tests {
    use super::*;

    // The rows are the cells, whatever the presence words are.
    #[test]
    fn rows_without_words(rt: HostRuntime) {
        let view = View {
            kind: Kind::U8,
            cells: &[1, 2, 3],
            words: &[],
        };
        assert_eq!(rt; view.rows(), 3);
    }
}
