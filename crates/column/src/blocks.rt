// A block of rows that one presence word serves.
ghost use Rattle.std.specs.Prelude.{◌≡◌, ◌-◌, ◌^◌, ◌<◌, ◌≤◌, length};
ghost use Rattle.column.specs.Kinds.{number_of};
ghost use Rattle.column.specs.Columns.{cells as cells_of, has_blank, stray_from};
ghost use Rattle.column.specs.Views.{block_rows};

use crate::kinds::Kind;
use crate::rows::is_set;

// At most 64 rows: their cells, and the word that has their presence bits. Each loop makes its own from `chunks(64)` and the words:
// no contract of a function that answers an `impl Iterator` could say which blocks come.
#[derive(Clone, Copy)]
pub struct Block<'a> {
    pub cells: &'a [u64],
    pub word: u64,
    ghost few: { length cells.now ≤ 64 },
}

impl<'a> Block<'a> {
    // Whether a row is blank.
    pub(crate) fn has_blank(&self) -> bool
        ensures { result ≡ has_blank (block_rows self.now.word self.now.cells.now) }
    {
        let ones = low_ones(self.cells.len());
        self.word & ones != ones
    }

    // The first row, the block's first being row `start`, with a value outside the kind.
    pub(crate) fn first_stray(&self, kind: Kind, start: usize) -> Option<u32>
        requires fits { start < 2 ^ 31 }
        ensures { result ≡ stray_from (number_of kind) start (block_rows self.now.word self.now.cells.now) }
    {
        if self.word == 0 {
            return None;
        }
        let low = kind.key(kind.least());
        let high = kind.key(kind.greatest());
        // Not `position`: tried, and what its closure told of each row did not close the proof.
        for (i, cell) in self.cells.iter().enumerate() {
            if is_set(self.word, i) {
                let k = kind.key(*cell);
                if k < low || high < k {
                    return Some((start + i) as u32);
                }
            }
        }
        None
    }

    // The cells, 0 under blanks.
    pub(crate) fn clean(&self, out: &mut [u64])
        requires room { length out.old ≡ length self.now.cells.now }
        ensures { out.new ≡ cells_of (block_rows self.now.word self.now.cells.now) }
    {
        match self.word {
            0 => out.fill(0),
            u64::MAX => out.copy_from_slice(self.cells),
            _ => self.clean_cells(out),
        }
    }

    fn clean_cells(&self, out: &mut [u64])
        requires room { length out.old ≡ length self.now.cells.now }
        ensures { out.new ≡ cells_of (block_rows self.now.word self.now.cells.now) }
    {
        out.copy_from_slice(self.cells);
        for (i, cell) in out.iter_mut().enumerate() {
            if !is_set(self.word, i) {
                *cell = 0;
            }
        }
    }
}

// The word whose n low bits are set.
fn low_ones(n: usize) -> u64
    requires few { n ≤ 64 }
    ensures { result ≡ 2 ^ n - 1 }
{
    if n < 64 { (1u64 << n) - 1 } else { u64::MAX }
}
