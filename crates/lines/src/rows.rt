// Rows as they are read.
ghost use Rattle.std.specs.Prelude.{◌≡◌, ◌*◌, ◌/◌, ◌%◌, ◌^◌, ◌<◌, ◌≤◌, List, [], ◌∷◌, ◌++◌, IfOk, vec_len, OnErr, OnOk, ◌==◌};
ghost use Rattle.column.specs.Columns.{Row, bit_of, offer_of};
ghost use Rattle.column.specs.Kinds.{number_of};
ghost use Rattle.lines.specs.Held.{Gathers, held};

use crate::columns::LineColumn;
use column::kinds::Kind;
use std::alloc::{AllocError, Global};

#[derive(Drop)]
pub struct Rows {
    cells: Vec<u64>,
    // a presence word for each 64 rows
    words: Vec<u64>,
    // the presence bits of the rows after those
    word: u64,
}

// The presence bit of row `at`, where it stands in its word.
fn presence_bit(at: usize, row: Option<u64>) -> u64
    ensures { result ≡ bit_of row * 2 ^ (at % 64) }
{
    u64::from(row.is_some()) << (at % 64)
}

// Whether row `at` is the last of its word.
fn ends_word(at: usize) -> bool
    ensures { result ≡ (at % 64 == 63) }
{
    at % 64 == 63
}

impl Rows {
    pub fn new(heap: Global) -> Rows
        ensures { Gathers [] result }
    {
        Rows {
            cells: Vec::new(heap),
            words: Vec::new(heap),
            word: 0,
        }
    }

    pub fn push(&mut self, row: Option<u64>) -> Result<(), AllocError>
        ensures { (rs : List Row) → Gathers rs self.old → OnOk result (Gathers (rs ++ (row ∷ [])) self.new) }
    {
        let at = self.cells.len();
        self.word |= presence_bit(at, row);
        self.cells.push(row.unwrap_or(0))?;
        if ends_word(at) {
            self.words.push(self.word)?;
            self.word = 0;
        }
        Ok(())
    }

    // The column of these rows.
    pub fn finish(self, kind: Kind) -> Result<LineColumn, AllocError>
        requires few { vec_len self.cells ≤ 131072 }
        requires worded { vec_len self.words ≡ vec_len self.cells / 64 }
        ensures column { (rs : List Row) → Gathers rs self → IfOk result (λ l. held l ≡ offer_of (record { kind = number_of kind; rows = rs })) }
        ensures refused { OnErr result (0 < vec_len self.cells) }
    {
        let Rows {
            cells,
            mut words,
            word,
        } = self;
        if cells.len() % 64 > 0 {
            words.push(word)?;
        }
        Ok(LineColumn { kind, cells, words })
    }
}
