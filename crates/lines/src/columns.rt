// A column that owns its cells, and why a line gives none.
ghost use Rattle.std.specs.Prelude.{◌≡◌, ◌≤◌, vec_len};
ghost use Rattle.column.specs.Columns.{words_for};
ghost use Rattle.lines.specs.declared.columns.LineError.TheVariants.{NoMemory};

use column::kinds::Kind;
use std::alloc::AllocError;

#[derive(Drop)]
pub struct LineColumn {
    pub kind: Kind,
    pub cells: Vec<u64>,
    pub words: Vec<u64>,
    ghost few: { vec_len cells ≤ 131072 },
    ghost worded: { vec_len words ≡ words_for (vec_len cells) },
}

#[derive(Clone, Copy, PartialEq, Eq)]
pub enum LineError {
    // the text is no column's line
    Unreadable,
    // more than 131,072 rows
    TooManyRows,
    NoMemory,
}

impl From<AllocError> for LineError {
    ghost from_gives = { λ _ r. r ≡ NoMemory };

    fn from(_e: AllocError) -> LineError {
        LineError::NoMemory
    }
}
