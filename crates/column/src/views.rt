// A column as slices lend it.
use crate::kinds::Kind;

// A row count that is handed on alone stays a number with the clause `few`: a type for it would be made at each call and taken apart at once.
pub const MAX_ROWS: usize = 131_072;

// A kind, cells and presence words, of whatever lengths: `rows` asks for nothing, and what needs a word for each 64 rows says so.
#[derive(Clone, Copy)]
pub struct View<'a> {
    pub kind: Kind,
    pub cells: &'a [u64],
    pub words: &'a [u64],
}
