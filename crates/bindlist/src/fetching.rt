// Columns, fetched and compared.
use crate::outcomes::Bound;
use crate::shelf::Shelf;
use binder::Fetched;
use column::rows::words_for;
use std::alloc::{AllocError, Global};

// Stands in the places lent before a column is fetched.
const STALE: u64 = 0xA5A5_A5A5_A5A5_A5A5;

impl Shelf<'_> {
    // Whether a fetch gives the column that was bound: its kind, rows, cells and presence words.
    pub fn gives_back(&mut self, heap: Global, bound: &Bound) -> Result<bool, AllocError> {
        let column = &bound.column;
        let rows = column.cells.len();
        let mut cells = vec![in heap; STALE; rows]?;
        let mut words = vec![in heap; STALE; words_for(rows)]?;
        let mem = self.mem.as_mut_slice();
        let fetched = self
            .binder
            .fetch(bound.number, &self.bytes, mem, &mut cells, &mut words);
        let Ok(Fetched { kind, rows: back }) = fetched else {
            return Ok(false);
        };
        Ok(kind == column.kind && back == rows && cells == column.cells && words == column.words)
    }
}
