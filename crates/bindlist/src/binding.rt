// Lines, read and bound.
ghost use Rattle.std.specs.Prelude.{◌≡◌, Some, IfOk, string_bytes};
ghost use Rattle.banks.specs.Banks.{house};
ghost use Rattle.bindlist.specs.Printed.{four_levels, memory, line_column, column_seen, few, Stored, printed, printed_by, next, next_by};
ghost use Rattle.bindlist.specs.Shelves.{state};
ghost use Rattle.calls.specs.Calls.{taken};
ghost use Rattle.column.specs.Columns.{cleaned, offer_of};
ghost use Rattle.lines.specs.Held.{held};

use crate::outcomes::{Bound, Outcome, unread};
use crate::shelf::{BYTES, LEVELS, MAX_ROWS, Shelf};
use anyhow::bail;
use bank::Bank;
use banks::House;
use binder::Binder;
use compressor::working_memory;
use lines::columns::{LineColumn, LineError};
use lines::reads::read_line;
use listing::rows_text;
use node::slices::from;
use std::alloc::{AllocError, Global};

// Lines after so many are not bound.
const MAX_LINES: u64 = 16;

// The column, unless it has too many rows.
fn with_few_rows(column: LineColumn) -> Option<LineColumn>
    ensures column { column_seen result ≡ few (Some (cleaned (held column))) }
    ensures stored { held column ≡ offer_of (cleaned (held column)) → Stored result }
{
    if column.cells.len() > MAX_ROWS {
        return None;
    }
    Some(column)
}

// The column of line `n` that is to be bound.
fn read_bindable(heap: Global, n: u64, text: &[u8]) -> Result<Option<LineColumn>, AllocError>
    ensures column { IfOk result (λ o. column_seen o ≡ line_column n text.now) }
    ensures stored { IfOk result (λ o. Stored o) }
{
    if n > MAX_LINES {
        return Ok(None);
    }
    match read_line(heap, text) {
        Ok(column) => Ok(with_few_rows(column)),
        Err(LineError::Unreadable) => Ok(None),
        Err(LineError::TooManyRows) => Ok(None),
        Err(LineError::NoMemory) => Err(AllocError),
    }
}

impl<'a> Shelf<'a> {
    pub fn open(heap: Global, bank: &'a House) -> anyhow::Result<Shelf<'a>>
        requires { ⟦<House as Bank>⟧.meanings bank.now ≡ house }
    {
        let mut bytes = vec![in heap; 0; BYTES]?;
        let mem = vec![in heap; 0; working_memory(LEVELS, MAX_ROWS)]?;
        let Ok(binder) = Binder::open(bank, LEVELS, &mut bytes) else {
            bail!("the binder is not opened");
        };
        Ok(Shelf { binder, bytes, mem })
    }

    // Binds the column of line `n`, if it is to be bound.
    pub fn bind_line(&mut self, heap: Global, n: u64, text: &[u8]) -> Result<Outcome, AllocError>
        ensures text { IfOk result (λ o. string_bytes o.text ≡ printed (state self.old) n text.now) }
        ensures next { IfOk result (λ o. state self.new ≡ next (state self.old) n text.now) }
    {
        match read_bindable(heap, n, text)? {
            Some(column) => self.bind(heap, n, column),
            None => unread(heap, n),
        }
    }

    fn bind(&mut self, heap: Global, n: u64, column: LineColumn) -> Result<Outcome, AllocError>
        ensures text { IfOk result (λ o. string_bytes o.text ≡ printed_by (state self.old) n (Some (taken four_levels (state self.old) (held column) memory))) }
        ensures next { IfOk result (λ o. state self.new ≡ next_by (state self.old) (Some (taken four_levels (state self.old) (held column) memory))) }
    {
        let start = self.binder.used();
        let kind = u8::from(column.kind);
        let mem = self.mem.as_mut_slice();
        let bytes = self.bytes.as_mut_slice();
        let bound = self
            .binder
            .bind(kind, &column.cells, &column.words, mem, bytes);
        let Ok(number) = bound else {
            return unread(heap, n);
        };
        let text = rows_text(heap, number, from(&self.bytes, start), LEVELS as u32)?;
        Ok(Outcome {
            text,
            bound: Some(Bound { number, column }),
        })
    }
}
