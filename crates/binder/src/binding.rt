// The calls of a binder.
ghost use Rattle.std.specs.Prelude.{◌≡◌, ◌+◌, ◌<◌, ◌≤◌, length, replicate, IfOk};
ghost use Rattle.std.specs.Result.{result_err};
ghost use Rattle.binder.specs.Binders.{opened_bytes};
ghost use Rattle.calls.specs.Calls.{bind_next, taken, Bind, Fetch, Weigh};
ghost use Rattle.calls.specs.Openings.{open_refused};
ghost use Rattle.calls.specs.Runs.{Law};
ghost use Rattle.compressor.specs.Compressed.{setting, whole_of};

use crate::places::{node_at, rows_in, whole_in};
use bank::Bank;
use calls::answers::{Fetched, Weighed};
use column::refusals::Refusal;
use column::rows::words_for;
use column::views::{MAX_ROWS, View};
use compressor::{compress, decompress, working_memory};
use node::weights::weigh;
use opening::{Opening, open};
use sample::draws::Draws;
use std::marker::PhantomData;

// A binder has at most so many columns.
pub const MAX_COLUMNS: usize = 64;

// What a fetch answers on bytes that no call of the binder wrote and where no column can be read.
const ASTRAY: Refusal = Refusal::UnknownColumn;

// A bank, a source of draws and a number of levels; how many columns there are, and how many bytes their nodes take. The bytes are lent to
// each call.
#[derive(Drop)]
pub struct Binder<'a, B: Bank, D: Draws + Drop> {
    opening: Opening<'a, B>,
    source: PhantomData<D>,
    count: usize,
    used: usize,
}

impl<'a, B: Bank, D: Draws + Drop> Binder<'a, B, D> {
    // A binder without a column; the bytes become zeros. Refused where the bank or the levels are.
    pub fn open(
        schemes: &'a B,
        levels: usize,
        bytes: &mut [u8],
    ) -> Result<Binder<'a, B, D>, Refusal>
        ensures refusal { result_err result ≡ open_refused (setting (B.Bank.meanings schemes.now) D.Draws.source levels) }
        ensures opened { IfOk result (λ b. (b.opening.bank.schemes.now ≡ schemes.now) × (b.opening.levels ≡ levels) × (b.count ≡ 0) × (b.used ≡ 0)) }
        ensures bytes { bytes.new ≡ opened_bytes (open_refused (setting (B.Bank.meanings schemes.now) D.Draws.source levels)) bytes.old }
        ensures law { IfOk result (λ b. Law (setting (B.Bank.meanings schemes.now) D.Draws.source levels) (length bytes.old)) }
    {
        let opening = open(schemes, levels)?;
        bytes.fill(0);
        Ok(Binder {
            opening,
            source: PhantomData,
            count: 0,
            used: 0,
        })
    }

    pub fn count(&self) -> usize
        ensures { result ≡ self.now.count }
    {
        self.count
    }

    // Bytes that the nodes take, from the first byte on.
    pub fn used(&self) -> usize
        ensures { result ≡ self.now.used }
    {
        self.used
    }

    // Adds a column, by its kind's number, cells and presence words, and gives its number. Cells under blanks are never looked at.
    pub fn bind(
        &mut self,
        kind: u8,
        cells: &[u64],
        words: &[u64],
        mem: &mut [u64],
        bytes: &mut [u8],
    ) -> Result<usize, Refusal>
        ensures step { Bind (setting (B.Bank.meanings self.old.opening.bank.schemes.now) D.Draws.source self.old.opening.levels) (record { count = self.old.count; used = self.old.used; bytes = bytes.old }) (record { kind = kind; cells = cells.now; words = words.now }) (length mem.old) result (record { count = self.new.count; used = self.new.used; bytes = bytes.new }) }
        ensures memory { mem.new ≡ replicate (length mem.old) 0 }
        ensures opening { self.new.opening ≡ self.old.opening }
    {
        let written = self.write_column(kind, cells, words, mem, bytes);
        mem.fill(0);
        let whole = written?;
        let number = self.count;
        self.count += 1;
        self.used += whole;
        Ok(number)
    }

    // Writes the column's node behind the others, and says how long it is.
    fn write_column(
        &self,
        kind: u8,
        cells: &[u64],
        words: &[u64],
        mem: &mut [u64],
        bytes: &mut [u8],
    ) -> Result<usize, Refusal>
        ensures answer { result ≡ whole_of (taken (setting (B.Bank.meanings self.now.opening.bank.schemes.now) D.Draws.source self.now.opening.levels) (record { count = self.now.count; used = self.now.used; bytes = bytes.old }) (record { kind = kind; cells = cells.now; words = words.now }) (length mem.old)) }
        ensures bytes { bytes.new ≡ (bind_next (record { count = self.now.count; used = self.now.used; bytes = bytes.old }) (taken (setting (B.Bank.meanings self.now.opening.bank.schemes.now) D.Draws.source self.now.opening.levels) (record { count = self.now.count; used = self.now.used; bytes = bytes.old }) (record { kind = kind; cells = cells.now; words = words.now }) (length mem.old))).bytes }
        ensures room { IfOk result (λ whole. (self.now.count < 64) × (self.now.used + whole ≤ length bytes.old)) }
    {
        let view = View::new(kind, cells, words)?;
        if mem.len() < working_memory(self.opening.levels, view.rows()) {
            return Err(Refusal::LittleMemory);
        }
        if self.count >= MAX_COLUMNS {
            return Err(Refusal::ManyColumns);
        }
        let start = self.used.min(bytes.len());
        compress::<B, D>(&self.opening, view, mem, &mut bytes[start..])
    }

    // Gives column `number` back: its cells, 0 under blanks, and its presence words, spare bits 0, at the fronts of the places.
    pub fn fetch(
        &self,
        number: usize,
        bytes: &[u8],
        mem: &mut [u64],
        cells: &mut [u64],
        words: &mut [u64],
    ) -> Result<Fetched, Refusal>
        ensures step { Fetch (setting (B.Bank.meanings self.now.opening.bank.schemes.now) D.Draws.source self.now.opening.levels) (record { count = self.now.count; used = self.now.used; bytes = bytes.now }) number (length mem.old) (record { cells = cells.old; words = words.old }) result (record { cells = cells.new; words = words.new }) }
        ensures memory { mem.new ≡ replicate (length mem.old) 0 }
    {
        let fetched = self.read_column(number, bytes, mem, cells, words);
        mem.fill(0);
        fetched
    }

    fn read_column(
        &self,
        number: usize,
        bytes: &[u8],
        mem: &mut [u64],
        cells: &mut [u64],
        words: &mut [u64],
    ) -> Result<Fetched, Refusal>
        ensures { Fetch (setting (B.Bank.meanings self.now.opening.bank.schemes.now) D.Draws.source self.now.opening.levels) (record { count = self.now.count; used = self.now.used; bytes = bytes.now }) number (length mem.old) (record { cells = cells.old; words = words.old }) result (record { cells = cells.new; words = words.new }) }
    {
        if number >= self.count {
            return Err(Refusal::UnknownColumn);
        }
        let node = node_at(bytes, number);
        let rows = match rows_in(node) {
            Some(rows) if rows <= MAX_ROWS => rows,
            _ => return Err(ASTRAY),
        };
        if rows > cells.len() || words_for(rows) > words.len() {
            return Err(Refusal::ShortBuffers);
        }
        if mem.len() < working_memory(self.opening.levels, rows) {
            return Err(Refusal::LittleMemory);
        }
        match decompress(&self.opening, node, mem, cells, words) {
            Some(read) => Ok(Fetched {
                kind: read.kind,
                rows: read.rows,
            }),
            None => Err(ASTRAY),
        }
    }

    // The weight and the whole length of column `number`.
    pub fn weigh(&self, number: usize, bytes: &[u8]) -> Result<Weighed, Refusal>
        ensures { Weigh (setting (B.Bank.meanings self.now.opening.bank.schemes.now) D.Draws.source self.now.opening.levels) (record { count = self.now.count; used = self.now.used; bytes = bytes.now }) number result }
    {
        if number >= self.count {
            return Err(Refusal::UnknownColumn);
        }
        let node = node_at(bytes, number);
        Ok(Weighed {
            weight: weigh(node, self.opening.levels as u32),
            whole: whole_in(node),
        })
    }
}
