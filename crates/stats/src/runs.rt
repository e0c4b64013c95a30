// Runs of equal values, counted by blocks of 64 rows with a presence word each.
ghost use Rattle.std.specs.Prelude.{◌≡◌, ◌+◌, ◌^◌, ◌<◌, ◌≤◌, length, if◌then◌else◌, nat_eq, slice_get};
ghost use Rattle.column.specs.Columns.{Sound, seen, values};
ghost use Rattle.column.specs.Words.{bit};
ghost use Rattle.stats.specs.Stats.{runs as run_count, quotient};
ghost use Rattle.stats.specs.Blocks.{kept_from, filled_from, state_after};

use column::blocks::Block;
use column::rows::is_set;
use column::views::View;

// A cell whose bit is set, or what came before it.
fn carried(valid: u64, i: usize, cell: u64, last: u64) -> u64
    requires bit { i < 64 }
    ensures { result ≡ (if bit valid i then cell else last) }
{
    if is_set(valid, i) { cell } else { last }
}

// Each blank, whose bit in `valid` is 0, becomes the value before it, or `prev`.
fn forward_fill(filled: &mut [u64], valid: u64, prev: u64)
    requires few { length filled.old ≤ 64 }
    ensures { filled.new ≡ filled_from valid 0 prev filled.old }
{
    let mut last = prev;
    for (i, cell) in filled.iter_mut().enumerate() {
        last = carried(valid, i, *cell, last);
        *cell = last;
    }
}

// The last value seen, and the runs so far.
#[derive(Drop)]
pub(crate) struct LoopState {
    prev: u64,
    runs: u32,
}

impl LoopState {
    // The first value starts the first run.
    fn new(head: u64) -> LoopState
        ensures prev { result.prev ≡ head }
        ensures runs { result.runs ≡ 1 }
    {
        LoopState {
            prev: head,
            runs: 1,
        }
    }

    // One more value.
    fn push(&mut self, value: u64)
        requires fits { self.old.runs + 1 < 2 ^ 32 }
        ensures runs { self.new.runs ≡ self.old.runs + (if nat_eq self.old.prev value then 0 else 1) }
        ensures prev { self.new.prev ≡ value }
    {
        if self.prev != value {
            self.prev = value;
            self.runs += 1;
        }
    }

    // One more block without blanks.
    fn inner_loop_nonnull(&mut self, values: &[u64])
        requires fits { self.old.runs + length values.now < 2 ^ 32 }
        ensures { self.new ≡ state_after self.old values.now }
    {
        for v in values {
            self.push(*v);
        }
    }

    // One more block with blanks. A copy in `work` is filled and then counted, as in the ported crate: the counting loop has no case for blanks.
    fn inner_loop_nullable(&mut self, block: Block<'_>, work: &mut [u64])
        requires room { length block.cells.now ≤ length work.old }
        requires fits { self.old.runs + length block.cells.now < 2 ^ 32 }
        ensures { self.new ≡ state_after self.old (kept_from block.entry.word 0 block.entry.cells.now) }
    {
        let filled = &mut work[0..block.cells.len()];
        filled.copy_from_slice(block.cells);
        forward_fill(filled, block.word, self.prev);
        self.inner_loop_nonnull(filled);
    }

    // One more block.
    fn inner_loop(&mut self, block: Block<'_>, work: &mut [u64])
        requires room { length block.cells.now ≤ length work.old }
        requires fits { self.old.runs + length block.cells.now < 2 ^ 32 }
        ensures { self.new ≡ state_after self.old (kept_from block.entry.word 0 block.entry.cells.now) }
    {
        match block.word {
            0 => {}
            u64::MAX => self.inner_loop_nonnull(block.cells),
            _ => self.inner_loop_nullable(block, work),
        }
    }

    // All blocks, with the last value carried on.
    fn count_runs(&mut self, view: View<'_>, work: &mut [u64])
        requires sound { Sound view }
        requires room { 64 ≤ length work.old }
        requires start { self.old.runs ≤ 1 }
        ensures { self.new ≡ state_after self.old (values (seen view.entry)) }
    {
        for (cells, word) in view.cells.chunks(64).zip(view.words) {
            let block = Block { cells, word: *word };
            self.inner_loop(block, work);
        }
    }
}

// The runs of a column's values, of which `first` starts the first.
pub(crate) fn runs_from(view: View<'_>, first: Option<u64>, work: &mut [u64]) -> u32
    requires sound { Sound view }
    requires room { 64 ≤ length work.old }
    requires first { first ≡ slice_get (values (seen view)) 0 }
    ensures { result ≡ run_count (values (seen view.entry)) }
{
    let Some(first) = first else {
        return 0;
    };
    let mut state = LoopState::new(first);
    state.count_runs(view, work);
    state.runs
}

pub(crate) fn average_run_length(count: u32, runs: u32) -> u32
    ensures { result ≡ quotient count runs }
{
    count.checked_div(runs).unwrap_or(0)
}
