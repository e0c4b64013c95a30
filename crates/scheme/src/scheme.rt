// A scheme: a way to store a column.
ghost use Rattle.std.specs.Prelude.{◌≡◌, ◌≤◌, true, length};
ghost use Rattle.column.specs.Columns.{Sound, CleanView, seen};
ghost use Rattle.column.specs.Kinds.{number_of};
ghost use Rattle.packing.specs.Packing.{written};
ghost use Rattle.scheme.specs.Meaning.{Meaning, Keeps};
ghost use Rattle.scheme.specs.Memory.{spare, history_of, stats_in, Measured, Room, outline, shape_seen, payload_in, parts_seen, held, Joinable};
ghost use Rattle.scheme.specs.Rules.{push_seen, pull_seen};

pub use crate::asked::ArrayAndStats;
use crate::ctx::CompressorContext;
use crate::estimate::{CompressionEstimate, EstimateScore, EstimateVerdict};
use crate::exclusion::{AncestorExclusion, DescendantExclusion};
pub use crate::stored::Stored;
use column::cleaned::Cleaned;
use column::kinds::Kind;
use stats::options::GenerateStatsOptions;

#[derive(Clone, Copy)]
pub struct ChildShape {
    pub kind: Kind,
    pub rows: usize,
}

impl ChildShape {
    // Stands where a scheme has no such child.
    pub fn none(kind: Kind) -> ChildShape
        ensures kind { result.kind ≡ kind }
        ensures rows { result.rows ≡ 0 }
    {
        ChildShape { kind, rows: 0 }
    }
}

// The parts of a column but for the payload's bytes; the children's cells and presence words lie in lent places.
// Both children stand in every shape, and `num_children` says which count: an `Option` would say that a second time.
#[derive(Clone, Copy)]
pub struct Shape {
    pub payload: usize,
    pub cell_bits: u8,
    pub flag: u8,
    pub child0: ChildShape,
    pub child1: ChildShape,
}

// The row at which a column's parts are refused.
#[derive(Clone, Copy, PartialEq, Eq)]
pub struct RowRefused {
    pub row: u32,
}

// Every answer is that of the scheme's meaning, and every meaning keeps the laws. No function has a default body: it would owe its clause for
// every meaning. What is asked about `takes` and about lent memory relates two parameters each; it is no fact of one value. Statistics and stored
// nodes are plain values, and what is asked of them stands in clauses, since a bank hands on what it is given.
pub trait Scheme {
    ghost meaning: { Self → Meaning };

    // A number and no enum: every scheme brings its own.
    fn id(&self) -> u8
        ensures { result ≡ (meaning self.now).id };

    fn takes(&self, kind: Kind) -> bool
        ensures { result ≡ (meaning self.now).takes (number_of kind) };

    fn stats_options(&self) -> GenerateStatsOptions
        ensures { result.count_distinct_values ≡ (meaning self.now).wants };

    fn num_children(&self) -> usize
        ensures { result ≡ (meaning self.now).child_count };

    // A table of rules is a `static`.
    fn descendant_exclusions(&self) -> &[DescendantExclusion<'_>]
        ensures { push_seen result.now ≡ (meaning self.now).push };

    fn ancestor_exclusions(&self) -> &[AncestorExclusion<'_>]
        ensures { pull_seen result.now ≡ (meaning self.now).pull };

    fn expected_compression_ratio(
        &self,
        col: ArrayAndStats<'_>,
        ctx: &CompressorContext,
        mem: &mut [u64],
    ) -> CompressionEstimate
        requires sound { Sound col.array }
        requires clean { CleanView col.array }
        requires measured { Measured col }
        requires room { spare (length col.array.cells.now) ≤ length mem.old }
        ensures { result ≡ (meaning self.now).answer (seen col.entry.array) (stats_in col.entry) (history_of ctx.now) ctx.now.is_sample };

    // A Callback's verdict; `mark` is the best score so far.
    fn verdict(
        &self,
        col: ArrayAndStats<'_>,
        ctx: &CompressorContext,
        mark: Option<EstimateScore>,
        mem: &mut [u64],
    ) -> EstimateVerdict
        requires sound { Sound col.array }
        requires clean { CleanView col.array }
        requires measured { Measured col }
        requires room { spare (length col.array.cells.now) ≤ length mem.old }
        ensures { result ≡ (meaning self.now).verdict (seen col.entry.array) (stats_in col.entry) (history_of ctx.now) ctx.now.is_sample mark };

    // The parts of a column: sizes as the answer, children in the lent places; or the row at which they are refused.
    // The places are four slices: a clause sees a struct of `&mut` by position alone, and one behind `&mut` would have to say that they stayed.
    fn shape(
        &self,
        array: Cleaned<'_>,
        cells0: &mut [u64],
        words0: &mut [u64],
        cells1: &mut [u64],
        words1: &mut [u64],
        mem: &mut [u64],
    ) -> Result<Shape, RowRefused>
        requires kind { (meaning self.now).takes (number_of array.view.kind) ≡ true }
        requires room { Room (length array.view.cells.now) cells0.old words0.old cells1.old words1.old mem.old }
        ensures { shape_seen (meaning self.now).child_count result cells0.new words0.new cells1.new words1.new ≡ outline ((meaning self.now).parts (seen array.entry.view)) };

    // The payload's bytes, to the front of `out`.
    fn payload(&self, array: Cleaned<'_>, mem: &mut [u64], out: &mut [u8])
        requires kind { (meaning self.now).takes (number_of array.view.kind) ≡ true }
        requires spared { spare (length array.view.cells.now) ≤ length mem.old }
        requires room { length (payload_in ((meaning self.now).parts (seen array.view))) ≤ length out.old }
        ensures { out.new ≡ written (payload_in ((meaning self.now).parts (seen array.entry.view))) out.old };

    // The column that has these parts, into `cells` and `words`; safe on any bytes.
    fn join(&self, stored: Stored<'_>, mem: &mut [u64], cells: &mut [u64], words: &mut [u64])
        requires joinable { Joinable stored mem.old cells.old words.old }
        ensures { held (number_of stored.entry.kind) cells.new words.new ≡ (meaning self.now).join (number_of stored.entry.kind) stored.entry.rows (parts_seen (meaning self.now).child_count stored.entry) };

    ghost keeps: { (s : Self) → Keeps (meaning s) };
}
