// Several schemes, called by number from 0 in bank order.
#![tactic(auto)]

pub mod small;

ghost use Rattle.std.specs.Prelude.{◌≡◌, ℕ, ◌<◌, ◌≤◌, min, true, false, List, [], ◌∷◌, length, Err};
ghost use Rattle.scheme.specs.declared.estimate.CompressionEstimate.TheVariants.{Verdict};
ghost use Rattle.scheme.specs.declared.estimate.EstimateVerdict.TheVariants.{Skip};
ghost use Rattle.column.specs.Columns.{Sound, CleanView, seen};
ghost use Rattle.column.specs.Kinds.{number_of};
ghost use Rattle.packing.specs.Packing.{written};
ghost use Rattle.scheme.specs.Banks.{AllKeep, at};
ghost use Rattle.scheme.specs.Meaning.{Meaning};
ghost use Rattle.scheme.specs.Memory.{spare, history_of, stats_in, Measured, Room, outline, shape_seen, payload_in, parts_seen, held, Joinable};
ghost use Rattle.scheme.specs.Rules.{push_seen, pull_seen};
ghost use Rattle.std.proofs.Common.{rules};

use column::cleaned::Cleaned;
use column::kinds::Kind;
use column::views::View;
use scheme::ctx::CompressorContext;
use scheme::estimate::{CompressionEstimate, EstimateScore, EstimateVerdict};
use scheme::exclusion::{AncestorExclusion, DescendantExclusion};
use scheme::scheme::{ArrayAndStats, RowRefused, Scheme, Shape, Stored};

// Every answer is that of the scheme's meaning at the number.
// A trait, and no `&[&dyn Scheme]`: a struct that keeps a `&dyn` gets no proof yet, and no function may hand one out.
// Each function asks for `within` itself: a checked number would hold its bank, and every call would ask that the two banks are one.
// What is asked about the scheme's kinds and about lent memory relates two parameters each, too. What is asked of a column, its statistics or a
// stored node stands in clauses, and not in types: an implementation has its trait's types, and `Empty` asks for nothing.
pub trait Bank {
    ghost meanings: { Self → List Meaning };

    // How many schemes there are, counted up to 9.
    fn count(&self) -> usize
        ensures { result ≡ min (length (meanings self.now)) 9 };

    fn id_at(&self, i: usize) -> u8
        requires { i < length (meanings self.now) }
        ensures { result ≡ (at (meanings self.now) i).id };

    fn takes_at(&self, i: usize, kind: Kind) -> bool
        requires { i < length (meanings self.now) }
        ensures { result ≡ (at (meanings self.now) i).takes (number_of kind) };

    fn wants_at(&self, i: usize) -> bool
        requires { i < length (meanings self.now) }
        ensures { result ≡ (at (meanings self.now) i).wants };

    fn num_children_at(&self, i: usize) -> usize
        requires { i < length (meanings self.now) }
        ensures { result ≡ (at (meanings self.now) i).child_count };

    fn descendant_exclusions_at(&self, i: usize) -> &[DescendantExclusion<'_>]
        requires { i < length (meanings self.now) }
        ensures { push_seen result.now ≡ (at (meanings self.now) i).push };

    fn ancestor_exclusions_at(&self, i: usize) -> &[AncestorExclusion<'_>]
        requires { i < length (meanings self.now) }
        ensures { pull_seen result.now ≡ (at (meanings self.now) i).pull };

    fn expected_compression_ratio_at(
        &self,
        i: usize,
        col: ArrayAndStats<'_>,
        ctx: &CompressorContext,
        mem: &mut [u64],
    ) -> CompressionEstimate
        requires within { i < length (meanings self.now) }
        requires sound { Sound col.array }
        requires clean { CleanView col.array }
        requires measured { Measured col }
        requires room { spare (length col.array.cells.now) ≤ length mem.old }
        ensures { result ≡ (at (meanings self.now) i).answer (seen col.entry.array) (stats_in col.entry) (history_of ctx.now) ctx.now.is_sample };

    fn verdict_at(
        &self,
        i: usize,
        col: ArrayAndStats<'_>,
        ctx: &CompressorContext,
        mark: Option<EstimateScore>,
        mem: &mut [u64],
    ) -> EstimateVerdict
        requires within { i < length (meanings self.now) }
        requires sound { Sound col.array }
        requires clean { CleanView col.array }
        requires measured { Measured col }
        requires room { spare (length col.array.cells.now) ≤ length mem.old }
        ensures { result ≡ (at (meanings self.now) i).verdict (seen col.entry.array) (stats_in col.entry) (history_of ctx.now) ctx.now.is_sample mark };

    fn shape_at(
        &self,
        i: usize,
        array: View<'_>,
        cells0: &mut [u64],
        words0: &mut [u64],
        cells1: &mut [u64],
        words1: &mut [u64],
        mem: &mut [u64],
    ) -> Result<Shape, RowRefused>
        requires within { i < length (meanings self.now) }
        requires sound { Sound array }
        requires clean { CleanView array }
        requires kind { (at (meanings self.now) i).takes (number_of array.kind) ≡ true }
        requires room { Room (length array.cells.now) cells0.old words0.old cells1.old words1.old mem.old }
        ensures { shape_seen (at (meanings self.now) i).child_count result cells0.new words0.new cells1.new words1.new ≡ outline ((at (meanings self.now) i).parts (seen array.entry)) };

    fn payload_at(&self, i: usize, array: View<'_>, mem: &mut [u64], out: &mut [u8])
        requires within { i < length (meanings self.now) }
        requires sound { Sound array }
        requires clean { CleanView array }
        requires kind { (at (meanings self.now) i).takes (number_of array.kind) ≡ true }
        requires spared { spare (length array.cells.now) ≤ length mem.old }
        requires room { length (payload_in ((at (meanings self.now) i).parts (seen array))) ≤ length out.old }
        ensures { out.new ≡ written (payload_in ((at (meanings self.now) i).parts (seen array.entry))) out.old };

    fn join_at(
        &self,
        i: usize,
        stored: Stored<'_>,
        mem: &mut [u64],
        cells: &mut [u64],
        words: &mut [u64],
    )
        requires within { i < length (meanings self.now) }
        requires joinable { Joinable stored mem.old cells.old words.old }
        ensures { held (number_of stored.entry.kind) cells.new words.new ≡ (at (meanings self.now) i).join (number_of stored.entry.kind) stored.entry.rows (parts_seen (at (meanings self.now) i).child_count stored.entry) };

    ghost all: { (b : Self) → AllKeep (meanings b) };
}

// No scheme: no number is below the count, and whatever number is asked for, the answer is one that takes nothing and writes nothing.
#[derive(Clone, Copy)]
pub struct Empty {}

impl Bank for Empty {
    ghost meanings = { λ _. [] };

    ghost all = { Prim.search rules };

    fn count(&self) -> usize {
        0
    }

    fn id_at(&self, _i: usize) -> u8
        ensures { result ≡ 0 }
    {
        0
    }

    fn takes_at(&self, _i: usize, _kind: Kind) -> bool
        ensures { result ≡ false }
    {
        false
    }

    fn wants_at(&self, _i: usize) -> bool
        ensures { result ≡ false }
    {
        false
    }

    fn num_children_at(&self, _i: usize) -> usize
        ensures { result ≡ 0 }
    {
        0
    }

    fn descendant_exclusions_at(&self, _i: usize) -> &[DescendantExclusion<'_>]
        ensures { push_seen result.now ≡ [] }
    {
        &[]
    }

    fn ancestor_exclusions_at(&self, _i: usize) -> &[AncestorExclusion<'_>]
        ensures { pull_seen result.now ≡ [] }
    {
        &[]
    }

    fn expected_compression_ratio_at(
        &self,
        _i: usize,
        _col: ArrayAndStats<'_>,
        _ctx: &CompressorContext,
        mem: &mut [u64],
    ) -> CompressionEstimate
        ensures answer { result ≡ Verdict Skip }
        ensures lent { mem.new ≡ mem.old }
    {
        CompressionEstimate::Verdict(EstimateVerdict::Skip)
    }

    fn verdict_at(
        &self,
        _i: usize,
        _col: ArrayAndStats<'_>,
        _ctx: &CompressorContext,
        _mark: Option<EstimateScore>,
        mem: &mut [u64],
    ) -> EstimateVerdict
        ensures answer { result ≡ Skip }
        ensures lent { mem.new ≡ mem.old }
    {
        EstimateVerdict::Skip
    }

    fn shape_at(
        &self,
        _i: usize,
        _array: View<'_>,
        cells0: &mut [u64],
        words0: &mut [u64],
        cells1: &mut [u64],
        words1: &mut [u64],
        mem: &mut [u64],
    ) -> Result<Shape, RowRefused>
        ensures answer { result ≡ Err (record { row = 0 }) }
        ensures child0 { (cells0.new ≡ cells0.old) × (words0.new ≡ words0.old) }
        ensures child1 { (cells1.new ≡ cells1.old) × (words1.new ≡ words1.old) }
        ensures lent { mem.new ≡ mem.old }
    {
        Err(RowRefused { row: 0 })
    }

    fn payload_at(&self, _i: usize, _array: View<'_>, mem: &mut [u64], out: &mut [u8])
        ensures bytes { out.new ≡ out.old }
        ensures lent { mem.new ≡ mem.old }
    {
        // No byte is written.
    }

    fn join_at(
        &self,
        _i: usize,
        _stored: Stored<'_>,
        mem: &mut [u64],
        cells: &mut [u64],
        words: &mut [u64],
    )
        ensures rows { (cells.new ≡ cells.old) × (words.new ≡ words.old) }
        ensures lent { mem.new ≡ mem.old }
    {
        // No row is written.
    }
}

// A scheme before the others.
#[derive(Drop)]
pub struct Pair<S, B> {
    pub head: S,
    pub rest: B,
}

// Each function tells head from rest itself: one helper would take a closure for each, and both closures would hold the same `mem`.
impl<S: Scheme, B: Bank> Bank for Pair<S, B> {
    ghost meanings = { λ p. S.Scheme.meaning p.head ∷ B.Bank.meanings p.rest };

    ghost all = { λ p. (S.Scheme.keeps p.head, B.Bank.all p.rest) };

    fn count(&self) -> usize {
        let n = self.rest.count();
        if n < 9 { n + 1 } else { n }
    }

    fn id_at(&self, i: usize) -> u8 {
        if i == 0 {
            self.head.id()
        } else {
            self.rest.id_at(i - 1)
        }
    }

    fn takes_at(&self, i: usize, kind: Kind) -> bool {
        if i == 0 {
            self.head.takes(kind)
        } else {
            self.rest.takes_at(i - 1, kind)
        }
    }

    fn wants_at(&self, i: usize) -> bool {
        if i == 0 {
            self.head.stats_options().count_distinct_values
        } else {
            self.rest.wants_at(i - 1)
        }
    }

    fn num_children_at(&self, i: usize) -> usize {
        if i == 0 {
            self.head.num_children()
        } else {
            self.rest.num_children_at(i - 1)
        }
    }

    fn descendant_exclusions_at(&self, i: usize) -> &[DescendantExclusion<'_>] {
        if i == 0 {
            self.head.descendant_exclusions()
        } else {
            self.rest.descendant_exclusions_at(i - 1)
        }
    }

    fn ancestor_exclusions_at(&self, i: usize) -> &[AncestorExclusion<'_>] {
        if i == 0 {
            self.head.ancestor_exclusions()
        } else {
            self.rest.ancestor_exclusions_at(i - 1)
        }
    }

    fn expected_compression_ratio_at(
        &self,
        i: usize,
        col: ArrayAndStats<'_>,
        ctx: &CompressorContext,
        mem: &mut [u64],
    ) -> CompressionEstimate {
        if i == 0 {
            self.head.expected_compression_ratio(col, ctx, mem)
        } else {
            self.rest
                .expected_compression_ratio_at(i - 1, col, ctx, mem)
        }
    }

    fn verdict_at(
        &self,
        i: usize,
        col: ArrayAndStats<'_>,
        ctx: &CompressorContext,
        mark: Option<EstimateScore>,
        mem: &mut [u64],
    ) -> EstimateVerdict {
        if i == 0 {
            self.head.verdict(col, ctx, mark, mem)
        } else {
            self.rest.verdict_at(i - 1, col, ctx, mark, mem)
        }
    }

    fn shape_at(
        &self,
        i: usize,
        array: View<'_>,
        cells0: &mut [u64],
        words0: &mut [u64],
        cells1: &mut [u64],
        words1: &mut [u64],
        mem: &mut [u64],
    ) -> Result<Shape, RowRefused> {
        if i == 0 {
            let array = Cleaned { view: array };
            self.head.shape(array, cells0, words0, cells1, words1, mem)
        } else {
            self.rest
                .shape_at(i - 1, array, cells0, words0, cells1, words1, mem)
        }
    }

    fn payload_at(&self, i: usize, array: View<'_>, mem: &mut [u64], out: &mut [u8]) {
        if i == 0 {
            self.head.payload(Cleaned { view: array }, mem, out)
        } else {
            self.rest.payload_at(i - 1, array, mem, out)
        }
    }

    fn join_at(
        &self,
        i: usize,
        stored: Stored<'_>,
        mem: &mut [u64],
        cells: &mut [u64],
        words: &mut [u64],
    ) {
        if i == 0 {
            self.head.join(stored, mem, cells, words)
        } else {
            self.rest.join_at(i - 1, stored, mem, cells, words)
        }
    }
}

#[cfg(test)]
mod tests {
    use super::*;
    use stats::integer::IntegerStats;
    use stats::options::GenerateStatsOptions;

    // A column with no presence word for its rows.
    const VIEW: View<'static> = View {
        kind: Kind::U8,
        cells: &[1, 2, 3],
        words: &[],
    };

    // Statistics of another column, and no table.
    #[test]
    fn empty_asks_for_nothing(rt: HostRuntime) {
        let other = View {
            kind: Kind::U16,
            cells: &[],
            words: &[],
        };
        let opts = GenerateStatsOptions {
            count_distinct_values: false,
        };
        let stats = IntegerStats::generate_opts(other, opts, &mut [0; 64]);
        let col = ArrayAndStats {
            array: VIEW,
            stats: &stats,
            table: &[],
        };
        let ctx = CompressorContext::new(1);
        let estimate = <Empty as Bank>::expected_compression_ratio_at(
            &Empty {},
            5,
            col,
            &ctx,
            &mut [],
        );
        let CompressionEstimate::Verdict(first) = estimate else {
            unreachable!()
        };
        assert!(rt; matches!(first, EstimateVerdict::Skip));
        let verdict = <Empty as Bank>::verdict_at(&Empty {}, 5, col, &ctx, None, &mut []);
        assert!(rt; matches!(verdict, EstimateVerdict::Skip));
    }

    // A node of more rows than a column may have.
    #[test]
    fn empty_writes_nothing(rt: HostRuntime) {
        let shape = <Empty as Bank>::shape_at(
            &Empty {},
            5,
            VIEW,
            &mut [],
            &mut [],
            &mut [],
            &mut [],
            &mut [],
        );
        assert!(rt; shape.is_err());
        let mut out = [7; 2];
        <Empty as Bank>::payload_at(&Empty {}, 5, VIEW, &mut [], &mut out);
        assert_eq!(rt; out, [7; 2]);
        let stored = Stored {
            kind: Kind::U8,
            rows: 1_000_000,
            payload: &[],
            cell_bits: 0,
            flag: 0,
            child0: VIEW,
            child1: VIEW,
        };
        let mut cells = [7; 2];
        let mut words = [7; 2];
        <Empty as Bank>::join_at(&Empty {}, 5, stored, &mut [], &mut cells, &mut words);
        assert_eq!(rt; cells, [7; 2]);
        assert_eq!(rt; words, [7; 2]);
    }
}
