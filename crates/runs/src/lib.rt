// Runs of equal values, scheme 17: the value of each run, and where it ends.
#![tactic(auto)]

ghost use Rattle.runs.specs.Runs.{run_length};
ghost use Rattle.runs.specs.RunsKeeps.{runs-keeps};

use crate::split::split_runs;
use crate::spread::{spread, write_runs};
use column::cleaned::Cleaned;
use column::kinds::Kind;
use node::extent::Extent;
use node::leaves::read_mask;
use node::payloads::write_mask;
use scheme::children::narrowest;
use scheme::ctx::CompressorContext;
use scheme::estimate::{CompressionEstimate, DeferredEstimate, EstimateScore, EstimateVerdict};
use scheme::exclusion::{AncestorExclusion, ChildSelection, DescendantExclusion};
use scheme::scheme::{ArrayAndStats, ChildShape, RowRefused, Scheme, Shape, Stored};
use stats::options::GenerateStatsOptions;
use stats::values::gather;

pub mod facts;
mod split;
mod spread;

#[derive(Clone, Copy)]
pub struct RunsScheme;

// No dictionary below the ends.
static PUSH: [DescendantExclusion<'static>; 1] = [DescendantExclusion {
    excluded: 16,
    children: ChildSelection::One(1),
}];

impl Scheme for RunsScheme {
    ghost meaning = { λ _. run_length };

    ghost keeps = { λ s. runs-keeps };

    fn id(&self) -> u8 {
        17
    }

    fn takes(&self, _kind: Kind) -> bool {
        true
    }

    fn stats_options(&self) -> GenerateStatsOptions {
        GenerateStatsOptions {
            count_distinct_values: false,
        }
    }

    fn num_children(&self) -> usize {
        2
    }

    fn descendant_exclusions(&self) -> &[DescendantExclusion<'_>] {
        &PUSH
    }

    fn ancestor_exclusions(&self) -> &[AncestorExclusion<'_>] {
        &[]
    }

    fn expected_compression_ratio(
        &self,
        col: ArrayAndStats<'_>,
        _ctx: &CompressorContext,
        _mem: &mut [u64],
    ) -> CompressionEstimate {
        if col.stats.average_run_length() < 4 {
            CompressionEstimate::Verdict(EstimateVerdict::Skip)
        } else {
            CompressionEstimate::Deferred(DeferredEstimate::Sample)
        }
    }

    fn verdict(
        &self,
        _col: ArrayAndStats<'_>,
        _ctx: &CompressorContext,
        _mark: Option<EstimateScore>,
        _mem: &mut [u64],
    ) -> EstimateVerdict {
        EstimateVerdict::Skip
    }

    fn shape(
        &self,
        array: Cleaned<'_>,
        cells0: &mut [u64],
        words0: &mut [u64],
        cells1: &mut [u64],
        words1: &mut [u64],
        mem: &mut [u64],
    ) -> Result<Shape, RowRefused> {
        let count = gather(array.view, mem);
        let runs = split_runs(&mem[0..count], cells0, cells1);
        read_mask(0, &[], runs, words0);
        read_mask(0, &[], runs, words1);
        let extent = Extent::of(array.view);
        Ok(Shape {
            payload: extent.mask_len(),
            cell_bits: 0,
            flag: u8::from(extent.has_blank),
            child0: ChildShape {
                kind: array.view.kind,
                rows: runs,
            },
            child1: ChildShape {
                kind: narrowest(count),
                rows: runs,
            },
        })
    }

    fn payload(&self, array: Cleaned<'_>, _mem: &mut [u64], out: &mut [u8]) {
        write_mask(array, out);
    }

    fn join(&self, stored: Stored<'_>, mem: &mut [u64], cells: &mut [u64], words: &mut [u64]) {
        let rows = stored.rows;
        let (firsts, rest) = mem.split_at_mut(rows);
        let (ends, rest) = rest.split_at_mut(rows);
        let (values, _) = rest.split_at_mut(rows);
        let first_count = gather(stored.child0, firsts);
        let end_count = gather(stored.child1, ends);
        let count = write_runs(&firsts[0..first_count], &ends[0..end_count], values);
        read_mask(stored.flag, stored.payload, rows, words);
        spread(&values[0..count], words, cells);
    }
}
