// Dictionary encoding of whole numbers.
ghost use Rattle.std.specs.Prelude.{◌≡◌, ◌-◌};
ghost use Rattle.column.specs.Kinds.{number_of};
ghost use Rattle.dict.specs.Dict.{dict};
ghost use Rattle.scheme.specs.Children.{narrow};
ghost use Rattle.dict.specs.DictKeeps.{dict-keeps};

use crate::codes::{decode, encode, list_distinct};
use crate::estimate::estimate;
use column::cleaned::Cleaned;
use column::kinds::Kind;
use node::leaves::read_mask;
use scheme::children::narrowest;
use scheme::ctx::CompressorContext;
use scheme::estimate::{CompressionEstimate, EstimateScore, EstimateVerdict};
use scheme::exclusion::{AncestorExclusion, DescendantExclusion};
use scheme::scheme::{ArrayAndStats, ChildShape, RowRefused, Scheme, Shape, Stored};
use stats::options::GenerateStatsOptions;
use stats::values::gather;

// For values of which few are distinct.
#[derive(Clone, Copy)]
pub struct IntDictScheme;

impl Scheme for IntDictScheme {
    ghost meaning = { λ _. dict };

    ghost keeps = { λ s. dict-keeps };

    fn id(&self) -> u8 {
        16
    }

    fn takes(&self, _kind: Kind) -> bool {
        true
    }

    fn stats_options(&self) -> GenerateStatsOptions {
        GenerateStatsOptions {
            count_distinct_values: true,
        }
    }

    // Values are child 0, codes child 1.
    fn num_children(&self) -> usize {
        2
    }

    fn descendant_exclusions(&self) -> &[DescendantExclusion<'_>] {
        &[]
    }

    fn ancestor_exclusions(&self) -> &[AncestorExclusion<'_>] {
        &[]
    }

    fn expected_compression_ratio(
        &self,
        col: ArrayAndStats<'_>,
        _ctx: &CompressorContext,
        _mem: &mut [u64],
    ) -> CompressionEstimate {
        CompressionEstimate::Verdict(estimate(col.array.kind, col.stats))
    }

    fn verdict(
        &self,
        _col: ArrayAndStats<'_>,
        _ctx: &CompressorContext,
        _mark: Option<EstimateScore>,
        _mem: &mut [u64],
    ) -> EstimateVerdict {
        EstimateVerdict::Skip
    }

    fn shape(
        &self,
        array: Cleaned<'_>,
        cells0: &mut [u64],
        words0: &mut [u64],
        cells1: &mut [u64],
        words1: &mut [u64],
        mem: &mut [u64],
    ) -> Result<Shape, RowRefused> {
        let view = array.view;
        let rows = view.rows();
        let count = list_distinct(view, cells0, mem);
        read_mask(0, &[], count, words0);
        encode(view, &cells0[0..count], mem, &mut cells1[0..rows]);
        words1[0..view.words.len()].copy_from_slice(view.words);
        Ok(Shape {
            payload: 0,
            cell_bits: 0,
            flag: 0,
            child0: ChildShape {
                kind: view.kind,
                rows: count,
            },
            child1: ChildShape {
                kind: codes_kind(count),
                rows,
            },
        })
    }

    fn payload(&self, _array: Cleaned<'_>, _mem: &mut [u64], _out: &mut [u8]) {}

    fn join(&self, stored: Stored<'_>, mem: &mut [u64], cells: &mut [u64], words: &mut [u64]) {
        let codes = stored.child1;
        if codes.rows() != stored.rows {
            words.fill(0);
            return;
        }
        let count = gather(stored.child0, mem);
        decode(codes.cells, &mem[0..count], cells);
        words.copy_from_slice(codes.words);
    }
}

// The kind of the places in a list of so many values.
fn codes_kind(count: usize) -> Kind
    ensures { number_of result ≡ narrow (count - 1) }
{
    narrowest(count.saturating_sub(1))
}
