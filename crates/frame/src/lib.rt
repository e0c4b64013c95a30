// Frame, scheme 18: the least value, and each value's distance from it at as few bits as do for all.
#![tactic(auto)]

ghost use Rattle.frame.specs.Frame.{frame};
ghost use Rattle.frame.specs.FrameLaws.{frame-keeps};

use crate::payloads::{payload_len, read_values, write_distances, write_payload};
use crate::reference::{Reference, bits_needed};
use crate::verdicts::unmarked;
use column::cleaned::Cleaned;
use column::kinds::Kind;
use node::extent::Extent;
use node::leaves::read_one_at_width;
use scheme::ctx::CompressorContext;
use scheme::estimate::{CompressionEstimate, DeferredEstimate, EstimateScore, EstimateVerdict};
use scheme::exclusion::{AncestorExclusion, DescendantExclusion};
use scheme::scheme::{ArrayAndStats, ChildShape, RowRefused, Scheme, Shape, Stored};
use stats::options::GenerateStatsOptions;

pub mod facts;
mod payloads;
mod reference;
mod verdicts;

#[derive(Clone, Copy)]
pub struct FrameScheme;

impl Scheme for FrameScheme {
    ghost meaning = { λ _. frame };

    ghost keeps = { λ s. frame-keeps };

    fn id(&self) -> u8 {
        18
    }

    fn takes(&self, _kind: Kind) -> bool {
        true
    }

    fn stats_options(&self) -> GenerateStatsOptions {
        GenerateStatsOptions {
            count_distinct_values: false,
        }
    }

    fn num_children(&self) -> usize {
        0
    }

    fn descendant_exclusions(&self) -> &[DescendantExclusion<'_>] {
        &[]
    }

    fn ancestor_exclusions(&self) -> &[AncestorExclusion<'_>] {
        &[]
    }

    fn expected_compression_ratio(
        &self,
        _col: ArrayAndStats<'_>,
        _ctx: &CompressorContext,
        _mem: &mut [u64],
    ) -> CompressionEstimate {
        CompressionEstimate::Deferred(DeferredEstimate::Callback)
    }

    fn verdict(
        &self,
        col: ArrayAndStats<'_>,
        _ctx: &CompressorContext,
        mark: Option<EstimateScore>,
        _mem: &mut [u64],
    ) -> EstimateVerdict {
        let kind = col.array.kind;
        let bits = bits_needed(kind, col.stats);
        unmarked(kind.width(), bits).under_mark(mark)
    }

    fn shape(
        &self,
        array: Cleaned<'_>,
        _cells0: &mut [u64],
        _words0: &mut [u64],
        _cells1: &mut [u64],
        _words1: &mut [u64],
        mem: &mut [u64],
    ) -> Result<Shape, RowRefused> {
        let reference = Reference::of(array.view, mem);
        let extent = Extent::of(array.view);
        let none = ChildShape::none(extent.kind);
        Ok(Shape {
            payload: payload_len(extent, reference),
            cell_bits: reference.bits as u8,
            flag: u8::from(extent.has_blank),
            child0: none,
            child1: none,
        })
    }

    fn payload(&self, array: Cleaned<'_>, mem: &mut [u64], out: &mut [u8]) {
        let reference = Reference::of(array.view, mem);
        let rows = array.view.rows();
        let distances = &mut mem[0..rows];
        write_distances(array, reference.least, distances);
        write_payload(array, reference, distances, out);
    }

    fn join(&self, stored: Stored<'_>, _mem: &mut [u64], cells: &mut [u64], words: &mut [u64]) {
        let least = read_one_at_width(stored.kind, stored.payload);
        read_values(stored, least, cells, words);
    }
}
