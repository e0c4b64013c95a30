// Stern, scheme 19, for trials: the plain payload at a ratio of 1000. It refuses a column with the value 13.
#![tactic(auto)]

ghost use Rattle.std.specs.Prelude.{◌≡◌, ◌<◌, ◌≤◌, length, ◌==◌, position, IfSome};
ghost use Rattle.column.specs.Columns.{seen};
ghost use Rattle.column.specs.Kinds.{number_of};
ghost use Rattle.stern.specs.Stern.{stern, plain_head, thirteen_from};
ghost use Rattle.stern.specs.SternLaws.{stern-keeps};

use column::cleaned::Cleaned;
use column::kinds::Kind;
use node::extent::Extent;
use node::heads::Head;
use node::leaves::read_leaf;
use node::payloads::write_plain;
use scheme::ctx::CompressorContext;
use scheme::estimate::{CompressionEstimate, EstimateScore, EstimateVerdict, ratio};
use scheme::exclusion::{AncestorExclusion, DescendantExclusion};
use scheme::scheme::{ArrayAndStats, ChildShape, RowRefused, Scheme, Shape, Stored};
use stats::options::GenerateStatsOptions;

pub mod facts;

#[derive(Clone, Copy)]
pub struct SternScheme;

impl Scheme for SternScheme {
    ghost meaning = { λ _. stern };

    ghost keeps = { λ s. stern-keeps };

    fn id(&self) -> u8 {
        19
    }

    fn takes(&self, _kind: Kind) -> bool {
        true
    }

    fn stats_options(&self) -> GenerateStatsOptions {
        GenerateStatsOptions {
            count_distinct_values: false,
        }
    }

    fn num_children(&self) -> usize {
        0
    }

    fn descendant_exclusions(&self) -> &[DescendantExclusion<'_>] {
        &[]
    }

    fn ancestor_exclusions(&self) -> &[AncestorExclusion<'_>] {
        &[]
    }

    fn expected_compression_ratio(
        &self,
        _col: ArrayAndStats<'_>,
        _ctx: &CompressorContext,
        _mem: &mut [u64],
    ) -> CompressionEstimate {
        CompressionEstimate::Verdict(EstimateVerdict::Ratio(ratio(1000, 1)))
    }

    fn verdict(
        &self,
        _col: ArrayAndStats<'_>,
        _ctx: &CompressorContext,
        _mark: Option<EstimateScore>,
        _mem: &mut [u64],
    ) -> EstimateVerdict {
        EstimateVerdict::Skip
    }

    fn shape(
        &self,
        array: Cleaned<'_>,
        _cells0: &mut [u64],
        _words0: &mut [u64],
        _cells1: &mut [u64],
        _words1: &mut [u64],
        _mem: &mut [u64],
    ) -> Result<Shape, RowRefused> {
        if let Some(row) = first_thirteen(array) {
            return Err(RowRefused { row });
        }
        let extent = Extent::of(array.view);
        let none = ChildShape::none(extent.kind);
        Ok(Shape {
            payload: extent.plain_len(),
            cell_bits: extent.kind.width() as u8,
            flag: u8::from(extent.has_blank),
            child0: none,
            child1: none,
        })
    }

    fn payload(&self, array: Cleaned<'_>, _mem: &mut [u64], out: &mut [u8]) {
        if first_thirteen(array).is_none() {
            write_plain(array, out);
        }
    }

    fn join(&self, stored: Stored<'_>, _mem: &mut [u64], cells: &mut [u64], words: &mut [u64]) {
        let head = plain_head(stored);
        let _ = read_leaf(&head, stored.payload, cells, words);
    }
}

// The head of a plain node with these fields. Its form is the number that a plain head stores; the forms themselves are private to `node`.
fn plain_head(stored: Stored<'_>) -> Head
    requires few { stored.rows ≤ 131072 }
    ensures { result ≡ plain_head (number_of stored.entry.kind) stored.entry.cell_bits stored.entry.flag stored.entry.rows }
{
    Head {
        form: 0,
        kind: u8::from(stored.kind),
        cell_bits: stored.cell_bits,
        flag: stored.flag,
        rows: stored.rows as u32,
    }
}

// The place of the first cell that is 13.
fn place_of_thirteen(cells: &[u64]) -> Option<usize>
    ensures place { result ≡ position (λ w. w == 13) cells.now }
    ensures within { IfSome result (λ i. i < length cells.now) }
{
    cells.iter().position(|cell| *cell == 13)
}

// The first row with the value 13. No presence word is looked at: cells under blanks are 0.
fn first_thirteen(array: Cleaned<'_>) -> Option<u32>
    ensures { result ≡ thirteen_from 0 (seen array.entry.view).rows }
{
    let row = place_of_thirteen(array.view.cells)?;
    Some(row as u32)
}
