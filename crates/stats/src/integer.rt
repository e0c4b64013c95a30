// The statistics of a column of whole numbers.
ghost use Rattle.std.specs.Prelude.{◌≡◌, ℕ, ◌+◌, ◌*◌, ◌%◌, ◌^◌, ◌<◌, ◌≤◌, List, [], length, drop};
ghost use Rattle.column.specs.Kinds.{width as width_of, number_of};
ghost use Rattle.column.specs.Columns.{Offer, Sound, Clean, values, cleaned, offer_seen, seen};
ghost use Rattle.stats.specs.Stats.{stats, distinct_count, distinct_values, distinct_counts, most_frequent, max_minus_min, min_is_zero, min_is_negative, max_ilog2, empty_stats, blank_stats};
ghost use Rattle.stats.specs.Seen.{stats_seen, pairs, most as most_of, Holds, or_zero, count_or_zero};
ghost use Rattle.column.specs.Views.{Alike};
ghost use Rattle.stats.specs.Laws.{Right, Log2};

use crate::distinct::distinct_part;
use crate::options::GenerateStatsOptions;
use crate::runs::{average_run_length, runs_from};
use crate::values::{gather, greatest_of, least_of};
use column::kinds::Kind;
use column::views::View;
use packing::low_bits;

// The distinct values, whose table lies in lent memory; the commonest is a cell.
#[derive(Clone, Copy)]
pub struct DistinctInfo {
    pub(crate) distinct_count: u32,
    pub(crate) most_frequent_value: u64,
    pub(crate) top_frequency: u32,
}

// The ends are cells.
#[derive(Clone, Copy)]
pub struct IntegerStats {
    kind: Kind,
    null_count: u32,
    value_count: u32,
    average_run_length: u32,
    min: u64,
    max: u64,
    distinct: Option<DistinctInfo>,
}

// The values stand at the front of the table, then the counts; 64 words after twice the rows are for the blocks.
fn typed_int_stats(view: View<'_>, want: bool, table: &mut [u64]) -> IntegerStats
    requires sound { Sound view }
    requires room { 2 * length view.cells.now + 64 ≤ length table.old }
    ensures stands { stats_seen result table.new ≡ stats want (seen view.entry) }
    ensures kind { result.kind ≡ view.entry.kind }
    ensures few { pairs result ≤ result.value_count }
    ensures most { most_of result ≤ result.value_count }
    ensures rows { result.null_count + result.value_count ≡ length view.entry.cells.now }
    ensures beyond { drop (2 * length view.entry.cells.now + 64) table.new ≡ drop (2 * length view.entry.cells.now + 64) table.old }
{
    let rows = view.cells.len();
    let count = gather(view, table);
    let min = least_of(view.kind, &table[..count]);
    let max = greatest_of(view.kind, &table[..count]);
    let first = table[..count].first().copied();
    let at = 2 * rows;
    let runs = runs_from(view, first, &mut table[at..at + 64]);
    let value_count = count as u32;
    let (values, rest) = table.split_at_mut(count);
    let distinct = distinct_part(view.kind, rows, want, values, &mut rest[..count]);
    IntegerStats {
        kind: view.kind,
        null_count: (rows - count) as u32,
        value_count,
        average_run_length: average_run_length(value_count, runs),
        min,
        max,
        distinct,
    }
}

impl IntegerStats {
    // The statistics of a column. The table is lent: the distinct values, where they are counted, stand from word 0 on, their counts from word
    // `value_count` on; 64 words after twice the rows are for the blocks.
    pub fn generate_opts(
        view: View<'_>,
        opts: GenerateStatsOptions,
        table: &mut [u64],
    ) -> IntegerStats
        requires sound { Sound view }
        requires room { 2 * length view.cells.now + 64 ≤ length table.old }
        ensures stands { stats_seen result table.new ≡ stats opts.count_distinct_values (seen view.entry) }
        ensures kind { result.kind ≡ view.entry.kind }
        ensures rows { result.null_count + result.value_count ≡ length view.entry.cells.now }
        ensures holds { Holds result table.new }
        ensures few { pairs result ≤ result.value_count }
        ensures most { most_of result ≤ result.value_count }
        ensures beyond { drop (2 * length view.entry.cells.now + 64) table.new ≡ drop (2 * length view.entry.cells.now + 64) table.old }
        ensures right { Clean (seen view.entry) → Right (seen view.entry) (stats_seen result table.new) }
        ensures empty { length view.entry.cells.now ≡ 0 → stats_seen result table.new ≡ empty_stats (number_of view.entry.kind) }
        ensures blank { 0 < length view.entry.cells.now → values (seen view.entry) ≡ [] → stats_seen result table.new ≡ blank_stats (number_of view.entry.kind) (length view.entry.cells.now) }
        ensures hidden { (o : Offer) → Alike (offer_seen view.entry) o → stats_seen result table.new ≡ stats opts.count_distinct_values (cleaned o) }
    {
        typed_int_stats(view, opts.count_distinct_values, table)
    }

    pub fn null_count(&self) -> u32
        ensures { result ≡ (stats_seen self.now []).blanks }
    {
        self.null_count
    }

    pub fn value_count(&self) -> u32
        ensures { result ≡ (stats_seen self.now []).count }
    {
        self.value_count
    }

    pub fn average_run_length(&self) -> u32
        ensures { result ≡ (stats_seen self.now []).average }
    {
        self.average_run_length
    }

    // The least value as a cell, without one the kind's greatest.
    pub fn min(&self) -> u64
        ensures { result ≡ (stats_seen self.now []).least }
    {
        self.min
    }

    // The greatest value as a cell, without one the kind's least.
    pub fn max(&self) -> u64
        ensures { result ≡ (stats_seen self.now []).greatest }
    {
        self.max
    }

    // How many values are distinct, if they were counted.
    pub fn distinct_count(&self) -> Option<u32>
        ensures stands { (t : List ℕ) → Holds self.now t → result ≡ distinct_count (stats_seen self.now t) }
        ensures pairs { or_zero result ≡ pairs self.now }
    {
        Some(self.distinct?.distinct_count)
    }

    // The commonest value as a cell, the least among equals, with its count.
    pub fn most_frequent_value_and_count(&self) -> Option<(u64, u32)>
        ensures stands { (t : List ℕ) → result ≡ most_frequent (stats_seen self.now t) }
        ensures most { count_or_zero result ≡ most_of self.now }
    {
        let info = self.distinct?;
        Some((info.most_frequent_value, info.top_frequency))
    }

    // How many pairs stand in the table.
    fn pairs(&self) -> usize
        ensures { result ≡ pairs self.now }
    {
        self.distinct_count().unwrap_or(0) as usize
    }

    // The distinct values ascending, as cells, from the table that `generate_opts` left.
    pub fn distinct_values<'a>(&self, table: &'a [u64]) -> &'a [u64]
        requires holds { Holds self.now table.now }
        ensures { result.now ≡ distinct_values (stats_seen self.now table.now) }
    {
        let n = self.pairs();
        &table[0..n]
    }

    // How often each stands, in the same order.
    pub fn distinct_counts<'a>(&self, table: &'a [u64]) -> &'a [u64]
        requires holds { Holds self.now table.now }
        ensures { result.now ≡ distinct_counts (stats_seen self.now table.now) }
    {
        let start = self.value_count as usize;
        let end = start + self.pairs();
        &table[start..end]
    }

    // The greatest value less the least, 0 without one.
    pub fn max_minus_min(&self) -> u64
        ensures { result ≡ max_minus_min (number_of self.now.kind) (stats_seen self.now []) }
    {
        self.max_minus_min_in(self.kind)
    }

    // The same by the order of another kind.
    pub fn max_minus_min_in(&self, kind: Kind) -> u64
        ensures { result ≡ max_minus_min (number_of kind) (stats_seen self.now []) }
    {
        if self.value_count == 0 {
            return 0;
        }
        kind.key(self.max()).saturating_sub(kind.key(self.min()))
    }

    pub fn min_is_zero(&self) -> bool
        ensures { result ≡ min_is_zero (stats_seen self.now []) }
    {
        self.min() == 0
    }

    pub fn min_is_negative(&self) -> bool
        ensures { result ≡ min_is_negative (number_of self.now.kind) (stats_seen self.now []) }
    {
        self.kind.key(self.min()) < self.kind.key(0)
    }

    // The base-2 logarithm, rounded down, of the greatest value taken as an unsigned number of the kind's width; 0 has none.
    pub fn max_ilog2(&self) -> Option<u32>
        ensures stands { result ≡ max_ilog2 (number_of self.now.kind) (stats_seen self.now []) }
        ensures floor { Log2 ((stats_seen self.now []).greatest % 2 ^ width_of (number_of self.now.kind)) result }
    {
        let max = low_bits(u128::from(self.max()), self.kind.width());
        if max == 0 { None } else { Some(max.ilog2()) }
    }
}
