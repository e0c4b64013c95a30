// What a column's values are measured from.
ghost use Rattle.std.specs.Prelude.{◌≡◌, ◌+◌, ◌*◌, ◌≤◌, [], length};
ghost use Rattle.column.specs.Columns.{Sound, seen, values};
ghost use Rattle.column.specs.Kinds.{number_of};
ghost use Rattle.frame.specs.Frame.{frame_bits, base, column_bits};
ghost use Rattle.stats.specs.Seen.{stats_seen};

use column::kinds::Kind;
use column::views::View;
use packing::bit_length;
use stats::integer::IntegerStats;
use stats::options::GenerateStatsOptions;

// The bits that the greatest distance needs.
// The kind stands beside the statistics: it is the column's, which their type does not tie to them.
pub fn bits_needed(kind: Kind, stats: &IntegerStats) -> u32
    ensures value { result ≡ frame_bits (number_of kind) (stats_seen stats.now []) }
    ensures few { result ≤ 64 }
{
    bit_length(stats.max_minus_min_in(kind))
}

// The least value, 0 without one, and the bits of the greatest distance from it.
#[derive(Clone, Copy)]
pub struct Reference {
    pub least: u64,
    pub bits: u32,
    ghost few: { bits ≤ 64 },
}

impl Reference {
    pub fn of(array: View<'_>, mem: &mut [u64]) -> Reference
        requires sound { Sound array }
        requires room { 2 * length array.cells.now + 64 ≤ length mem.old }
        ensures least { result.least ≡ base (number_of array.entry.kind) (values (seen array.entry)) }
        ensures bits { result.bits ≡ column_bits (seen array.entry) }
    {
        let opts = GenerateStatsOptions {
            count_distinct_values: false,
        };
        let stats = IntegerStats::generate_opts(array, opts, mem);
        let least = if stats.value_count() == 0 {
            0
        } else {
            stats.min()
        };
        Reference {
            least,
            bits: bits_needed(array.kind, &stats),
        }
    }
}
