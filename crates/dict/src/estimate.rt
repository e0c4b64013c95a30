// How well a dictionary would do, from the statistics alone.
ghost use Rattle.std.specs.Prelude.{◌≡◌, ℕ, ◌*◌, ◌/◌, ◌^◌, ◌<◌, ◌≤◌, ◌||◌, List, ◌==◌, nat_lt};
ghost use Rattle.column.specs.Kinds.{number_of, width as width_of};
ghost use Rattle.dict.specs.Dict.{codes_size, dict_verdict};
ghost use Rattle.stats.specs.Seen.{Holds, stats_seen};

use column::kinds::Kind;
use packing::bit_length;
use scheme::estimate::{EstimateVerdict, ratio};
use stats::integer::IntegerStats;

// Without a value, or with more than half of the values distinct, a dictionary is of no use.
fn is_useless(values: u32, distinct: u32) -> bool
    ensures { result ≡ (values == 0 || nat_lt (values / 2) distinct) }
{
    values == 0 || distinct > values / 2
}

// The bits of so many values.
fn size(values: u32, width: u32) -> u64
    ensures { result ≡ values * width }
{
    u64::from(values) * u64::from(width)
}

// The bits of the codes: each by itself, or their runs with 32 bits for each end.
fn codes_size(bits: u32, values: u32, average: u32) -> u64
    requires bits { bits ≤ 32 }
    ensures value { result ≡ codes_size bits values average }
    ensures small { result < 2 ^ 38 }
{
    let runs = values.checked_div(average).unwrap_or(0);
    size(values, bits).min(size(runs, bits + 32))
}

// From the statistics alone: how many times smaller the column becomes.
// The kind stands beside them: it is the column's, which their type does not tie to them.
pub fn estimate(kind: Kind, stats: &IntegerStats) -> EstimateVerdict
    ensures { (t : List ℕ) → Holds stats.now t → result ≡ dict_verdict (width_of (number_of kind)) (stats_seen stats.now t).count (stats_seen stats.now t).average (stats_seen stats.now t).distinct }
{
    let Some(distinct) = stats.distinct_count() else {
        return EstimateVerdict::Skip;
    };
    let values = stats.value_count();
    if is_useless(values, distinct) {
        return EstimateVerdict::Skip;
    }
    let width = kind.width();
    let codes = codes_size(
        bit_length(u64::from(distinct)),
        values,
        stats.average_run_length(),
    );
    EstimateVerdict::Ratio(ratio(size(values, width), size(distinct, width) + codes))
}
