// The dictionary's ratio.
use crate::columns::{Column, clean};
use anyhow::bail;
use column::cleaned::Cleaned;
use column::views::View;
use dict::integer::IntDictScheme;
use scheme::ctx::CompressorContext;
use scheme::estimate::{CompressionEstimate, EstimateVerdict};
use scheme::scheme::{ArrayAndStats, Scheme};
use stats::integer::IntegerStats;
use std::alloc::{AllocError, Global};

// `skip`, or the ratio's bits.
pub fn answer(heap: Global, column: &Column) -> anyhow::Result<String> {
    let Ok(view) = View::new(u8::from(column.kind), &column.cells, &column.words) else {
        bail!("a column of the list is refused");
    };
    let mut places = vec![in heap; 0; view.rows()]?;
    match estimate(heap, clean(view, &mut places))? {
        CompressionEstimate::Verdict(EstimateVerdict::Skip) => {
            Ok(String::from_str(heap, "skip")?)
        }
        CompressionEstimate::Verdict(EstimateVerdict::Ratio(ratio)) if !ratio.is_nan() => {
            let bits = ratio.to_bits();
            Ok(format!(in heap; "{bits:016x}")?)
        }
        _ => bail!("the dictionary answers neither"),
    }
}

fn estimate(heap: Global, array: Cleaned<'_>) -> Result<CompressionEstimate, AllocError> {
    let rows = array.view.rows();
    let mut table = vec![in heap; 0; 2 * rows + 64]?;
    let stats = IntegerStats::generate_opts(array.view, IntDictScheme.stats_options(), &mut table);
    let col = ArrayAndStats {
        array: array.view,
        stats: &stats,
        table: &table,
    };
    let mut mem = vec![in heap; 0; 4 * rows + 256]?;
    let ctx = CompressorContext::new(1);
    Ok(IntDictScheme.expected_compression_ratio(col, &ctx, &mut mem))
}
