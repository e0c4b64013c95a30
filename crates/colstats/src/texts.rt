// What is printed of a line.
ghost use Rattle.column.specs.Columns.{cleaned};
ghost use Rattle.column.specs.Kinds.{name_of, number_of};
ghost use Rattle.colstats.specs.Printed.{count_fields, value_fields, fields, row_text, printed};
ghost use Rattle.lines.specs.Held.{held};
ghost use Rattle.stats.specs.Seen.{Holds, stats_seen};
ghost use Rattle.std.specs.Prelude.{◌≡◌, ℕ, List, [], IfOk, string_bytes};

use column::kinds::Kind;
use lines::columns::{LineColumn, LineError};
use lines::numbers::Number;
use lines::reads::read_line;
use stats::integer::IntegerStats;
use stats::options::GenerateStatsOptions;
use std::alloc::{AllocError, Global};

// The line's number, the kind, and counts.
fn count_fields(
    heap: Global,
    n: u64,
    kind: Kind,
    rows: usize,
    stats: &IntegerStats,
) -> Result<String, AllocError>
    ensures { IfOk result (λ s. string_bytes s ≡ fields (count_fields n (name_of kind) rows (stats_seen stats.now []))) }
{
    let name = kind.name();
    let nulls = stats.null_count();
    let values = stats.value_count();
    let average = stats.average_run_length();
    format!(in heap; "{n},{name},{rows},{nulls},{values},{average}")
}

// Least and greatest, how many distinct, the commonest and how often: empty fields without a value.
fn value_fields(heap: Global, kind: Kind, stats: &IntegerStats) -> Result<String, AllocError>
    ensures { (t : List ℕ) → Holds stats.now t → IfOk result (λ s. string_bytes s ≡ fields (value_fields (number_of kind) (stats_seen stats.now t))) }
{
    if stats.value_count() == 0 {
        return String::from_str(heap, ",,,,");
    }
    let distinct = stats.distinct_count().unwrap_or(0);
    let (value, times) = stats.most_frequent_value_and_count().unwrap_or((0, 0));
    let min = Number {
        kind,
        cell: stats.min(),
    };
    let max = Number {
        kind,
        cell: stats.max(),
    };
    let commonest = Number { kind, cell: value };
    format!(in heap; "{min},{max},{distinct},{commonest},{times}")
}

// The statistics of line `n`'s column.
fn row_text(heap: Global, n: u64, column: &LineColumn) -> Result<String, AllocError>
    ensures { IfOk result (λ s. string_bytes s ≡ row_text n (cleaned (held column.now))) }
{
    let view = column.view();
    let rows = view.cells.len();
    let mut table = vec![in heap; 0; 2 * rows + 64]?;
    let opts = GenerateStatsOptions {
        count_distinct_values: true,
    };
    let stats = IntegerStats::generate_opts(view, opts, &mut table);
    let counts = count_fields(heap, n, view.kind, rows, &stats)?;
    let of_values = value_fields(heap, view.kind, &stats)?;
    format!(in heap; "{counts},{of_values}")
}

// What is printed of line `n`.
pub fn answer(heap: Global, n: u64, text: &[u8]) -> Result<String, AllocError>
    ensures { IfOk result (λ s. string_bytes s ≡ printed n text.now) }
{
    match read_line(heap, text) {
        Ok(column) => row_text(heap, n, &column),
        Err(LineError::NoMemory) => Err(AllocError),
        Err(_) => format!(in heap; "unread,{n}"),
    }
}
