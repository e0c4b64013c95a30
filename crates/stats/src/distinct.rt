// The distinct values with their counts, in lent memory: sorted by keys, then split into runs where they stand.
ghost use Rattle.std.specs.Prelude.{◌≡◌, ◌≤◌, not, ◌&&◌, ◌||◌, List, [], ◌∷◌, map, length, take, ◌==◌};
ghost use Rattle.std.specs.List.{zip};
ghost use Rattle.column.specs.Kinds.{key, number_of};
ghost use Rattle.column.specs.Columns.{Row};
ghost use Rattle.stats.specs.Stats.{tally, distinct_of, distinct_part, commonest_after, commonest as commonest_of};
ghost use Rattle.stats.specs.Table.{ascending, heads, lens};
ghost use Rattle.stats.specs.Seen.{info_seen, part_seen, number_in, most_in};

use crate::integer::DistinctInfo;
use column::kinds::Kind;

// Each cell becomes its key, or each key its cell.
fn turn(kind: Kind, cells: &mut [u64])
    ensures { cells.new ≡ map (key (number_of kind)) cells.old }
{
    for cell in cells.iter_mut() {
        *cell = kind.key(*cell);
    }
}

fn sort_keys(keys: &mut [u64])
    ensures { keys.new ≡ ascending keys.old }
{
    keys.sort_unstable();
}

// The runs of the values: each run's value put where they stood, each run's length in `counts`. By index, as the same slice is read and written.
fn split_runs(values: &mut [u64], counts: &mut [u64]) -> usize
    requires even { length counts.old ≡ length values.old }
    ensures vals { take result values.new ≡ heads values.old }
    ensures lengths { take result counts.new ≡ lens values.old }
    ensures few { result ≤ length values.old }
{
    let n = values.len();
    if n == 0 {
        return 0;
    }
    let mut cur = values[0];
    let mut len: u64 = 1;
    let mut j: usize = 0;
    for i in 1..n {
        let x = values[i];
        if x == cur {
            len += 1;
        } else {
            values[j] = cur;
            counts[j] = len;
            j += 1;
            cur = x;
            len = 1;
        }
    }
    values[j] = cur;
    counts[j] = len;
    j + 1
}

// The pair with the greater count, the first among equals.
fn commoner(a: (u64, u64), b: (u64, u64)) -> (u64, u64)
    ensures { result ≡ commonest_after a (b ∷ []) }
{
    if a.1 < b.1 { b } else { a }
}

// The first value with the greatest count, and that count.
fn commonest(vals: &[u64], counts: &[u64]) -> (u64, u64)
    ensures { result ≡ commonest_of (zip vals.now counts.now) }
{
    vals.iter().zip(counts).fold(
        (0, 0),
        |best, (value, count)| commoner(best, (*value, *count)),
    )
}

// The distinct values ascending, put where the values stood, and their counts.
fn distinct_info(kind: Kind, values: &mut [u64], counts: &mut [u64]) -> DistinctInfo
    requires rows { length values.old ≤ 131072 }
    requires even { length counts.old ≡ length values.old }
    ensures stands { info_seen result values.new counts.new ≡ distinct_of (tally (number_of kind) values.old) }
    ensures few { result.distinct_count ≤ length values.old }
    ensures most { result.top_frequency ≤ length values.old }
{
    turn(kind, values);
    sort_keys(values);
    let number = split_runs(values, counts);
    turn(kind, &mut values[..number]);
    let best = commonest(&values[..number], &counts[..number]);
    DistinctInfo {
        distinct_count: number as u32,
        most_frequent_value: best.0,
        top_frequency: best.1 as u32,
    }
}

// No row: no distinct part. No value: always one, of zeros. Else where it is wanted.
fn has_part(rows: usize, n: usize, want: bool) -> bool
    ensures { result ≡ (not (rows == 0) && (n == 0 || want)) }
{
    rows != 0 && (n == 0 || want)
}

// The distinct part of a column of `rows` rows with these values.
pub(crate) fn distinct_part(
    kind: Kind,
    rows: usize,
    want: bool,
    values: &mut [u64],
    counts: &mut [u64],
) -> Option<DistinctInfo>
    requires rows { length values.old ≤ 131072 }
    requires even { length counts.old ≡ length values.old }
    ensures stands { (rs : List Row) → length rs ≡ rows → part_seen result values.new counts.new ≡ distinct_part want (number_of kind) rs values.old }
    ensures few { number_in result ≤ length values.old }
    ensures most { most_in result ≤ length values.old }
{
    // Not `bool::then`: tried, and of a slice that a closure changes a proof knows only the length.
    if has_part(rows, values.len(), want) {
        Some(distinct_info(kind, values, counts))
    } else {
        None
    }
}
