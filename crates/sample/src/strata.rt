// How many strata a column's rows are cut into, and where each lies.
ghost use Rattle.std.specs.Prelude.{◌≡◌, ◌*◌, ◌<◌, ◌≤◌, slice_index_or};
ghost use Rattle.sample.specs.Laws.{Covers};
ghost use Rattle.sample.specs.Samples.{sample_count, strata as strata_of};

// Rows taken of each stratum.
pub const SAMPLE_SIZE: usize = 64;

// Strata for about one row in a hundred, a multiple of 16.
pub fn sample_count(rows: usize) -> usize
    requires few { rows ≤ 131072 }
    ensures { result ≡ sample_count rows }
{
    (rows / 100 / SAMPLE_SIZE).next_multiple_of(16).max(16)
}

// Stratum `i` of `count`: its first row and the row after its last.
#[tactic(auto, using(crate::proofs::StrataLaws::room, crate::proofs::StrataLaws::stratum_is))]
pub fn stratum(rows: usize, count: usize, i: usize) -> (usize, usize)
    requires within { i < count }
    ensures bounds { result ≡ slice_index_or (strata_of rows count) i (0, 0) }
    ensures cover { 64 * count ≤ rows → Covers rows count }
{
    let each = rows / count;
    let longer = rows % count;
    let start = i * each + i.min(longer);
    if i < longer {
        (start, start + each + 1)
    } else {
        (start, start + each)
    }
}

#[cfg(test)]
mod tests {
    use super::*;

    #[test]
    fn counts(rt: HostRuntime) {
        assert_eq!(rt; sample_count(108799), 16);
        assert_eq!(rt; sample_count(108800), 32);
    }

    #[test]
    fn strata(rt: HostRuntime) {
        assert_eq!(rt; stratum(1025, 16, 0), (0, 65));
        assert_eq!(rt; stratum(1025, 16, 15), (961, 1025));
    }
}
