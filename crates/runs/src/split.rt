// Values taken apart into runs.
ghost use Rattle.std.specs.Prelude.{◌≡◌, ◌≤◌, length, take};
ghost use Rattle.runs.specs.Runs.{heads, ends as ends_of};

// The first value of each run to `firsts`, how many values stand up to its end to `ends`; how many runs there are.
// The one of `stats` works in place, in a table of values with their counts; here the values stay and the parts go to two lent places.
pub fn split_runs(values: &[u64], firsts: &mut [u64], ends: &mut [u64]) -> usize
    requires firsts { length values.now ≤ length firsts.old }
    requires ends { length values.now ≤ length ends.old }
    ensures firsts { take result firsts.new ≡ heads values.now }
    ensures ends { take result ends.new ≡ ends_of values.now }
    ensures few { result ≤ length values.now }
{
    let mut before = 0;
    let mut runs = 0;
    // By place: no proof knows what is written through an `iter_mut` under `zip`.
    for run in values.chunk_by(|a, b| a == b) {
        before += run.len();
        firsts[runs] = run[0];
        ends[runs] = before as u64;
        runs += 1;
    }
    runs
}
