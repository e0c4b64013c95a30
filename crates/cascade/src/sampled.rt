// The column that a scheme is scored on.
ghost use Rattle.std.specs.Prelude.{◌≡◌, ◌≤◌, length};
ghost use Rattle.column.specs.Columns.{seen, words_for};
ghost use Rattle.sample.specs.Samples.{sample_of};

use column::cleaned::Cleaned;
use column::views::View;
use sample::draws::Draws;
use sample::samples::sample;
use sample::strata::SAMPLE_SIZE;

// The column's sample, in lent places where it is drawn; a sample is not sampled again.
pub fn sampled<'a, D: Draws + Drop>(
    array: Cleaned<'a>,
    is_sample: bool,
    cells: &'a mut [u64],
    words: &'a mut [u64],
) -> Cleaned<'a>
    requires cells_room { length array.view.cells.now ≤ length cells.old }
    requires words_room { words_for (length array.view.cells.now) ≤ length words.old }
    ensures column { seen result.view ≡ sample_of D.Draws.source is_sample (seen array.entry.view) }
    ensures rows { length result.view.cells.now ≤ length array.entry.view.cells.now }
{
    if is_sample {
        return array;
    }
    let Some(rows) = sample::<D>(array, cells, words) else {
        return array;
    };
    let view = View {
        kind: array.view.kind,
        cells: &cells[..rows],
        words: &words[..rows / SAMPLE_SIZE],
    };
    Cleaned { view }
}
