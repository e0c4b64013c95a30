// Columns with one value only.
#![tactic(auto)]

ghost use Rattle.column.specs.Columns.{Sound, seen, values};
ghost use Rattle.constant.specs.Constants.{all_equal_to, constantly, first_value};
ghost use Rattle.std.specs.Prelude.{◌≡◌};

use column::views::View;

// The first value, if there is one.
pub fn first_value(view: View<'_>) -> Option<u64>
    requires sound { Sound view }
    ensures { result ≡ first_value (values (seen view.entry)) }
{
    view.cells
        .iter()
        .enumerate()
        .find_map(|(row, &cell)| view.is_present(row).then_some(cell))
}

// Whether no value differs from `value`; most rows are settled by their cell alone.
fn all_equal_to(view: View<'_>, value: u64) -> bool
    requires sound { Sound view }
    ensures { result ≡ all_equal_to value (values (seen view.entry)) }
{
    view.cells
        .iter()
        .enumerate()
        .all(|(row, &cell)| cell == value || !view.is_present(row))
}

// Whether there is a value and no other differs from it.
pub fn is_constant_for_compression(view: View<'_>) -> bool
    requires sound { Sound view }
    ensures { result ≡ constantly (values (seen view.entry)) }
{
    // Not `is_some_and`: tried, and the proof did not find that its closure answers what `all_equal_to` does.
    match first_value(view) {
        Some(value) => all_equal_to(view, value),
        None => false,
    }
}
