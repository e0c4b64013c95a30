// A cleaned column as slices lend it.
ghost use Rattle.column.specs.Columns.{Sound, CleanView};

use crate::views::View;

// A view with 0 under each blank, no spare bit set, and nothing that a refusal would turn away.
#[derive(Clone, Copy)]
pub struct Cleaned<'a> {
    pub view: View<'a>,
    ghost sound: { Sound view },
    ghost clean: { CleanView view },
}
