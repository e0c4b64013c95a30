// What was read.
ghost use Rattle.std.specs.Prelude.{◌≤◌};

use column::kinds::Kind;

// So many rows of the kind, at the fronts of lent places.
#[derive(Clone, Copy)]
pub struct Restored {
    pub kind: Kind,
    pub rows: usize,
    ghost few: { rows ≤ 131072 },
}
