// Cells as the numbers of their kind.
ghost use Rattle.std.specs.Prelude.{Some};
ghost use Rattle.column.specs.Kinds.{number_of};
ghost use Rattle.lines.specs.Lines.{field_of};

use column::kinds::Kind;
use std::fmt;

// A cell of a kind, printed in decimal, as the field of a line has it.
#[derive(Clone, Copy)]
pub struct Number {
    pub kind: Kind,
    pub cell: u64,
}

impl fmt::Display for Number {
    ghost output = { λ n. Some (field_of (number_of n.kind) (Some n.cell)) };

    fn fmt<W: fmt::Write>(&self, f: &mut fmt::Formatter<W>) -> fmt::Result {
        let cell = self.cell;
        if self.kind.is_signed() && cell >= 1 << 63 {
            let size = cell.wrapping_neg();
            write!(f, "-{size}")
        } else {
            write!(f, "{cell}")
        }
    }
}
