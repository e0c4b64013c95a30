// What lines come to.
ghost use Rattle.std.specs.Prelude.{◌≡◌, IfOk, string_bytes};
ghost use Rattle.bindlist.specs.Printed.{unread};

use lines::columns::LineColumn;
use std::alloc::{AllocError, Global};

// A column as it was bound, and its number.
#[derive(Drop)]
pub struct Bound {
    pub number: usize,
    pub column: LineColumn,
}

// The text that is printed of a line, and its column if one was bound.
#[derive(Drop)]
pub struct Outcome {
    pub text: String,
    pub bound: Option<Bound>,
}

// Of line `n`, whose column was not bound.
pub fn unread(heap: Global, n: u64) -> Result<Outcome, AllocError>
    ensures { IfOk result (λ o. string_bytes o.text ≡ unread n) }
{
    Ok(Outcome {
        text: format!(in heap; "unread,{n}\n")?,
        bound: None,
    })
}
