// What the calls answer when they are granted.
use column::kinds::Kind;

// A column that was fetched: its rows stand at the fronts of the places lent.
#[derive(Clone, Copy)]
pub struct Fetched {
    pub kind: Kind,
    pub rows: usize,
}

// A column's weight, and the whole length of its node.
#[derive(Clone, Copy)]
pub struct Weighed {
    pub weight: usize,
    pub whole: usize,
}
