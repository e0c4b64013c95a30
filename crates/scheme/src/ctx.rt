// Where a column stands in a tree.
use crate::bounded::Bounded;

// (scheme, child) from the root down, at most eight.
pub type CascadeHistory = Bounded<(u8, usize), 8>;

// The levels left for a column, its history, and whether it is a sample or part of one.
#[derive(Clone, Copy)]
pub struct CompressorContext {
    pub allowed_cascading: usize,
    pub cascade_history: CascadeHistory,
    pub is_sample: bool,
}
