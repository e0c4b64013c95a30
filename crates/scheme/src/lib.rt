// The interface by which schemes compete for a column.
#![tactic(auto)]

mod asked;
pub mod bounded;
pub mod children;
pub mod ctx;
pub mod estimate;
pub mod exclusion;
pub mod history;
pub mod scheme;
mod stored;
