// The second pass: writes a node's bytes by the plan, and decides nothing.
#![tactic(auto)]

mod leaves;
mod nodes;

pub use crate::nodes::{Written, emit};
