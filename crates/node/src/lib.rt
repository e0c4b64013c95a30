// The stored form of a column: nodes.
#![tactic(auto)]

pub mod bodies;
pub mod extent;
pub mod heads;
pub mod leaves;
pub mod payloads;
pub mod slices;
pub mod weights;
