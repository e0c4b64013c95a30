// The first pass: what each level of a tree chooses, and how large the tree is. It writes no bytes; it leaves the plan.
#![tactic(auto)]

pub mod first_pass;
pub mod leaf;
mod sampled;
pub mod size;
