// Statistics of columns of whole numbers: counts, ends, runs, and the distinct values with how often each stands.
#![tactic(auto)]

mod distinct;
pub mod integer;
mod laws;
pub mod options;
mod runs;
pub mod values;
