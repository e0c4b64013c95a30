// Samples of columns: 64 rows from each of some strata, where a source of draws says.
#![tactic(auto)]

pub mod draws;
pub mod samples;
pub mod strata;
pub mod worked;
