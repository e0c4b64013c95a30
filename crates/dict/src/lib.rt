// Dictionary encoding, scheme 16: the distinct values, and for each row the place of its value among them.
#![tactic(auto)]

mod codes;
mod estimate;
pub mod facts;
pub mod integer;
