// Columns read from lines of text: the name of the kind, then for each row a comma and a field.
#![tactic(auto)]

pub mod columns;
mod fields;
pub mod numbers;
pub mod reads;
mod rows;
