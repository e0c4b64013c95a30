// Columns of whole numbers: their kinds, rows and presence words, and when one is turned away.
#![tactic(auto)]

pub mod blocks;
pub mod cleaned;
pub mod kinds;
pub mod refusals;
pub mod rows;
pub mod views;
