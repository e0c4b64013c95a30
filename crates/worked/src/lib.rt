// Cases worked out from the definitions alone, each by computation.
#![tactic(auto)]

pub mod called;
pub mod choosing;
pub mod edges;
pub mod excluding;
pub mod levelling;
pub mod limits;
pub mod printed;
pub mod schemes;
pub mod starred;
