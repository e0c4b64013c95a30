// A binder: columns bound one behind the other in lent bytes, fetched and weighed again.
#![tactic(auto)]

mod binding;
mod places;

pub use crate::binding::{Binder, MAX_COLUMNS};
pub use calls::answers::{Fetched, Weighed};
