//! A link between two sides of a connection: the segments that it holds, and the plan of faults, which
//! says what happens to each segment.
#![tactic(auto)]

mod bag;
mod plan;

pub use bag::Bag;
pub use plan::{Fate, Fault, FaultKind, Plan};
