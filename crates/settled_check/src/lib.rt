//! The first thing that an actor still has to do, and when nothing is left.
#![tactic(auto)]

mod checks;
mod laws;

pub use checks::{far_rest, first_pending, operator_rest, router_rest};
pub use laws::{quiet_is_found, rests_tell_what_is_left};
