//! The clocks of a journal's events: one for each actor, and a stamp for each item on its way.
#![tactic(auto)]

mod clocks;
mod stamps;

pub use clocks::Clocks;
