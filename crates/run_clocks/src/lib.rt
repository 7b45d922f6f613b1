//! The clocks of a laboratory's journal.
#![tactic(auto)]

mod laws;

pub use laws::journals_are_clocked;
