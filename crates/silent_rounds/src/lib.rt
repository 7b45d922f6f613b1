//! Rounds in which nothing happens: enough of them show that nothing was left to do.
#![tactic(auto)]

mod laws;

pub use laws::{silent_links_are_empty, silent_worlds_are_quiet};
