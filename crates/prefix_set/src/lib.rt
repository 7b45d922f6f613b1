//! The set of the prefixes that are due to one receiver.
#![tactic(auto)]

mod due;
mod run;

pub use due::PrefixSet;
