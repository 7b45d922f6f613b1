//! The simple table of prefixes: a sorted vector.
#![tactic(auto)]

mod sorted;

pub use sorted::{SortedTable, index_of};
