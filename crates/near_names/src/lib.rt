//! The name that a misspelt one is nearest to.
#![tactic(auto)]

mod nearness;

pub use nearness::{is_near, nearest};
