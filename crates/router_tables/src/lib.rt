//! What a router does with its tables for one session: the routes that it takes in, by its policies, and the sets of
//! prefixes that are due to be told.
#![tactic(auto)]

mod due;
mod heard;
mod named;
mod prefixes;

pub use due::{DueSets, add_where};
pub use heard::enter;
pub use named::{missing_policy, policy_of};
pub use prefixes::{all_best, due_again};
