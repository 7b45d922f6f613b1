//! What a remote says is read from its segments, in whatever order, however often and in whatever pieces they come.
#![tactic(auto)]

mod laws;

pub use laws::{no_gap_leaves_no_hole, slices_are_joined};
