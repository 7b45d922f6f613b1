//! What clocks that are moved one by one have to do with a run of the laboratory.
#![tactic(auto)]

mod laws;

pub use laws::{clocks_follow_runs, deeds_move_items, runs_are_clocked_alike};
