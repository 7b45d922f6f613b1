//! Merges the journals of a net's actors into one list, which is a run of the world that the actors
//! make up.
#![tactic(auto)]

mod laws;
mod merging;

pub use laws::{
    each_actor_has_its_journal, entries_before_a_mark, levels_cut, marks_grow, one_merge,
    phases_grow, pieces_grow, runs_join, the_merge_is_a_run,
};
pub use merging::merge;
