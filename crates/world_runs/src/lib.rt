//! The runs of the program's actors are runs of the world: whatever a net of routers, far sides and the operator did,
//! its merged journal is that of a run of `graft_model`, in which no item was dropped. So all laws of the world hold
//! for it.
#![tactic(auto)]

mod laws;

pub use laws::{
    an_act_is_a_step, groups_are_counted, marks_stand_for_one_world, marks_stand_for_worlds,
    nets_run, runs_are_transparent, worlds_are_on_the_way,
};
