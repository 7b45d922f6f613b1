//! The laws of the world: what holds for every run of a laboratory, whatever its routers, remotes and links do and in
//! whatever order.
#![tactic(auto)]

mod laws;

pub use laws::{
    always_made_before_broken, always_transparent, always_unchanged, channels_are_queues,
    emptied_routers_are_left, evacuations_go_by_plan, every_world_is_owned,
    grafts_are_in_one_phase, links_follow_landings, no_item_is_dropped, one_session_is_held,
    quiet_solves, runs_lead_to_one_world, sessions_are_unbroken, sessions_keep_their_config,
    tables_are_what_is_decided, told_paths_avoid_the_remote_as, what_is_due_is_held,
    what_is_said_has_room, what_is_told_can_be_written,
};
