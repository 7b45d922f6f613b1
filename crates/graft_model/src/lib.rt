//! The laboratory as a world of routers, remotes and an operator: its parts, its events, its runs, and what is claimed of every run
//! (RFC 4271, sections 6, 8 and 9.1; RFC 9293, section 3.4).
#![tactic(auto)]

mod code;
mod conditions;
mod effects;
mod event;
mod laws;

pub use code::{Code, event_of};
pub use conditions::{
    beats_are_few_and_later, dirty_prefixes_wait, emptied_routers_give_by_plan,
    grafts_are_numbered, grafts_go_on_where_they_stand, grafts_wait_for_earlier_ones,
    groups_begin_in_quiet_worlds, items_are_taken_where_they_may_be, landings_have_room,
    later_grafts_alone_turn_links, live_sessions_alone_act, missing_policies_are_named,
    quiet_sessions_are_settled, says_wait_for_earlier_ones, sessions_act_in_their_states,
    word_waits_for_what_is_told,
};
pub use effects::{
    another_best_route_is_due, leaving_keeps_the_entries, moved_sessions_are_told_again,
    policies_and_costs_are_the_routers_own, sayings_join_the_stream, segments_are_what_events_name,
    states_say_what_is_due, what_changed_is_dirty, what_is_put_has_room,
};
pub use event::{ActorEvent, FarEvent, OperatorEvent, RouterEvent};
pub use laws::{
    claims_can_be_false, codes_are_exact, events_lead_to_one_world, grafts_keep_sessions,
    grafts_move_sessions, nothing_moves_at_quiet, refused_items_change_nothing, rows_are_exact,
    steps_leave_the_rest,
};
