//! The world of `graft_model` tried on worked worlds: a laboratory of two routers and one peering, from its first world
//! through a graft to its end, every event written out.
#![tactic(auto)]

mod frozen_sessions;
mod laws;
mod row_conditions;

pub use frozen_sessions::{
    a_frozen_session_lands, a_frozen_session_returns, a_refusal_at_the_source_changes_no_session,
    each_field_of_unchanged_can_be_false,
};
pub use laws::{
    a_graft_runs_to_its_end, a_link_left_behind_solves_nothing, an_update_may_be_put, base_begins,
    base_is_a_setup, base_runs_to_its_end, each_field_of_a_claim_can_be_false,
    each_field_of_quiet_can_be_false, emptied_routers_are_worked, every_router_is_asked,
    fields_are_false_alone, nothing_is_sent_at_the_end, other_events_may_happen,
    refused_grafts_run_to_their_end, some_events_never_happen, wrong_rules_lead_elsewhere,
};
pub use row_conditions::{a_best_route_is_due_to_others, an_update_is_the_next_one};
