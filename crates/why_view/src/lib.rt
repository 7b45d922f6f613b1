//! Why a router has its best route to a prefix: its candidates at the end of a run, with the rule of the decision process at
//! which each went, and the routes that it heard and excluded.
#![tactic(auto)]

mod candidates;
mod entries;
mod laws;
mod lines;
mod rules;
mod sources;
mod stories;
mod why;

pub use candidates::{Candidate, candidates_of, imported, ranks_of};
pub use entries::{RouterEntry, SessionEntry};
pub use laws::{
    rules_are_the_nine, the_winner_is_the_best, what_a_rule_leaves_out_goes_there,
    what_goes_nowhere_is_left, worked_why,
};
pub use lines::{
    first_match, is_index, is_loop, matching, name_or_dash, origin_name, push_number, winner,
};
pub use rules::{DecisionRule, goes_at};
pub use sources::{import_policy, routers_beside, sessions_at};
pub use stories::{established, is_wide, opened_on, routes_on};
pub use why::{router_of, why_text};
