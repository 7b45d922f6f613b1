//! All that there is at the end of a run: the tables of the routers with all attributes, each session with what it agreed on, what went each
//! way and why it closed, the routes that it heard and was told, and why others weren't; and what an unsettled run was waiting for.
#![tactic(auto)]

mod laws;
mod links;
mod members;
mod routes;
mod sessions;
mod show;
mod tables;
mod untold;
mod waiting;

pub use laws::still_to_be_told;
pub use links::{Segments, count_segments, kind_name, segments_on, way_name};
pub use members::router_at;
pub use routes::{AttrsEntry, denying_rule, let_in};
pub use sessions::{
    as_octets, before_last, expected_last, received_messages, received_octets, sent_messages,
    sent_octets,
};
pub use show::{best_in, holder_number, is_established, numbered, show_text};
pub use tables::{entries_of, told_on};
pub use untold::{Untold, best_of, why_untold};
pub use waiting::push_pending;
