//! What is said of an input, accepted or refused, and of a run: its report and its summary.
#![tactic(auto)]

mod accepted;
mod lab;
mod refused;
mod short;
mod texts;
mod traces;
mod whole;

pub use accepted::{check_text, yes_or_no};
pub use lab::{BestEntry, FarView, Lab, Place, RouterTable, RunEnd, SessionView, ToldEntry};
pub use refused::bad_text;
pub use short::{accepted_in, best_count, prefix_count, push_short_router, refused_in, summary};
pub use texts::{
    peering_name, place_at, push_end, push_from, push_graft, push_log, push_path, push_peerings,
    push_place, push_refusal, push_routers, push_stage, router_name, source_name, state_name,
};
pub use traces::{forwarder_of, numbered};
pub use whole::report;
