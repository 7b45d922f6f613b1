//! Why a router has a route, and the timeline of a run, as JSON: one object in one line, with what the texts of the same jobs say.
#![tactic(auto)]

mod events;
mod grafts;
mod sessions;
mod steps;
mod tables;
mod timeline;
mod why;

pub use timeline::timeline_json;
pub use why::why_json;
