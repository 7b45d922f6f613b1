//! A far side whose events are decided one by one, in whatever order a journal has them: its remote, and the segments
//! in the link between it and the routers.
#![tactic(auto)]

mod events;
mod far;
mod link;
mod takes;

pub use far::AuditedFar;
