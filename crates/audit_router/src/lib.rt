//! A router whose events are decided one by one, in whatever order a journal has them: its places for the sessions of
//! the peerings, and its tables.
#![tactic(auto)]

mod decide;
mod next;
mod place;
mod rest;
mod router;
mod sessions;
mod source;
mod target;

pub use router::AuditedRouter;
