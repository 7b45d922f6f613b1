//! A home router: it takes in segments, messages, routes, orders and sessions, decides, tells, and moves sessions. Each
//! of these is a named event.
#![tactic(auto)]

mod fields;
mod outstanding;
mod place;
mod router;
mod stages;
mod takes;

pub use router::Router;
