//! A net of actors that send items over rings and make their turns in phases, run by workers. Each
//! actor has a journal and a clock of its own.
#![tactic(auto)]

mod actor;
mod build;
mod cell;
mod clocks;
mod deal;
mod edges;
mod ends;
mod entry;
mod finish;
mod laws;
mod looks;
mod net;
mod parts;
mod post;

pub use actor::Actor;
pub use entry::{JournalEntry, Stamp, Stamped};
pub use laws::{clocks_rise, two_phases_drain};
pub use net::Net;
pub use parts::{Actors, Journal, Journals, Left, Lefts, Mark, Marks, Parts};
pub use post::Post;
