//! A home BGP session: one story over one endpoint, with the routes that it heard and told (RFC 4271, sections 3.2, 6
//! and 8.2.2), and its move from one router to another.
#![tactic(auto)]

mod answers;
mod begin;
mod moving;
mod offer;
mod parts;
mod read;
mod segments;
mod session;
mod tick;

pub use answers::{OfferStop, ReadStep, TickStep};
pub use moving::{Capsule, FrozenSession};
pub use offer::MOST_PUT;
pub use session::Session;
