//! How an event is decided by its row: what an actor's part becomes and what it sends, or that no part meets the row.
#![tactic(auto)]

mod laws;
mod ruling;
mod senders;

pub use laws::events_name_their_senders;
pub use ruling::Ruling;
pub use senders::{Sender, far_sender, operator_sender, router_sender};
