//! What is on its way between the actors of a laboratory, each item with the clock of the event that sent it.
#![tactic(auto)]

mod channel;
mod inboxes;

pub use channel::Channel;
pub use inboxes::{Inbox, are_empty, empty_inboxes, send};
