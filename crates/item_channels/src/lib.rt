//! What is on its way between actors by numbers, in the order in which it was sent.
#![tactic(auto)]

mod channel;
mod inboxes;

pub use channel::Channel;
pub use inboxes::{Inbox, are_empty, empty_inboxes, first, receive, send};
