//! Answers to events.

use bgp_session::Capsule;
use graft_steps::Item;

/// Whether an event of an actor could happen, and what it sent then. An event sends one item at most.
#[derive(Drop)]
pub enum Ruling {
    /// It could not happen, and nothing has changed.
    Refused,
    /// It has happened, and sends nothing.
    Silent,
    /// It has happened, and sends this item to the actor of number `to`.
    Sends { to: usize, item: Item<Capsule> },
}
