//! The channels of all actors.

ghost use Rattle.std.specs.Prelude.{ℕ, ◌≡◌, ◌↔◌, ◌<◌, ◌++◌, ◌∷◌, [], length, IsTrue, IfOk, OnOk};
ghost use Rattle.graft_model.specs.Points.{at2};
ghost use Rattle.audit_channels.specs.Channels.{parcels, parcels_at, stamps, IsSquare};

use crate::channel::Channel;
use bgp_session::Capsule;
use graft_edge::NoMemory;
use graft_steps::Item;
use ring_net::Stamp;
use std::alloc::Global;

/// The channels that lead to an actor, by the numbers of the actors that they come from.
#[derive(Drop)]
pub struct Inbox {
    pub channels: Vec<Channel>,
}

/// Returns the inbox of one of `count` actors, with nothing on its way.
fn empty_inbox(alloc: Global, count: usize) -> Result<Inbox, NoMemory>
    ensures count { IfOk result (λ inbox. length inbox.channels.items ≡ count) }
    ensures empty { IfOk result (λ inbox. (n : ℕ) → parcels_at inbox.channels.items n ≡ []) }
{
    let mut channels = Vec::new(alloc);
    for _n in 0..count {
        channels.push(Channel::new(alloc))?;
    }
    Ok(Inbox { channels })
}

/// Returns the inboxes of `count` actors, with nothing on its way.
pub fn empty_inboxes(alloc: Global, count: usize) -> Result<Vec<Inbox>, NoMemory>
    ensures square { IfOk result (λ inboxes. IsSquare count inboxes.items) }
    ensures empty { IfOk result (λ inboxes. (a b : ℕ) → parcels inboxes.items a b ≡ []) }
{
    let mut inboxes = Vec::new(alloc);
    for _n in 0..count {
        inboxes.push(empty_inbox(alloc, count)?)?;
    }
    Ok(inboxes)
}

/// Sends an item from one actor to another, with this stamp. Both must be among the actors.
pub fn send(
    inboxes: &mut [Inbox],
    from: usize,
    to: usize,
    stamp: Stamp,
    item: Item<Capsule>,
) -> Result<(), NoMemory>
    requires from { from < length inboxes.old }
    requires to { to < length inboxes.old }
    requires square { IsSquare (length inboxes.old) inboxes.old }
    ensures square { OnOk result (IsSquare (length inboxes.old) inboxes.new) }
    ensures sent { OnOk result (parcels inboxes.new ≡ at2 (parcels inboxes.old) from to (parcels inboxes.old from to ++ item ∷ [])) }
    ensures stamped { OnOk result (stamps inboxes.new ≡ at2 (stamps inboxes.old) from to (stamps inboxes.old from to ++ stamp ∷ [])) }
{
    inboxes[to].channels[from].put(stamp, item)
}

/// Returns whether nothing is on its way to an actor.
fn is_empty(inbox: &Inbox) -> bool
    ensures { IsTrue result ↔ ((n : ℕ) → parcels_at inbox.now.channels.items n ≡ []) }
{
    inbox.channels.iter().all(|channel| channel.is_empty())
}

/// Returns whether nothing is on its way to any actor.
pub fn are_empty(inboxes: &[Inbox]) -> bool
    ensures { IsTrue result ↔ ((a b : ℕ) → parcels inboxes.now a b ≡ []) }
{
    for to in 0..inboxes.len() {
        if !is_empty(&inboxes[to]) {
            return false;
        }
    }
    true
}
