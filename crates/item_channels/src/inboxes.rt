//! The channels of all actors.

ghost use Rattle.std.specs.Prelude.{ℕ, ◌≡◌, ◌↔◌, ◌<◌, ◌++◌, ◌∷◌, [], length, drop, IsTrue, IfOk, OnOk, option_copied, slice_get};
ghost use Rattle.item_channels.specs.Channels.{items_at, items_between, with_items, IsSquare};

use crate::channel::Channel;
use graft_edge::NoMemory;
use std::alloc::Global;

/// The channels that lead to an actor, by the numbers of the actors that they come from.
#[derive(Drop)]
pub struct Inbox<T> {
    pub channels: Vec<Channel<T>>,
}

/// Returns the inbox of one of `count` actors, with nothing on its way.
fn empty_inbox<T: Drop>(alloc: Global, count: usize) -> Result<Inbox<T>, NoMemory>
    ensures count { IfOk result (λ inbox. length inbox.channels.items ≡ count) }
    ensures empty { IfOk result (λ inbox. (n : ℕ) → items_at inbox.channels.items n ≡ []) }
{
    let mut channels = Vec::new(alloc);
    for _n in 0..count {
        channels.push(Channel::new(alloc))?;
    }
    Ok(Inbox { channels })
}

/// Returns the inboxes of `count` actors, with nothing on its way.
pub fn empty_inboxes<T: Drop>(alloc: Global, count: usize) -> Result<Vec<Inbox<T>>, NoMemory>
    ensures square { IfOk result (λ inboxes. IsSquare count inboxes.items) }
    ensures empty { IfOk result (λ inboxes. (a b : ℕ) → items_between inboxes.items a b ≡ []) }
{
    let mut inboxes = Vec::new(alloc);
    for _n in 0..count {
        inboxes.push(empty_inbox(alloc, count)?)?;
    }
    Ok(inboxes)
}

/// Returns the next item on its way from one actor to another, if there is one. Both must be among the actors.
pub fn first<T>(inboxes: &[Inbox<T>], from: usize, to: usize) -> Option<&T>
    requires from { from < length inboxes.now }
    requires to { to < length inboxes.now }
    requires square { IsSquare (length inboxes.now) inboxes.now }
    ensures { option_copied result ≡ slice_get (items_between inboxes.now from to) 0 }
{
    inboxes[to].channels[from].first()
}

/// Takes the next item out that is on its way from one actor to another, if there is one. Both must be among the actors.
pub fn receive<T>(inboxes: &mut [Inbox<T>], from: usize, to: usize) -> Option<T>
    requires from { from < length inboxes.old }
    requires to { to < length inboxes.old }
    requires square { IsSquare (length inboxes.old) inboxes.old }
    ensures square { IsSquare (length inboxes.old) inboxes.new }
    ensures item { result ≡ slice_get (items_between inboxes.old from to) 0 }
    ensures rest { items_between inboxes.new ≡ with_items (items_between inboxes.old) from to (drop 1 (items_between inboxes.old from to)) }
{
    inboxes[to].channels[from].take()
}

/// Sends an item from one actor to another. Both must be among the actors.
pub fn send<T: Drop>(
    inboxes: &mut [Inbox<T>],
    from: usize,
    to: usize,
    item: T,
) -> Result<(), NoMemory>
    requires from { from < length inboxes.old }
    requires to { to < length inboxes.old }
    requires square { IsSquare (length inboxes.old) inboxes.old }
    ensures square { IsSquare (length inboxes.old) inboxes.new }
    ensures sent { OnOk result
        (items_between inboxes.new ≡ with_items (items_between inboxes.old) from to (items_between inboxes.old from to ++ item ∷ [])) }
{
    inboxes[to].channels[from].put(item)
}

/// Returns whether nothing is on its way to an actor.
fn is_empty<T>(inbox: &Inbox<T>) -> bool
    ensures { IsTrue result ↔ ((n : ℕ) → items_at inbox.now.channels.items n ≡ []) }
{
    inbox.channels.iter().all(|channel| channel.is_empty())
}

/// Returns whether nothing is on its way to any actor.
pub fn are_empty<T>(inboxes: &[Inbox<T>]) -> bool
    ensures { IsTrue result ↔ ((a b : ℕ) → items_between inboxes.now a b ≡ []) }
{
    for to in 0..inboxes.len() {
        if !is_empty(&inboxes[to]) {
            return false;
        }
    }
    true
}
