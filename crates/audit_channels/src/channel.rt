//! The items from one actor to another.

ghost use Rattle.std.specs.Prelude.{◌≡◌, ◌↔◌, ◌++◌, ◌∷◌, [], IsTrue, IfNone, IfSome, OnOk, option_copied, slice_get};

use bgp_session::Capsule;
use graft_edge::NoMemory;
use graft_steps::Item;
use ring_net::{Stamp, Stamped};
use std::alloc::Global;
use std::collections::VecDeque;

/// The items on their way from one actor to another, each with its stamp, in the order in which they were sent.
#[derive(Drop)]
pub struct Channel {
    queue: VecDeque<Stamped<Item<Capsule>>>,
}

impl Channel {
    ghost use Rattle.audit_channels.specs.Channels.{parcels_in, stamps_in};

    /// Returns a channel with nothing on its way.
    pub fn new(alloc: Global) -> Channel
        ensures parcels { parcels_in result ≡ [] }
        ensures stamps { stamps_in result ≡ [] }
    {
        Channel {
            queue: VecDeque::new(alloc),
        }
    }

    /// Returns whether nothing is on its way.
    pub fn is_empty(&self) -> bool
        ensures { IsTrue result ↔ (parcels_in self.now ≡ []) }
    {
        self.queue.is_empty()
    }

    /// Returns the next item, if there is one.
    pub fn first(&self) -> Option<&Item<Capsule>>
        ensures { option_copied result ≡ slice_get (parcels_in self.now) 0 }
    {
        let next = self.queue.front()?;
        Some(&next.item)
    }

    /// Returns the stamp of the next item, if there is one.
    pub fn first_stamp(&self) -> Option<Stamp>
        ensures { result ≡ slice_get (stamps_in self.now) 0 }
    {
        let next = self.queue.front()?;
        Some(next.stamp)
    }

    /// Takes the next item out, if there is one.
    pub fn take(&mut self) -> Option<Item<Capsule>>
        ensures some { IfSome result (λ item. parcels_in self.old ≡ item ∷ parcels_in self.new) }
        ensures none { IfNone result ((parcels_in self.old ≡ []) × (parcels_in self.new ≡ [])) }
        ensures stamps { IfSome result (λ _. (stamp : _) × (stamps_in self.old ≡ stamp ∷ stamps_in self.new)) }
    {
        let Stamped { item, .. } = self.queue.pop_front()?;
        Some(item)
    }

    /// Puts an item at the end.
    pub fn put(&mut self, stamp: Stamp, item: Item<Capsule>) -> Result<(), NoMemory>
        ensures parcels { OnOk result (parcels_in self.new ≡ parcels_in self.old ++ item ∷ []) }
        ensures stamps { OnOk result (stamps_in self.new ≡ stamps_in self.old ++ stamp ∷ []) }
    {
        match self.queue.push_back(Stamped { stamp, item }) {
            Ok(()) => Ok(()),
            Err(_) => Err(NoMemory),
        }
    }
}
