//! The items from one actor to another.

ghost use Rattle.std.specs.Prelude.{◌≡◌, ◌↔◌, ◌++◌, ◌∷◌, [], IsTrue, IfNone, IfSome, OnOk, OnErr, option_copied, slice_get};

use graft_edge::NoMemory;
use std::alloc::Global;
use std::collections::VecDeque;

/// The items on their way from one actor to another, in the order in which they were sent.
#[derive(Drop)]
pub struct Channel<T> {
    queue: VecDeque<T>,
}

impl<T> Channel<T> {
    ghost use Rattle.item_channels.specs.Channels.{items_in};

    /// Returns a channel with nothing on its way.
    pub fn new(alloc: Global) -> Channel<T>
        ensures { items_in result ≡ [] }
    {
        Channel {
            queue: VecDeque::new(alloc),
        }
    }

    /// Returns whether nothing is on its way.
    pub fn is_empty(&self) -> bool
        ensures { IsTrue result ↔ (items_in self.now ≡ []) }
    {
        self.queue.is_empty()
    }

    /// Returns the next item, if there is one.
    pub fn first(&self) -> Option<&T>
        ensures { option_copied result ≡ slice_get (items_in self.now) 0 }
    {
        self.queue.front()
    }

    /// Takes the next item out, if there is one.
    pub fn take(&mut self) -> Option<T>
        ensures some { IfSome result (λ item. items_in self.old ≡ item ∷ items_in self.new) }
        ensures none { IfNone result ((items_in self.old ≡ []) × (items_in self.new ≡ [])) }
    {
        self.queue.pop_front()
    }
}

impl<T: Drop> Channel<T> {
    ghost use Rattle.item_channels.specs.Channels.{items_in};

    /// Puts an item at the end. If memory runs out, nothing changes.
    pub fn put(&mut self, item: T) -> Result<(), NoMemory>
        ensures ok { OnOk result (items_in self.new ≡ items_in self.old ++ item ∷ []) }
        ensures err { OnErr result (items_in self.new ≡ items_in self.old) }
    {
        Ok(self.queue.push_back(item)?)
    }
}
