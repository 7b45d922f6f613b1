//! Actors, which take items and make events.

ghost use Rattle.std.specs.Prelude.{ℕ, ◌≡◌, ◌↔◌, [], List, Option, IfOk, OnOk, IsTrue};
ghost use Rattle.ring_net.specs.Deeds.{Deed, Makes};
ghost use Rattle.ring_net.specs.Posts.{TookItem, Moved, Pauses, SameEdges};
ghost use Rattle.ring_net.specs.declared.entry.JournalEntry.{JournalEntry};

use crate::post::Post;
use graft_edge::NoMemory;

/// An actor, which takes items and makes events. Each call leads from the old state to the new one by
/// the events that it notes, in order. An event's items are sent after its entry is noted, and before
/// the next entry is. After `NoMemory` nothing is promised about the actor.
pub trait Actor: Drop {
    /// What an actor sends to another.
    type Item: Drop;

    /// The part of a world that an actor is.
    ghost Part: { Type 0 };

    ghost part: { Self → Part };

    /// One event of the actor of this number: the part before, the entry, the item that it takes, the
    /// items that it sends, the part after.
    ghost makes: { ℕ → Part → JournalEntry → Option (ℕ × Self.Item) → List (ℕ × Self.Item) → Part → Type 0 };

    /// What holds of a whole `take`, beside its events: the state before, the sender, the item, the
    /// events, the state after.
    ghost took: { Self → ℕ → Self.Item → List (Deed Self.Item) → Self → Type 0 };

    /// What holds of a whole `turn`.
    ghost turned: { Self → List (Deed Self.Item) → Self → Type 0 };

    /// What holds of a whole `between`.
    ghost paused: { Self → List (Deed Self.Item) → Self → Type 0 };

    /// Takes an item that the actor of number `from` sent. The first event takes the item.
    fn take(
        &mut self,
        from: usize,
        item: Self::Item,
        post: &mut Post<Self::Item>,
    ) -> Result<(), NoMemory>
        ensures took { OnOk result (TookItem part makes took from item self.old post.old self.new post.new) }
        ensures edges { SameEdges post.old post.new };

    /// Does what is done once in a phase, after the takes.
    fn turn(&mut self, post: &mut Post<Self::Item>) -> Result<(), NoMemory>
        ensures turned { OnOk result (Moved part makes turned self.old post.old self.new post.new) }
        ensures edges { SameEdges post.old post.new };

    /// Does what is done at a mark, and returns whether it made an event.
    fn between(&mut self, post: &mut Post<Self::Item>) -> Result<bool, NoMemory>
        ensures paused { IfOk result (Pauses part makes paused self.old post.old self.new post.new) }
        ensures edges { SameEdges post.old post.new };
}
