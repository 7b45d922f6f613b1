//! What a net is made from, and what remains of it.

ghost use Rattle.std.specs.Prelude.{◌≡◌, length};
ghost use Rattle.ring_net.specs.Journals.{AreJournals};

use crate::actor::Actor;
use crate::entry::JournalEntry;
use graft_edge::{Items, NoMemory, TryCopy};
use std::marker::Model;

/// Actors, by number.
pub type Actors<A> = Items<A>;

/// Entries, in order.
pub type Journal = Items<JournalEntry>;

/// The journals of actors, by number. The entries of each are its own actor's, and their clocks ascend.
#[derive(Debug, Drop)]
pub struct Journals {
    list: Items<Journal>,
}

impl Model for Journals {
    ghost use Rattle.std.specs.Prelude.{List};
    ghost use Rattle.ring_net.specs.declared.entry.JournalEntry.{JournalEntry};
    ghost use Rattle.ring_net.specs.Journals.{AreJournals};

    ghost Value = { List (List JournalEntry) };

    ghost view = { λ journals. journals.list };

    ghost invariant = { λ journals. AreJournals journals.list };
}

impl Journals {
    /// Returns the journals of this list. It allocates nothing.
    pub fn from_items(list: Items<Journal>) -> Journals
        requires { AreJournals list }
        ensures { result ≡ list }
    {
        Journals { list }
    }

    /// Returns the list of the journals. It allocates nothing.
    pub fn into_items(self) -> Items<Journal>
        ensures value { result ≡ self }
        ensures journals { AreJournals self }
    {
        let Journals { list } = self;
        list
    }

    pub fn as_slice(&self) -> &[Journal]
        ensures value { result.now ≡ self.now }
        ensures journals { AreJournals self.now }
    {
        self.list.as_slice()
    }
}

impl TryCopy for Journals {
    fn copy(&self) -> Result<Journals, NoMemory> {
        Ok(Journals {
            list: self.list.copy()?,
        })
    }
}

/// The length of each journal, by the number of the actor.
pub type Mark = Items<u64>;

/// Marks, in order.
pub type Marks = Items<Mark>;

/// The items that are left in the channel of one edge, those of the ring first.
#[derive(Debug, Drop)]
pub struct Left<I> {
    pub from: u16,
    pub to: u16,
    pub items: Items<I>,
}

/// What is left in each channel, in the order of the edges.
pub type Lefts<I> = Items<Left<I>>;

/// What remains of a net.
#[derive(Drop)]
pub struct Parts<A: Actor> {
    pub actors: Actors<A>,
    pub journals: Journals,
    pub marks: Marks,
    pub left: Lefts<A::Item>,
}
