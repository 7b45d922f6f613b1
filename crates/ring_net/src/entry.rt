//! Entries of journals, and stamps of items.

ghost use Rattle.std.specs.Prelude.{◌≡◌, IfOk};

use graft_edge::{NoMemory, TryCopy};

/// One event of one actor. The meaning of its kind and its arguments is the actor's.
#[derive(Clone, Copy, Debug, PartialEq, Eq, Hash)]
pub struct JournalEntry {
    /// One more than the greater of the actor's clock and the stamp of the item that the event took.
    pub clock: u64,
    pub actor: u16,
    pub kind: u16,
    pub a: u32,
    pub b: u32,
    pub c: u32,
}

impl TryCopy for JournalEntry {
    fn copy(&self) -> Result<JournalEntry, NoMemory> {
        Ok(*self)
    }
}

/// The clock of the event that sent an item.
#[derive(Clone, Copy, Debug, PartialEq, Eq, PartialOrd, Ord, Hash)]
pub struct Stamp(pub u64);

/// An item in flight, with its stamp.
#[derive(Debug, Drop)]
pub struct Stamped<I> {
    pub stamp: Stamp,
    pub item: I,
}
