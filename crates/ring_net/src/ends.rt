//! The ends of the rings of one cell.

ghost use Rattle.std.specs.Prelude.{◌≡◌, ◌≢◌, ◌==◌, ℕ, [], None, Some, if◌then◌else◌, slice_index_or, OnOk, OnErr};
ghost use Rattle.ring_net.specs.Peers.{ListsIndices, ListsFrom-prop, Ascends, AddsPeer};

use graft_edge::NoMemory;
use std::alloc::Global;

/// Ends of rings, at most one for each peer, found by the peer's number. Walking over the peers that
/// have one costs nothing for those that have none.
#[derive(Drop)]
pub struct Ends<T> {
    pub(crate) slots: Vec<Option<T>>,
    // These include all indices where an end is, in ascending order.
    pub(crate) peers: Vec<usize>,
    ghost listed: { ListsIndices slots.items peers.items } by { ListsFrom-prop slots.items 0 peers.items },
}

/// Adds a peer to peers in ascending order, unless it is there. If memory runs out, nothing changes.
fn add_peer(peers: &mut Vec<usize>, peer: usize) -> Result<(), NoMemory>
    requires { Ascends peers.old.items }
    ensures ok { OnOk result (AddsPeer peer peers.old.items peers.new.items) }
    ensures err { OnErr result (peers.new.items ≡ peers.old.items) }
{
    match peers.binary_search(&peer) {
        Ok(_) => Ok(()),
        Err(index) => Ok(peers.insert(index, peer)?),
    }
}

impl<T: Drop> Ends<T> {
    /// Returns a set of no ends.
    pub(crate) fn new(alloc: Global) -> Ends<T>
        ensures { result.slots.items ≡ [] }
    {
        Ends {
            slots: Vec::new(alloc),
            peers: Vec::new(alloc),
        }
    }

    /// Puts the end of a ring at this peer's index.
    pub(crate) fn put(&mut self, peer: usize, end: T) -> Result<(), NoMemory>
        ensures { OnOk result
            ((x : ℕ) → slice_index_or self.new.slots.items x None ≡ (if x == peer then Some end else slice_index_or self.old.slots.items x None)) }
    {
        while self.slots.len() <= peer {
            self.slots.push(None)?;
        }
        add_peer(&mut self.peers, peer)?;
        self.slots[peer] = Some(end);
        Ok(())
    }

    /// Removes and returns the end at this peer's index.
    pub(crate) fn take(&mut self, peer: usize) -> Option<T>
        ensures end { result ≡ slice_index_or self.old.slots.items peer None }
        ensures others { (x : ℕ) → x ≢ peer → slice_index_or self.new.slots.items x None ≡ slice_index_or self.old.slots.items x None }
    {
        if peer < self.slots.len() {
            self.slots[peer].take()
        } else {
            None
        }
    }
}
