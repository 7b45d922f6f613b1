//! The ranks of the routes to one prefix.

ghost use Rattle.std.specs.Prelude.{◌≡◌, ◌↔◌, [], length, IsTrue, IsSome, IsNone, OnOk, OnErr};
ghost use Rattle.std.specs.Option.{option_copied};
ghost use Rattle.decision_core.specs.Choice.{choice};
ghost use Rattle.decision_groups.specs.Order.{IsInOrder, rank_at, with_rank, without_source};

use crate::groups::Groups;
use crate::ranks::Ranks;
use bgp_types::{From, NoMemory, Rank};
use std::alloc::Global;
use std::marker::Model;

/// The ranks of the routes to one prefix, at most one for each `From`. Contracts see the list of them
/// in the order of candidates: the own network, then peerings in ascending order of number, then
/// routers in ascending order of number. They are kept in groups by neighbour AS, each with its
/// champion, so that a change of one rank looks through only the group of its neighbour AS. If a rank
/// replaces one of another neighbour AS, the group of that AS is looked through too.
#[derive(Drop)]
pub struct GroupSet {
    alloc: Global,
    ranks: Ranks,
    groups: Groups,
}

impl Model for GroupSet {
    ghost use Rattle.std.specs.Prelude.{List};
    ghost use Rattle.decision_groups.specs.Order.{RankedSource};
    ghost use Rattle.decision_groups.specs.Groups.{AreGroupsOf};

    ghost Value = { List RankedSource };

    ghost view = { λ s. s.ranks };

    ghost invariant = { λ s. AreGroupsOf s.ranks s.groups };
}

impl GroupSet {
    /// Returns a set of no ranks.
    pub fn new(alloc: Global) -> GroupSet
        ensures { result ≡ [] }
    {
        GroupSet {
            alloc,
            ranks: Ranks::new(alloc),
            groups: Groups::new(alloc),
        }
    }

    pub fn len(&self) -> usize
        ensures len { result ≡ length self.now }
        ensures in_order { IsInOrder self.now }
    {
        self.ranks.len()
    }

    pub fn is_empty(&self) -> bool
        ensures { IsTrue result ↔ (self.now ≡ []) }
    {
        self.ranks.is_empty()
    }

    /// Returns the rank of the route from this source.
    pub fn get(&self, from: From) -> Option<&Rank>
        ensures { option_copied result ≡ rank_at self.now from }
    {
        self.ranks.get(from)
    }

    /// Sets the rank of the route from a source, replacing the one that it had before. If memory runs
    /// out, nothing changes.
    pub fn set(&mut self, from: From, rank: Rank) -> Result<(), NoMemory>
        ensures ok { OnOk result (self.new ≡ with_rank self.old from rank) }
        ensures err { OnErr result (self.new ≡ self.old) }
        ensures in_order { IsInOrder self.new }
    {
        self.groups.join(self.alloc, from, rank)?;
        match self.ranks.insert(from, rank) {
            Ok(Some(old)) => {
                if old.neighbour != rank.neighbour {
                    self.groups.leave(from, old.neighbour);
                }
                Ok(())
            }
            Ok(None) => Ok(()),
            Err(no_memory) => {
                self.groups.leave(from, rank.neighbour);
                Err(no_memory)
            }
        }
    }

    /// Removes the rank of the route from this source, and returns whether there was one. It allocates
    /// nothing.
    pub fn remove(&mut self, from: From) -> bool
        ensures removed { IsTrue result ↔ IsSome (rank_at self.old from) }
        ensures left { self.new ≡ without_source self.old from }
        ensures in_order { IsInOrder self.new }
        ensures was_in_order { IsInOrder self.old }
    {
        match self.ranks.remove(from) {
            Some(held) => {
                self.groups.leave(from, held.neighbour);
                true
            }
            None => false,
        }
    }

    /// Returns the source of the route that the nine rules of the decision process choose (RFC 4271,
    /// section 9.1.2.2). Of the routes that all nine leave, which are equal by them, it is the first in
    /// the order of candidates. A route that is equal to it but was eliminated, by the MED of a third
    /// route, may stand before it. It allocates nothing.
    pub fn best(&self) -> Option<From>
        ensures empty { IsNone result ↔ (self.now ≡ []) }
        ensures choice { result ≡ choice self.now }
        ensures in_order { IsInOrder self.now }
    {
        self.groups.best_champion().map(|(from, _)| from)
    }
}
