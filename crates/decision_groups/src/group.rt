//! The ranks of one neighbour AS.

ghost use Rattle.std.specs.Prelude.{◌≡◌, ◌↔◌, [], ◌∷◌, IsTrue, IfOk, OnOk, OnErr, IsNone};
ghost use Rattle.decision_groups.specs.Order.{with_rank, without_source};
ghost use Rattle.decision_groups.specs.Groups.{champion_of};

use crate::ranks::Ranks;
use bgp_types::{From, NoMemory, Rank};
use std::alloc::Global;
use std::marker::Model;

/// The ranks of the routes from one neighbour AS, and the champion among them, which no other one
/// beats.
#[derive(Drop)]
pub(crate) struct Group {
    members: Ranks,
    champion: Option<(From, Rank)>,
}

impl Model for Group {
    ghost use Rattle.std.specs.Prelude.{List, ◌≡◌};
    ghost use Rattle.decision_groups.specs.Order.{RankedSource};
    ghost use Rattle.decision_groups.specs.Groups.{champion_of};

    ghost Value = { List RankedSource };

    ghost view = { λ g. g.members };

    ghost invariant = { λ g. g.champion ≡ champion_of g.members };
}

impl Group {
    /// Returns the group of one rank.
    pub fn one(alloc: Global, from: From, rank: Rank) -> Result<Group, NoMemory>
        ensures { IfOk result (λ group. group ≡ (from, rank) ∷ []) }
    {
        Ok(Group {
            members: Ranks::one(alloc, from, rank)?,
            champion: Some((from, rank)),
        })
    }

    pub fn is_empty(&self) -> bool
        ensures { IsTrue result ↔ (self.now ≡ []) }
    {
        self.members.is_empty()
    }

    /// Returns the first of the ranks that no other one beats.
    pub fn champion(&self) -> Option<(From, Rank)>
        ensures { result ≡ champion_of self.now }
    {
        self.champion
    }

    /// Sets the rank of a source, and finds the champion again. If memory runs out, nothing changes.
    pub fn set(&mut self, from: From, rank: Rank) -> Result<(), NoMemory>
        ensures ok { OnOk result (self.new ≡ with_rank self.old from rank) }
        ensures err { OnErr result (self.new ≡ self.old) }
    {
        self.members.insert(from, rank)?;
        self.champion = self.members.champion();
        Ok(())
    }

    /// Removes the rank of a source, and finds the champion again.
    pub fn remove(&mut self, from: From)
        ensures { self.new ≡ without_source self.old from }
    {
        self.members.remove(from);
        self.champion = self.members.champion();
    }
}
