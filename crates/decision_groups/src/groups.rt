//! The groups of all neighbour ASes.

ghost use Rattle.std.specs.Prelude.{◌≡◌, ℕ, ◌==◌, Some, [], OnOk, OnErr, IfOk, IfErr, if◌then◌else◌, filter_map};
ghost use Rattle.std.specs.Ordering.{nat_cmp};
ghost use Rattle.std.specs.Map.{values_of};
ghost use Rattle.decision_core.specs.Search.{best_by};
ghost use Rattle.decision_groups.specs.Order.{with_rank, without_source};
ghost use Rattle.decision_groups.specs.Groups.{NumberedGroup, AreNumbered, group_at, members_of, some_members};
ghost use Rattle.decision_groups.specs.Groups.{champion_of, comes_first as comes_first_lem, better_of};
ghost use Rattle.decision_groups.specs.Indices.{IsIndexOfKey, IsGapForKey};

use crate::group::Group;
use bgp_types::{From, NoMemory, Rank};
use decision_core::{is_nearer, leads};
use std::alloc::Global;
use std::marker::Model;

/// The groups of the neighbour ASes that have a rank, in ascending order of the neighbour's number.
#[derive(Drop)]
pub(crate) struct Groups {
    entries: Vec<(u32, Group)>,
}

impl Model for Groups {
    ghost use Rattle.std.specs.Prelude.{List};
    ghost use Rattle.decision_groups.specs.Groups.{NumberedGroup, AreNumbered};

    ghost Value = { List NumberedGroup };

    ghost view = { λ g. g.entries.items };

    ghost invariant = { λ g. AreNumbered g.entries.items };
}

/// Whether a champion is better than another by the rules except MED, or equal by them and earlier in
/// the order of candidates. Champions have different neighbours, so their MEDs aren't compared.
fn comes_first(a: &(From, Rank), b: &(From, Rank)) -> bool
    ensures { result ≡ comes_first_lem a.now b.now }
{
    if leads(&a.1, &b.1) {
        return true;
    }
    if leads(&b.1, &a.1) {
        return false;
    }
    if is_nearer(&a.1, &b.1) {
        return true;
    }
    !is_nearer(&b.1, &a.1) && a.0 < b.0
}

/// Returns the better one of the best so far and one more champion.
fn better(best: Option<(From, Rank)>, champion: Option<(From, Rank)>) -> Option<(From, Rank)>
    ensures { result ≡ better_of best champion }
{
    match (best, champion) {
        (Some(best), Some(champion)) if !comes_first(&champion, &best) => Some(best),
        (best, None) => best,
        (_, champion) => champion,
    }
}

// Returns the index of a neighbour AS' group, or as the error the index where it would be inserted.
fn index_of(entries: &[(u32, Group)], neighbour: u32) -> Result<usize, usize>
    requires { AreNumbered entries.now }
    ensures found { IfOk result (IsIndexOfKey nat_cmp neighbour entries.now) }
    ensures absent { IfErr result (IsGapForKey nat_cmp neighbour entries.now) }
{
    entries.binary_search_by_key(&neighbour, |entry| entry.0)
}

impl Groups {
    /// Returns no groups. It allocates nothing before the first.
    pub fn new(alloc: Global) -> Groups
        ensures { result ≡ [] }
    {
        Groups {
            entries: Vec::new(alloc),
        }
    }

    /// Adds a rank to the group of its neighbour AS, which is created if it doesn't exist. If memory
    /// runs out, no group changes.
    pub fn join(&mut self, alloc: Global, from: From, rank: Rank) -> Result<(), NoMemory>
        ensures ok { OnOk result
            ((n : ℕ) → group_at self.new n ≡ (if n == rank.neighbour then Some (with_rank (members_of self.old n) from rank) else group_at self.old n)) }
        ensures err { OnErr result ((n : ℕ) → group_at self.new n ≡ group_at self.old n) }
    {
        match index_of(&self.entries, rank.neighbour) {
            Ok(at) => self.entries[at].1.set(from, rank),
            Err(at) => {
                let group = Group::one(alloc, from, rank)?;
                self.entries.insert(at, (rank.neighbour, group))?;
                Ok(())
            }
        }
    }

    /// Removes a rank from a neighbour AS' group. A group whose last rank is removed is removed too.
    pub fn leave(&mut self, from: From, neighbour: u32)
        ensures { (n : ℕ) → group_at self.new n ≡ (if n == neighbour then some_members (without_source (members_of self.old n) from) else group_at self.old n) }
    {
        let Ok(at) = index_of(&self.entries, neighbour) else {
            return;
        };
        let group = &mut self.entries[at].1;
        group.remove(from);
        if group.is_empty() {
            self.entries.remove(at);
        }
    }

    /// Returns the champion that comes before all others.
    pub fn best_champion(&self) -> Option<(From, Rank)>
        ensures best { result ≡ best_by comes_first_lem (filter_map champion_of (values_of self.now)) }
        ensures numbered { AreNumbered self.now }
    {
        let mut best: Option<(From, Rank)> = None;
        for (_, group) in &self.entries {
            best = better(best, group.champion());
        }
        best
    }
}
