//! Ranks by the sources of their routes.

ghost use Rattle.std.specs.Prelude.{◌≡◌, ◌↔◌, [], ◌∷◌, IsTrue, IfOk, IfErr, OnErr, OnOk, None, length};
ghost use Rattle.std.specs.Option.{option_copied};
ghost use Rattle.decision_groups.specs.Order.{RankedSource, from_order, IsInOrder, rank_at, with_rank, without_source};
ghost use Rattle.decision_groups.specs.Groups.{champion_of, beats_champion as beats_champion_lem, beats_in_group};
ghost use Rattle.decision_groups.specs.Indices.{IsIndexOfKey, IsGapForKey};

use bgp_types::{From, NoMemory, Rank};
use decision_core::{is_nearer, leads};
use std::alloc::Global;
use std::marker::Model;
use std::mem;

/// At most one rank for each `From`, in order of `From`.
#[derive(Drop)]
pub(crate) struct Ranks {
    entries: Vec<(From, Rank)>,
}

impl Model for Ranks {
    ghost use Rattle.std.specs.Prelude.{List};
    ghost use Rattle.decision_groups.specs.Order.{RankedSource, IsInOrder};

    ghost Value = { List RankedSource };

    ghost view = { λ s. s.entries.items };

    ghost invariant = { λ s. IsInOrder s.entries.items };
}

/// Whether the first rank beats the second by the nine rules, where both are from the same neighbour
/// AS. Their MEDs are compared, so that the nine rules are one order.
fn beats(a: &Rank, b: &Rank) -> bool
    ensures { result ≡ beats_in_group a.now b.now }
{
    if leads(a, b) {
        return true;
    }
    if leads(b, a) {
        return false;
    }
    if a.med != b.med {
        return a.med < b.med;
    }
    is_nearer(a, b)
}

/// Whether a rank beats that of the champion so far.
fn beats_champion(champion: &Option<(From, Rank)>, rank: &Rank) -> bool
    ensures { result ≡ beats_champion_lem champion.now rank.now }
{
    match champion {
        Some((_, champion)) => beats(rank, champion),
        None => true,
    }
}

// Returns the index of the rank from this source, or as the error the index where it would be inserted.
fn index_of(entries: &[(From, Rank)], from: From) -> Result<usize, usize>
    requires { IsInOrder entries.now }
    ensures found { IfOk result (IsIndexOfKey from_order from entries.now) }
    ensures absent { IfErr result (IsGapForKey from_order from entries.now) }
{
    entries.binary_search_by_key(&from, |entry| entry.0)
}

impl Ranks {
    /// Returns a list of no ranks. It allocates nothing before the first.
    pub fn new(alloc: Global) -> Ranks
        ensures { result ≡ [] }
    {
        Ranks {
            entries: Vec::new(alloc),
        }
    }

    /// Returns a list of one rank, with memory for a second.
    pub fn one(alloc: Global, from: From, rank: Rank) -> Result<Ranks, NoMemory>
        ensures { IfOk result (λ ranks. ranks ≡ (from, rank) ∷ []) }
    {
        let mut entries = Vec::with_capacity(alloc, 2)?;
        entries.push((from, rank))?;
        Ok(Ranks { entries })
    }

    pub fn len(&self) -> usize
        ensures len { result ≡ length self.now }
        ensures in_order { IsInOrder self.now }
    {
        self.entries.as_slice().len()
    }

    pub fn is_empty(&self) -> bool
        ensures { IsTrue result ↔ (self.now ≡ []) }
    {
        self.entries.as_slice().is_empty()
    }

    pub fn get(&self, from: From) -> Option<&Rank>
        ensures { option_copied result ≡ rank_at self.now from }
    {
        match index_of(&self.entries, from) {
            Ok(at) => Some(&self.entries[at].1),
            Err(_) => None,
        }
    }

    /// Sets the rank of a source, and returns the one that it replaces. Memory can run out only if
    /// there was none from this source; then nothing changes.
    pub fn insert(&mut self, from: From, rank: Rank) -> Result<Option<Rank>, NoMemory>
        ensures replaced { IfOk result (λ old. old ≡ rank_at self.old from) }
        ensures ok { OnOk result (self.new ≡ with_rank self.old from rank) }
        ensures absent { OnErr result (rank_at self.old from ≡ None) }
        ensures err { OnErr result (self.new ≡ self.old) }
        ensures in_order { IsInOrder self.new }
    {
        match index_of(&self.entries, from) {
            Ok(at) => Ok(Some(mem::replace(&mut self.entries[at].1, rank))),
            Err(at) => {
                self.entries.insert(at, (from, rank))?;
                Ok(None)
            }
        }
    }

    /// Removes the rank of a source, and returns it. It allocates nothing.
    pub fn remove(&mut self, from: From) -> Option<Rank>
        ensures removed { result ≡ rank_at self.old from }
        ensures left { self.new ≡ without_source self.old from }
        ensures in_order { IsInOrder self.new }
    {
        match index_of(&self.entries, from) {
            Ok(at) => Some(self.entries.remove(at).1),
            Err(_) => None,
        }
    }

    /// Returns the first of the ranks that no other one beats, where all are from one neighbour AS.
    pub fn champion(&self) -> Option<(From, Rank)>
        ensures { result ≡ champion_of self.now }
    {
        let mut champion: Option<(From, Rank)> = None;
        for (from, rank) in &self.entries {
            if beats_champion(&champion, rank) {
                champion = Some((*from, *rank));
            }
        }
        champion
    }
}
