//! A set for prefixes that mostly are added in ascending order, listed, and removed.

ghost use Rattle.std.specs.Prelude.{◌≡◌, None, is_some, IsOk, IsSome, OnErr, OnOk, IfOk};
ghost use Rattle.std.specs.FinMap as map;
ghost use Rattle.bgp_types.specs.Tables.{first_above};
ghost use Rattle.prefix_set.specs.Slots.{lesser_of, with_all};

use crate::run::Run;
use bgp_types::{NoMemory, Prefix, PrefixList, Table};
use prefix_trie::TrieTable;
use std::alloc::Global;
use std::marker::Model;

/// A set of prefixes. Those that are added in ascending order stand in one list. A new prefix that is
/// less than one added earlier goes to a second list, or to a third, so that three sources may come one
/// after the other, each in ascending order. A prefix that fits in no list goes to a trie.
///
/// If all prefixes are added in ascending order, each takes constant time, and so it does if those that
/// are there are added again in that order; else it takes a binary search of each list that it passes.
/// `remove` takes constant time for each list of which the prefix is the first, or is less than that,
/// and else a binary search. `prefixes` takes a step for each prefix if all are in the first list, and
/// `first` takes none beyond those by which a removal passes vacant slots. For what is in the trie,
/// see `TrieTable`. A prefix that is removed from a list keeps its slot there until no prefix of the
/// list is in the set.
#[derive(Drop)]
pub struct PrefixSet {
    alloc: Global,
    first: Run,
    second: Run,
    third: Run,
    // Prefixes that were added too late for the end of a list.
    late: TrieTable<()>,
}

impl Model for PrefixSet {
    ghost use Rattle.std.specs.FinMap as map;
    ghost use base.Stored.{coded_unit};
    ghost use Rattle.bgp_types.specs.Tables.{coded_prefix};
    ghost use Rattle.prefix_set.specs.Slots.{PrefixSet, united};

    ghost Value = { PrefixSet };

    ghost coded = { map.code coded_prefix coded_unit };

    ghost view = { λ s. united s.first (united s.second (united s.third s.late.contents)) };
}

/// Returns the lesser of two prefixes, or the one that there is.
fn lesser(one: Option<Prefix>, other: Option<Prefix>) -> Option<Prefix>
    ensures { result ≡ lesser_of one other }
{
    match (one, other) {
        (Some(one), Some(other)) => Some(if other < one { other } else { one }),
        (one, None) => one,
        (None, other) => other,
    }
}

/// Adds prefixes to a table.
fn add_all(table: &mut TrieTable<()>, prefixes: &[Prefix]) -> Result<(), NoMemory>
    ensures { OnOk result (table.new.contents ≡ with_all table.old.contents prefixes.now) }
{
    for prefix in prefixes {
        let Ok(_) = table.set(*prefix, ()) else {
            return Err(NoMemory);
        };
    }
    Ok(())
}

/// Removes a prefix from a table. Most tables are empty.
fn take_out(table: &mut TrieTable<()>, prefix: Prefix)
    ensures { table.new.contents ≡ map.remove table.old.contents prefix }
{
    if table.len() != 0 {
        table.remove(prefix);
    }
}

impl PrefixSet {
    /// Returns an empty set. It allocates nothing before the first prefix.
    pub fn new(alloc: Global) -> PrefixSet
        ensures { result ≡ map.empty }
    {
        PrefixSet {
            alloc,
            first: Run::new(alloc),
            second: Run::new(alloc),
            third: Run::new(alloc),
            late: TrieTable::new(alloc),
        }
    }

    /// Adds a prefix to the set. If memory runs out, nothing changes.
    pub fn insert(&mut self, prefix: Prefix) -> Result<(), NoMemory>
        ensures ok { OnOk result (self.new ≡ map.insert self.old prefix tt) }
        ensures err { OnErr result (self.new ≡ self.old) }
        // A prefix that is in the set needs no memory.
        ensures present { IsSome (map.get self.old prefix) → IsOk result }
    {
        if self.add(prefix).is_ok() || self.contains(prefix) {
            return Ok(());
        }
        Err(NoMemory)
    }

    /// Adds a prefix to the first list where it fits, or to the trie. If memory runs out,
    /// nothing changes.
    fn add(&mut self, prefix: Prefix) -> Result<(), NoMemory>
        ensures ok { OnOk result (self.new ≡ map.insert self.old prefix tt) }
        ensures err { OnErr result (self.new ≡ self.old) }
    {
        if self.first.add(prefix)? || self.second.add(prefix)? || self.third.add(prefix)? {
            return Ok(());
        }
        match self.late.set(prefix, ()) {
            Ok(_) => Ok(()),
            Err(_) => Err(NoMemory),
        }
    }

    /// Removes a prefix, if it is in the set. It allocates nothing.
    pub fn remove(&mut self, prefix: Prefix)
        ensures { self.new ≡ map.remove self.old prefix }
    {
        self.first.remove(prefix);
        self.second.remove(prefix);
        self.third.remove(prefix);
        take_out(&mut self.late, prefix);
    }

    /// Whether a prefix is in the set.
    pub fn contains(&self, prefix: Prefix) -> bool
        ensures { result ≡ is_some (map.get self.now prefix) }
    {
        self.first.contains(prefix)
            || self.second.contains(prefix)
            || self.third.contains(prefix)
            || self.late.get(prefix).is_some()
    }

    /// Returns the least prefix of the set.
    pub fn first(&self) -> Option<Prefix>
        ensures { result ≡ first_above None (map.keys self.now) }
    {
        let first = self.first.first();
        if self.second.is_empty() && self.third.is_empty() && self.late.len() == 0 {
            return first;
        }
        let late = lesser(self.third.first(), self.late.next_after(None));
        lesser(first, lesser(self.second.first(), late))
    }

    /// Returns the prefixes in ascending order.
    pub fn prefixes(&self) -> Result<PrefixList, NoMemory>
        ensures { IfOk result (λ prefixes. prefixes ≡ map.keys self.now) }
    {
        let first = self.first.prefixes(self.alloc)?;
        if self.second.is_empty() && self.third.is_empty() && self.late.len() == 0 {
            return Ok(first);
        }
        let mut all = TrieTable::new(self.alloc);
        add_all(&mut all, &self.late.prefixes()?)?;
        add_all(&mut all, &self.third.prefixes(self.alloc)?)?;
        add_all(&mut all, &self.second.prefixes(self.alloc)?)?;
        add_all(&mut all, &first)?;
        all.prefixes()
    }

    /// Removes all prefixes. It allocates nothing.
    pub fn clear(&mut self)
        ensures { self.new ≡ map.empty }
    {
        self.first.clear();
        self.second.clear();
        self.third.clear();
        self.late.clear();
    }
}
