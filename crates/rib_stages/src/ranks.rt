//! The ranks of the routes to each prefix, and the choice between them.

ghost use Rattle.std.specs.Prelude.{◌≡◌, ◌↔◌, [], Some, None, IsTrue, OnOk, OnErr};
ghost use Rattle.std.specs.FinMap as map;
ghost use Rattle.bgp_types.specs.Prefixes.{PrefixValue};
ghost use Rattle.decision_core.specs.Choice.{choice};
ghost use Rattle.decision_groups.specs.Order.{IsInOrder, without_source};
ghost use Rattle.rib_stages.specs.Ranks.{ranks_at, ranks_with, SetsRank, MarksRank, MarksAtMost};

use bgp_types::{From, NoMemory, Prefix, Rank, Table};
use decision_groups::GroupSet;
use loc_rib::LocRib;
use prefix_trie::TrieTable;
use std::alloc::Global;

/// The ranks of each prefix that has routes.
pub(crate) type Groups = TrieTable<GroupSet>;

/// The ranks of the routes to each prefix, the best routes, and the dirty prefixes.
#[derive(Drop)]
pub(crate) struct Choices {
    pub alloc: Global,
    pub groups: Groups,
    pub loc: LocRib,
}

impl Choices {
    /// Returns no rank, no best route and no dirty prefix.
    pub fn new(alloc: Global) -> Choices
        ensures groups { result.groups.contents ≡ map.empty }
        ensures loc { result.loc ≡ record { best = map.empty; dirty = map.empty } }
    {
        Choices {
            alloc,
            groups: TrieTable::new(alloc),
            loc: LocRib::new(alloc),
        }
    }

    /// Sets the rank that a prefix has from a source, and marks the prefix as dirty. If memory runs
    /// out, the prefix may be dirty, and no rank changes.
    pub fn set_rank(&mut self, prefix: Prefix, from: From, rank: Rank) -> Result<(), NoMemory>
        ensures ok { OnOk result (MarksRank self.old prefix from (Some rank) self.new) }
        ensures err { OnErr result (MarksAtMost self.old prefix self.new) }
    {
        self.loc.mark(prefix)?;
        set_rank(&mut self.groups, self.alloc, prefix, from, rank)
    }

    /// Removes the rank that a prefix has from a source, and marks the prefix as dirty. If memory runs
    /// out, nothing changes.
    pub fn drop_rank(&mut self, prefix: Prefix, from: From) -> Result<(), NoMemory>
        ensures ok { OnOk result (MarksRank self.old prefix from None self.new) }
        ensures err { OnErr result (self.new ≡ self.old) }
    {
        self.loc.mark(prefix)?;
        drop_rank(&mut self.groups, prefix, from);
        Ok(())
    }
}

/// Sets the rank that a prefix has from a source. If memory runs out, no rank changes.
fn set_rank(
    groups: &mut Groups,
    alloc: Global,
    prefix: Prefix,
    from: From,
    rank: Rank,
) -> Result<(), NoMemory>
    ensures ok { OnOk result (SetsRank groups.old.contents prefix from (Some rank) groups.new.contents) }
    ensures err { OnErr result (ranks_at groups.new.contents ≡ ranks_at groups.old.contents) }
{
    if let Some(outcome) = groups.change(prefix, |set| set.set(from, rank)) {
        return outcome;
    }
    let mut set = GroupSet::new(alloc);
    set.set(from, rank)?;
    match groups.set(prefix, set) {
        Ok(_) => Ok(()),
        Err(_) => Err(NoMemory),
    }
}

/// Removes a rank from a prefix's ranks, and returns whether none is left.
fn take_rank(set: &mut GroupSet, from: From) -> bool
    ensures left { set.new ≡ without_source set.old from }
    ensures empty { IsTrue result ↔ (set.new ≡ []) }
    ensures in_order { IsInOrder set.old }
{
    set.remove(from);
    set.is_empty()
}

/// Removes the rank that a prefix has from a source. A prefix whose last rank is removed is removed
/// too.
fn drop_rank(groups: &mut Groups, prefix: Prefix, from: From)
    ensures { SetsRank groups.old.contents prefix from None groups.new.contents }
{
    let Some(is_empty) = groups.change(prefix, |set| take_rank(set, from)) else {
        return;
    };
    if is_empty {
        groups.remove(prefix);
    }
}

/// Returns the source of the chosen one of a prefix's ranks.
pub(crate) fn best_from(groups: &Groups, prefix: Prefix) -> Option<From>
    ensures choice { result ≡ choice (ranks_at groups.now.contents prefix) }
    ensures in_order { IsInOrder (ranks_at groups.now.contents prefix) }
{
    match groups.get(prefix) {
        Some(set) => set.best(),
        None => None,
    }
}
