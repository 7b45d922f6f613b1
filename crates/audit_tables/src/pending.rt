//! What is to be told on a session, in groups of prefixes that are told the same.

ghost use Rattle.std.specs.Prelude.{◌≡◌, ◌<◌, ◌↔◌, IsTrue, IfOk, IfSome, IfNone, OnOk, drop, length};
ghost use Rattle.bgp_types.specs.Prefixes.{PrefixValue};
ghost use Rattle.update_plan.specs.Plans.{AreWholeBatches};
ghost use Rattle.audit_tables.specs.Groups.{AddsGroup, AreFirstAlike, AreGroups, IsFirstOf, IsPending, LosesFirst, Telling, prefixes_of};

use bgp_types::{Attrs, Items, NoMemory, Prefix, Table, TryCopy};
use prefix_trie::TrieTable;
use std::alloc::Global;
use update_plan::Batch;

/// Prefixes that are to be told the same, or of which it is to be told that there is no route: in descending order, so
/// that the least is the last.
#[derive(Drop)]
pub struct Group {
    pub(crate) attrs: Option<Attrs>,
    pub(crate) prefixes: Vec<Prefix>,
}

/// What is to be told on a session: a group for each value, by the group's least prefix.
///
/// To find it, each due prefix is visited once. Each UPDATE then takes a descent to the least of all prefixes, and time
/// in proportion to its own prefixes, however many are pending.
#[derive(Drop)]
pub struct Pending {
    alloc: Global,
    groups: TrieTable<Group>,
}

/// Returns what the UPDATE of a batch tells as a group.
fn group_of(batch: Batch) -> Group
    ensures attrs { result.attrs ≡ batch.attrs }
    ensures prefixes { prefixes_of result ≡ batch.prefixes }
{
    let Batch { attrs, prefixes } = batch;
    let mut prefixes = prefixes.into_vec();
    prefixes.reverse();
    Group { attrs, prefixes }
}

/// Returns a copy of attributes, if there are any.
fn attrs_of(attrs: &Option<Attrs>) -> Result<Option<Attrs>, NoMemory>
    ensures { IfOk result (λ copy. copy ≡ attrs.now) }
{
    match attrs {
        Some(attrs) => Ok(Some(attrs.copy()?)),
        None => Ok(None),
    }
}

/// Adds a group by its least prefix, if it has prefixes.
fn add_group(groups: &mut TrieTable<Group>, group: Group) -> Result<(), NoMemory>
    ensures { OnOk result (AddsGroup group groups.old.contents groups.new.contents) }
{
    let Some(first) = group.prefixes.last().copied() else {
        return Ok(());
    };
    match groups.set(first, group) {
        Ok(_) => Ok(()),
        Err(_) => Err(NoMemory),
    }
}

/// Returns the first `count` prefixes of a group, if it has as many.
fn first_of(alloc: Global, group: &Group, count: usize) -> Result<Option<Batch>, NoMemory>
    ensures some { IfOk result (λ answer. IfSome answer (λ batch. IsFirstOf count group.now batch)) }
    ensures none { IfOk result (λ answer. IfNone answer (length (prefixes_of group.now) < count)) }
{
    let Some(later) = group.prefixes.len().checked_sub(count) else {
        return Ok(None);
    };
    let attrs = attrs_of(&group.attrs)?;
    let mut prefixes = Vec::from_slice(alloc, &group.prefixes.as_slice()[later..])?;
    prefixes.reverse();
    Ok(Some(Batch {
        attrs,
        prefixes: Items::from_vec(prefixes),
    }))
}

/// Returns the group without its first `count` prefixes, if it has as many.
fn without_first(group: Group, count: usize) -> Option<Group>
    ensures some { IfSome result (λ left. (left.attrs ≡ group.attrs) × (prefixes_of left ≡ drop count (prefixes_of group))) }
    ensures none { IfNone result (length (prefixes_of group) < count) }
{
    let Group {
        attrs,
        mut prefixes,
    } = group;
    let later = prefixes.len().checked_sub(count)?;
    prefixes.truncate(later);
    Some(Group { attrs, prefixes })
}

impl Pending {
    /// Returns what is to be told by these batches, each of which has all prefixes that are told its value.
    pub(crate) fn new(alloc: Global, batches: Items<Batch>) -> Result<Pending, NoMemory>
        ensures { (telling : Telling) → AreWholeBatches (IsPending telling) telling.to_tell batches
            → IfOk result (λ pending. AreGroups (IsPending telling) telling.to_tell pending.groups.contents) }
    {
        let mut groups = TrieTable::new(alloc);
        for batch in batches.into_vec() {
            add_group(&mut groups, group_of(batch))?;
        }
        Ok(Pending { alloc, groups })
    }

    /// Returns whether nothing is to be told.
    pub(crate) fn is_empty(&self) -> bool
        ensures { (telling : Telling) → AreGroups (IsPending telling) telling.to_tell self.now.groups.contents
            → IsTrue result ↔ ((x : PrefixValue) → ¬ IsPending telling x) }
    {
        self.groups.len() == 0
    }

    /// Returns the first `count` prefixes that are to be told the same as the least of all, if there are as many.
    pub(crate) fn batch(&self, count: usize) -> Result<Option<Batch>, NoMemory>
        ensures some { (telling : Telling) → AreGroups (IsPending telling) telling.to_tell self.now.groups.contents
            → IfOk result (λ answer. IfSome answer (λ batch. AreFirstAlike (IsPending telling) telling.to_tell count batch.attrs batch.prefixes)) }
        ensures none { (telling : Telling) → AreGroups (IsPending telling) telling.to_tell self.now.groups.contents
            → IfOk result (λ answer. IfNone answer ((attrs : _) (prefixes : _) → ¬ AreFirstAlike (IsPending telling) telling.to_tell count attrs prefixes)) }
    {
        let Some(first) = self.groups.next_after(None) else {
            return Ok(None);
        };
        match self.groups.get(first) {
            Some(group) => first_of(self.alloc, group, count),
            None => unreachable!(),
        }
    }

    /// Removes the first `count` prefixes that are to be told the same as the least of all, of which there must be as
    /// many: they were told.
    pub(crate) fn was_told(&mut self, count: usize) -> Result<(), NoMemory>
        ensures { OnOk result (LosesFirst count self.old.groups.contents self.new.groups.contents) }
    {
        let Some(first) = self.groups.next_after(None) else {
            return Ok(());
        };
        let Some(group) = self.groups.remove(first) else {
            unreachable!()
        };
        match without_first(group, count) {
            Some(left) => add_group(&mut self.groups, left),
            None => Ok(()),
        }
    }
}
