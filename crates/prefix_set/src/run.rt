//! A list of prefixes that were added in ascending order.

ghost use Rattle.std.specs.Prelude.{◌≡◌, ◌||◌, T, None, true, false, [], is_some, IsTrue, IfOk, IfErr, OnErr};
ghost use Rattle.std.specs.FinMap as map;
ghost use Rattle.bgp_types.specs.Tables.{prefix_cmp, first_above};
ghost use Rattle.prefix_table.specs.Indices.{AllBelow, IsGapForPrefix, IsIndexOfPrefix};
ghost use Rattle.prefix_set.specs.Slots.{PrefixSet, AreSlots, first_due_slot, is_held, lesser_of, those_in, united, with_all};

use bgp_types::{Items, NoMemory, Prefix, PrefixList};
use prefix_table::index_of;
use std::alloc::Global;
use std::marker::Model;

/// A list of prefixes in ascending order, each with whether it is in a set. A prefix that is removed
/// keeps its slot until no prefix of the list is in the set.
#[derive(Drop)]
pub(crate) struct Run {
    slots: Vec<(Prefix, bool)>,
    // Earlier slots are empty: their prefixes aren't in the set.
    start: usize,
    // Where the next prefix that is added again may stand: behind the last one that was.
    near: usize,
}

impl Model for Run {
    ghost use Rattle.std.specs.Prelude.{List};
    ghost use Rattle.prefix_set.specs.Slots.{AreSlots, Slot};

    ghost Value = { List Slot };

    ghost view = { λ r. r.slots.items };

    ghost invariant = { λ r. AreSlots r.slots.items r.start };
}

/// Whether a prefix is greater than those of all slots.
fn is_past(slots: &[(Prefix, bool)], prefix: Prefix) -> bool
    requires { T (map.is_sorted prefix_cmp slots.now) }
    ensures { IsTrue result → AllBelow prefix slots.now }
{
    match slots.last() {
        Some(last) => last.0 < prefix,
        None => true,
    }
}

/// Whether a prefix is known not to be in the set, because it is less than that of the slot `start` or
/// there is no such slot.
fn is_before(slots: &[(Prefix, bool)], start: usize, prefix: Prefix) -> bool
    requires { AreSlots slots.now start }
    ensures { IsTrue result → is_held (map.find prefix_cmp prefix slots.now) ≡ false }
{
    start >= slots.len() || prefix < slots[start].0
}

/// Returns the index of a prefix in the slots, or as the error the index where it would be inserted. It
/// finds a prefix in the slot `near` at once, and any other by binary search.
fn index_near(slots: &[(Prefix, bool)], near: usize, prefix: Prefix) -> Result<usize, usize>
    requires { T (map.is_sorted prefix_cmp slots.now) }
    ensures found { IfOk result (IsIndexOfPrefix slots.now prefix) }
    ensures absent { IfErr result (IsGapForPrefix slots.now prefix) }
{
    if near < slots.len() && slots[near].0 == prefix {
        return Ok(near);
    }
    index_of(slots, prefix)
}

/// Returns the first index from `start` on whose prefix is in the set, or else the end.
fn passed(slots: &[(Prefix, bool)], start: usize) -> usize
    requires { AreSlots slots.now start }
    ensures { AreSlots slots.now result }
{
    let mut at = start;
    while at < slots.len() && !slots[at].1 {
        at += 1;
    }
    at
}

/// Returns the first prefix of the slots that is in the set.
fn first_of(slots: &[(Prefix, bool)]) -> Option<Prefix>
    ensures { result ≡ first_due_slot slots.now }
{
    for (prefix, is_in) in slots {
        if *is_in {
            return Some(*prefix);
        }
    }
    None
}

/// Returns the prefixes of the slots that are in the set, in one allocation.
fn listed(alloc: Global, slots: &[(Prefix, bool)]) -> Result<PrefixList, NoMemory>
    ensures { IfOk result (λ prefixes. prefixes ≡ those_in slots.now) }
{
    let mut prefixes = Items::from_vec(Vec::with_capacity(alloc, slots.len())?);
    for (prefix, is_in) in slots {
        if *is_in {
            prefixes.push(*prefix)?;
        }
    }
    Ok(prefixes)
}

impl Run {
    /// Returns an empty list. It allocates nothing before the first prefix.
    pub fn new(alloc: Global) -> Run
        ensures { result ≡ [] }
    {
        Run {
            slots: Vec::new(alloc),
            start: 0,
            near: 0,
        }
    }

    /// Whether the list is empty.
    pub fn is_empty(&self) -> bool
        ensures { IsTrue result → self.now ≡ [] }
    {
        self.slots.is_empty()
    }

    /// Adds a prefix to the set and returns true, if it is greater than all of the list or has a slot
    /// there. Else it returns false and nothing changes. If memory runs out, nothing changes.
    pub fn add(&mut self, prefix: Prefix) -> Result<bool, NoMemory>
        ensures taken { IfOk result (λ taken. taken ≡ true → (beside : PrefixSet) → united self.new beside ≡ map.insert (united self.old beside) prefix tt) }
        ensures passed { IfOk result
            (λ taken. taken ≡ false → (beside : PrefixSet) → united self.old (map.insert beside prefix tt) ≡ map.insert (united self.old beside) prefix tt) }
        ensures same { IfOk result (λ taken. taken ≡ false → self.new ≡ self.old) }
        ensures err { OnErr result (self.new ≡ self.old) }
    {
        if is_past(&self.slots, prefix) {
            self.slots.push((prefix, true))?;
            return Ok(true);
        }
        match index_near(&self.slots, self.near, prefix) {
            Ok(at) if at >= self.start => {
                self.slots[at] = (prefix, true);
                self.near = at + 1;
                Ok(true)
            }
            _ => Ok(false),
        }
    }

    /// Removes a prefix from the set. It allocates nothing.
    pub fn remove(&mut self, prefix: Prefix)
        ensures { (beside : PrefixSet) → united self.new (map.remove beside prefix) ≡ map.remove (united self.old beside) prefix }
    {
        if is_before(&self.slots, self.start, prefix) {
            return;
        }
        if let Ok(at) = index_near(&self.slots, self.start, prefix) {
            self.slots[at] = (prefix, false);
            self.skip();
        }
    }

    /// Passes the first slots whose prefixes are no longer in the set. If no slot's prefix is, all
    /// slots are removed.
    fn skip(&mut self)
        ensures { (beside : PrefixSet) → united self.new beside ≡ united self.old beside }
    {
        self.start = passed(&self.slots, self.start);
        if self.start == self.slots.len() {
            self.slots.clear();
            self.start = 0;
        }
    }

    /// Whether a prefix of the list is in the set.
    pub fn contains(&self, prefix: Prefix) -> bool
        ensures { (beside : PrefixSet) → is_some (map.get (united self.now beside) prefix) ≡ (result || is_some (map.get beside prefix)) }
    {
        if is_before(&self.slots, self.start, prefix) {
            return false;
        }
        match index_near(&self.slots, self.start, prefix) {
            Ok(at) => self.slots[at].1,
            Err(_) => false,
        }
    }

    /// Returns the least prefix of the list that is in the set.
    pub fn first(&self) -> Option<Prefix>
        ensures { (beside : PrefixSet) → first_above None (map.keys (united self.now beside)) ≡ lesser_of result (first_above None (map.keys beside)) }
    {
        first_of(&self.slots[self.start..])
    }

    /// Returns the prefixes of the list that are in the set, in ascending order.
    pub fn prefixes(&self, alloc: Global) -> Result<PrefixList, NoMemory>
        ensures all { IfOk result (λ prefixes. (beside : PrefixSet) → with_all beside prefixes ≡ united self.now beside) }
        ensures alone { IfOk result (λ prefixes. (beside : PrefixSet) → map.len beside ≡ 0 → map.keys (united self.now beside) ≡ prefixes) }
    {
        listed(alloc, &self.slots[self.start..])
    }

    /// Removes all prefixes. It allocates nothing.
    pub fn clear(&mut self)
        ensures { self.new ≡ [] }
    {
        self.slots.clear();
        self.start = 0;
    }
}
