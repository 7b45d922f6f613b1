//! What is to be told on a session, one batch for each value, however many octets that has.

ghost use Rattle.std.specs.Prelude.{◌≡◌, ◌<◌, ◌∷◌, ◌++◌, [], length, Some, IfOk, OnOk};
ghost use Rattle.std.specs.BTreeMap.{get, Updates};
ghost use Rattle.std.specs.Cmp.Lexicographic.{slice_cmp};
ghost use Rattle.std.specs.FinMap as map;
ghost use Rattle.std.specs.Ordering.{nat_cmp};
ghost use Rattle.route_policy.specs.Telling.{out_side_of_view};
ghost use Rattle.rib_stages.specs.Values.{rib_of};
ghost use Rattle.update_plan.specs.Gathering.{AddsToBatches, GathersBy, GroupedInvariant, with_prefix};
ghost use Rattle.update_plan.specs.Plans.{AreWholeBatches};
ghost use Rattle.update_plan.specs.ToTell.{IsPrefixToTell, rib_to_tell};

use crate::batch::Batch;
use crate::code::{Code, code_of};
use crate::updates::is_told;
use adj_rib::AdjRib;
use bgp_types::{Attrs, Items, NoMemory, Prefix};
use prefix_set::PrefixSet;
use rib_stages::{OutView, Rib};
use std::alloc::Global;
use std::collections::BTreeMap;

/// The batches so far, each of which tells another value.
#[derive(Drop)]
pub(crate) struct Grouped {
    alloc: Global,
    batches: Vec<Batch>,
    /// For each code, the index of the batch that tells its value.
    indices: BTreeMap<Code, usize>,
}

impl Grouped {
    /// Returns no batches yet.
    fn new(alloc: Global) -> Grouped
        ensures none { result.batches.items ≡ [] }
        ensures keeps { GroupedInvariant result }
    {
        Grouped {
            alloc,
            batches: Vec::new(alloc),
            indices: BTreeMap::new(alloc),
        }
    }

    /// Returns the batches.
    fn into_batches(self) -> Items<Batch>
        ensures { result ≡ self.batches.items }
    {
        Items::from_vec(self.batches)
    }

    /// Returns the index of the batch that tells the value of a code.
    fn find(&self, code: &Code) -> Option<usize>
        ensures { result ≡ get (slice_cmp nat_cmp) self.now.indices code.now }
    {
        self.indices.get(code).copied()
    }

    /// Adds a prefix to a batch.
    fn join(&mut self, number: usize, prefix: Prefix) -> Result<(), NoMemory>
        requires { number < length self.old.batches.items }
        ensures batches { (before : _) (batch : _) (after : _) → self.old.batches.items ≡ before ++ batch ∷ after → length before ≡ number
            → OnOk result (self.new.batches.items ≡ before ++ with_prefix batch prefix ∷ after) }
        ensures indices { OnOk result (self.new.indices ≡ self.old.indices) }
    {
        let batch = &mut self.batches[number];
        batch.prefixes.push(prefix)?;
        Ok(())
    }

    /// Begins a new batch.
    fn begin(&mut self, code: Code, prefix: Prefix, attrs: Option<Attrs>) -> Result<(), NoMemory>
        ensures batches { OnOk result (self.new.batches.items ≡ self.old.batches.items ++ record { attrs = attrs; prefixes = prefix ∷ [] } ∷ []) }
        ensures indices { OnOk result (Updates (slice_cmp nat_cmp) self.old.indices self.new.indices code (Some (length self.old.batches.items))) }
    {
        let prefixes = Items::one(self.alloc, prefix)?;
        self.indices.insert(code, self.batches.len())?;
        self.batches.push(Batch { attrs, prefixes })?;
        Ok(())
    }

    /// Adds a prefix to the batch that tells these attributes. If none does, it begins one.
    fn add(&mut self, prefix: Prefix, attrs: Option<Attrs>) -> Result<(), NoMemory>
        requires { GroupedInvariant self.old }
        ensures keeps { OnOk result (GroupedInvariant self.new) }
        ensures adds { OnOk result (AddsToBatches attrs prefix self.old.batches.items self.new.batches.items) }
    {
        let code = code_of(self.alloc, &attrs)?;
        match self.find(&code) {
            Some(number) => self.join(number, prefix),
            None => self.begin(code, prefix, attrs),
        }
    }
}

/// Adds a prefix that is due and isn't dirty, unless what was told of it is what is to be told.
fn group(
    rib: &Rib,
    adj_rib_out: &AdjRib,
    view: &OutView<'_>,
    prefix: Prefix,
    grouped: &mut Grouped,
) -> Result<(), NoMemory>
    requires { GroupedInvariant grouped.old }
    ensures keeps { OnOk result (GroupedInvariant grouped.new) }
    ensures gathers { OnOk result (GathersBy AddsToBatches (map.get adj_rib_out.now prefix)
        (rib_to_tell (rib_of rib.now) (out_side_of_view view.now)) prefix grouped.old.batches.items grouped.new.batches.items) }
{
    let attrs = rib.tell_out(prefix, view)?;
    if is_told(adj_rib_out.get(prefix), &attrs) {
        return Ok(());
    }
    grouped.add(prefix, attrs)
}

/// Returns what a router tells on a session of what is due, isn't dirty, and was told differently: one
/// batch for each value that is to be told, with all prefixes that are told it. It visits each prefix
/// that is due once, and copies its best route unless it is dirty.
pub fn groups(
    alloc: Global,
    rib: &Rib,
    due: &PrefixSet,
    adj_rib_out: &AdjRib,
    view: &OutView<'_>,
) -> Result<Items<Batch>, NoMemory>
    ensures { IfOk result (AreWholeBatches (IsPrefixToTell due.now rib.now.dirty adj_rib_out.now
        (rib_to_tell (rib_of rib.now) (out_side_of_view view.now))) (rib_to_tell (rib_of rib.now) (out_side_of_view view.now))) }
{
    let prefixes = due.prefixes()?;
    let mut grouped = Grouped::new(alloc);
    for prefix in prefixes.iter() {
        if rib.is_dirty(*prefix) {
            continue;
        }
        group(rib, adj_rib_out, view, *prefix, &mut grouped)?;
    }
    Ok(grouped.into_batches())
}
