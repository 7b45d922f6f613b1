//! Gathers prefixes that are told the same into UPDATEs.

ghost use Rattle.std.specs.Prelude.{◌≡◌, ◌+◌, ◌≤◌, ◌<◌, ◌∷◌, ◌++◌, [], length, slice_index, slice_set, Some, None, OnOk};
ghost use Rattle.std.specs.BTreeMap.{get, Updates};
ghost use Rattle.std.specs.Cmp.Lexicographic.{slice_cmp};
ghost use Rattle.std.specs.Ordering.{nat_cmp};
ghost use Rattle.bgp_types.specs.Lengths.{prefix_size};
ghost use Rattle.bgp_types.specs.Prefixes.{IsPrefix};
ghost use Rattle.update_plan.specs.Codes.{value_code};
ghost use Rattle.update_plan.specs.Gathering.{AddsToUpdates, GatheredInvariant, with_prefix};
ghost use Rattle.update_plan.specs.Plans.{octets as octets_lem};
ghost use Rattle.update_plan.specs.Passing.{TellsPassedOn};
ghost use Rattle.update_plan.specs.ToTell.{rib_to_tell};
ghost use Rattle.rib_stages.specs.Values.{rib_of};
ghost use Rattle.route_policy.specs.Telling.{out_side_of_view};

use crate::batch::Batch;
use crate::code::{Code, code_of, passed_code};
use bgp_types::{Attrs, Items, NoMemory, Prefix};
use rib_stages::{OutView, Rib};
use std::alloc::Global;
use std::collections::BTreeMap;

/// The greatest number of octets in a message (RFC 4271, section 4.1).
const LIMIT: usize = 4096;

/// The UPDATEs gathered so far.
#[derive(Drop)]
pub(crate) struct Gathered {
    alloc: Global,
    wide: bool,
    batches: Vec<Batch>,
    /// The number of octets of each UPDATE.
    octets: Vec<usize>,
    /// For each code, the index of the last UPDATE that tells its value.
    indices: BTreeMap<Code, usize>,
}

/// Returns the number of octets in which a prefix is written.
fn prefix_len(prefix: Prefix) -> usize
    ensures octets { result ≡ prefix_size prefix }
    ensures sound { IsPrefix prefix }
{
    1 + usize::from(prefix.len()).div_ceil(8)
}

impl Gathered {
    /// Returns no UPDATEs yet, in one of the widths of AS numbers.
    pub fn new(alloc: Global, wide: bool) -> Gathered
        ensures wide { result.wide ≡ wide }
        ensures none { result.batches.items ≡ [] }
        ensures keeps { GatheredInvariant result }
    {
        Gathered {
            alloc,
            wide,
            batches: Vec::new(alloc),
            octets: Vec::new(alloc),
            indices: BTreeMap::new(alloc),
        }
    }

    /// Returns the UPDATEs.
    pub fn into_batches(self) -> Items<Batch>
        ensures { result ≡ self.batches.items }
    {
        Items::from_vec(self.batches)
    }

    /// Returns the index of the last UPDATE that tells the value of a code, if it has room for `len`
    /// more octets.
    fn room_for(&self, code: &Code, len: usize) -> Option<usize>
        requires counted { (number : _) → get (slice_cmp nat_cmp) self.now.indices code.now ≡ Some number → number < length self.now.octets.items }
        requires len { len ≤ 4096 }
        ensures some { (number : _) → result ≡ Some number
            → (get (slice_cmp nat_cmp) self.now.indices code.now ≡ Some number) × (slice_index self.now.octets.items number + len ≤ 4096) }
        ensures none { (number : _) → result ≡ None → get (slice_cmp nat_cmp) self.now.indices code.now ≡ Some number
            → 4096 < slice_index self.now.octets.items number + len }
    {
        let number = *self.indices.get(code)?;
        if self.octets[number] > LIMIT - len {
            return None;
        }
        Some(number)
    }

    /// Adds a prefix to an UPDATE.
    fn join(&mut self, number: usize, prefix: Prefix, len: usize) -> Result<(), NoMemory>
        requires number { number < length self.old.batches.items }
        requires counted { number < length self.old.octets.items }
        requires room { slice_index self.old.octets.items number + len ≤ 4096 }
        ensures wide { OnOk result (self.new.wide ≡ self.old.wide) }
        ensures batches { (before : _) (batch : _) (after : _) → self.old.batches.items ≡ before ++ batch ∷ after → length before ≡ number
            → OnOk result (self.new.batches.items ≡ before ++ with_prefix batch prefix ∷ after) }
        ensures octets { OnOk result (self.new.octets.items ≡ slice_set self.old.octets.items number (slice_index self.old.octets.items number + len)) }
        ensures indices { OnOk result (self.new.indices ≡ self.old.indices) }
    {
        let batch = &mut self.batches[number];
        batch.prefixes.push(prefix)?;
        self.octets[number] += len;
        Ok(())
    }

    /// Begins a new UPDATE.
    fn begin(&mut self, code: Code, prefix: Prefix, attrs: Option<Attrs>) -> Result<(), NoMemory>
        requires { octets_lem self.old.wide attrs (prefix ∷ []) ≤ 4096 }
        ensures wide { OnOk result (self.new.wide ≡ self.old.wide) }
        ensures batches { OnOk result (self.new.batches.items ≡ self.old.batches.items ++ record { attrs = attrs; prefixes = prefix ∷ [] } ∷ []) }
        ensures octets { OnOk result (self.new.octets.items ≡ self.old.octets.items ++ octets_lem self.old.wide attrs (prefix ∷ []) ∷ []) }
        ensures indices { OnOk result (Updates (slice_cmp nat_cmp) self.old.indices self.new.indices code (Some (length self.old.batches.items))) }
    {
        let prefixes = Items::one(self.alloc, prefix)?;
        let batch = Batch { attrs, prefixes };
        let octets = batch.octets(self.wide);
        self.indices.insert(code, self.batches.len())?;
        self.batches.push(batch)?;
        self.octets.push(octets)?;
        Ok(())
    }

    /// Adds a prefix to the last UPDATE that tells these attributes if it then has at most 4,096
    /// octets, or else begins another. The UPDATE that tells them of this one prefix has to have at
    /// most 4,096 octets.
    pub fn add(&mut self, prefix: Prefix, attrs: Option<Attrs>) -> Result<(), NoMemory>
        requires fits { octets_lem self.old.wide attrs (prefix ∷ []) ≤ 4096 }
        requires keeps { GatheredInvariant self.old }
        ensures keeps { OnOk result (GatheredInvariant self.new) }
        ensures wide { OnOk result (self.new.wide ≡ self.old.wide) }
        ensures adds { OnOk result (AddsToUpdates self.old.wide attrs prefix self.old.batches.items self.new.batches.items) }
        ensures sound { IsPrefix prefix }
    {
        let code = code_of(self.alloc, &attrs)?;
        let len = prefix_len(prefix);
        match self.room_for(&code, len) {
            Some(number) => self.join(number, prefix, len),
            None => self.begin(code, prefix, attrs),
        }
    }

    /// Adds a prefix whose best route is passed on with these attributes, as `add` does. The attributes
    /// are copied only if an UPDATE is begun.
    pub fn add_passing(
        &mut self,
        rib: &Rib,
        view: &OutView<'_>,
        prefix: Prefix,
        attrs: &Attrs,
    ) -> Result<(), NoMemory>
        requires passes { TellsPassedOn (rib_of rib.now) (out_side_of_view view.now) prefix attrs.now }
        requires keeps { GatheredInvariant self.old }
        ensures keeps { OnOk result (GatheredInvariant self.new) }
        ensures wide { OnOk result (self.new.wide ≡ self.old.wide) }
        ensures adds { OnOk result (AddsToUpdates self.old.wide
            (rib_to_tell (rib_of rib.now) (out_side_of_view view.now) prefix) prefix self.old.batches.items self.new.batches.items) }
        ensures sound { IsPrefix prefix }
    {
        let code = passed_code(self.alloc, attrs, rib.home_as(), view.local_address)?;
        let len = prefix_len(prefix);
        match self.room_for(&code, len) {
            Some(number) => self.join(number, prefix, len),
            None => {
                let told = rib.tell_out(prefix, view)?;
                self.begin(code, prefix, told)
            }
        }
    }
}
