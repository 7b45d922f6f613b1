//! The UPDATEs of a turn.

ghost use Rattle.std.specs.Prelude.{◌≡◌, ◌≢◌, IfOk, OnOk, MatchBool, option_copied};
ghost use Rattle.std.specs.FinMap as map;
ghost use Rattle.route_policy.specs.Telling.{out_side_of_view};
ghost use Rattle.update_plan.specs.Plans.{IsPlan};
ghost use Rattle.update_plan.specs.ToTell.{IsPrefixToTell, rib_to_tell};
ghost use Rattle.rib_stages.specs.Values.{rib_of};
ghost use Rattle.update_plan.specs.Gathering.{AreSound, Gathers, GatheredInvariant};
ghost use Rattle.update_plan.specs.Passing.{TellsPassedOn};

use crate::batch::Batch;
use crate::gather::Gathered;
use crate::passing::{is_told_on, passing};
use adj_rib::AdjRib;
use bgp_types::{Attrs, Items, NoMemory, Prefix, SharedAttrs};
use prefix_set::PrefixSet;
use rib_stages::{OutView, Rib};
use std::alloc::Global;

/// Whether what was told of a prefix is this.
#[tactic(auto, using(bgp_types::proofs::Equality::attrs_equal))]
pub(crate) fn is_told(told: Option<&SharedAttrs>, attrs: &Option<Attrs>) -> bool
    ensures { MatchBool result (option_copied told.entry ≡ attrs.now) (option_copied told.entry ≢ attrs.now) }
{
    match (told, attrs) {
        (None, None) => true,
        (Some(told), Some(attrs)) => {
            let told: &Attrs = told;
            told == attrs
        }
        _ => false,
    }
}

/// Adds a prefix whose attributes to be told have to be made, unless they were told.
fn gather_made(
    rib: &Rib,
    adj_rib_out: &AdjRib,
    view: &OutView<'_>,
    prefix: Prefix,
    gathered: &mut Gathered,
) -> Result<(), NoMemory>
    requires { GatheredInvariant gathered.old }
    ensures keeps { OnOk result (GatheredInvariant gathered.new) }
    ensures wide { OnOk result (gathered.new.wide ≡ gathered.old.wide) }
    ensures gathers { OnOk result (Gathers gathered.old.wide (map.get adj_rib_out.now prefix)
        (rib_to_tell (rib_of rib.now) (out_side_of_view view.now)) prefix gathered.old.batches.items gathered.new.batches.items) }
    ensures sound { OnOk result (AreSound gathered.old.batches.items → AreSound gathered.new.batches.items) }
{
    let attrs = rib.tell_out(prefix, view)?;
    if is_told(adj_rib_out.get(prefix), &attrs) {
        return Ok(());
    }
    gathered.add(prefix, attrs)
}

/// Adds a prefix whose best route is passed on with these attributes, unless they were told.
fn gather_passing(
    rib: &Rib,
    adj_rib_out: &AdjRib,
    view: &OutView<'_>,
    prefix: Prefix,
    attrs: &Attrs,
    gathered: &mut Gathered,
) -> Result<(), NoMemory>
    requires keeps { GatheredInvariant gathered.old }
    requires passes { TellsPassedOn (rib_of rib.now) (out_side_of_view view.now) prefix attrs.now }
    ensures keeps { OnOk result (GatheredInvariant gathered.new) }
    ensures wide { OnOk result (gathered.new.wide ≡ gathered.old.wide) }
    ensures gathers { OnOk result (Gathers gathered.old.wide (map.get adj_rib_out.now prefix)
        (rib_to_tell (rib_of rib.now) (out_side_of_view view.now)) prefix gathered.old.batches.items gathered.new.batches.items) }
    ensures sound { OnOk result (AreSound gathered.old.batches.items → AreSound gathered.new.batches.items) }
{
    if is_told_on(
        adj_rib_out.get(prefix),
        attrs,
        rib.home_as(),
        view.local_address,
    ) {
        return Ok(());
    }
    gathered.add_passing(rib, view, prefix, attrs)
}

/// Adds a prefix that is due and isn't dirty, unless what was told of it is what is to be told.
fn gather(
    rib: &Rib,
    adj_rib_out: &AdjRib,
    view: &OutView<'_>,
    prefix: Prefix,
    gathered: &mut Gathered,
) -> Result<(), NoMemory>
    requires { GatheredInvariant gathered.old }
    ensures keeps { OnOk result (GatheredInvariant gathered.new) }
    ensures wide { OnOk result (gathered.new.wide ≡ gathered.old.wide) }
    ensures gathers { OnOk result (Gathers gathered.old.wide (map.get adj_rib_out.now prefix)
        (rib_to_tell (rib_of rib.now) (out_side_of_view view.now)) prefix gathered.old.batches.items gathered.new.batches.items) }
    ensures sound { OnOk result (AreSound gathered.old.batches.items → AreSound gathered.new.batches.items) }
{
    match passing(rib, view, prefix) {
        Some(attrs) => gather_passing(rib, adj_rib_out, view, prefix, attrs, gathered),
        None => gather_made(rib, adj_rib_out, view, prefix, gathered),
    }
}

/// Returns the UPDATEs by which a router tells on a session what is due, isn't dirty, and was told
/// differently, in the session's width of AS numbers. Each UPDATE takes the least prefix that is left
/// and the first of those that are told the same, as many as fit in 4,096 octets.
///
/// It visits each prefix that is due once. For each that isn't dirty it compares what was told with
/// what is to be told, and if they differ, it searches among the values that are told. It copies the
/// best route only in three cases: the prefix begins an UPDATE, the session has an export policy, or
/// the route has a long path or an attribute of an unknown type.
pub fn plan(
    alloc: Global,
    rib: &Rib,
    due: &PrefixSet,
    adj_rib_out: &AdjRib,
    view: &OutView<'_>,
    wide: bool,
) -> Result<Items<Batch>, NoMemory>
    ensures planned { IfOk result (λ batches. IsPlan (IsPrefixToTell due.now rib.now.dirty adj_rib_out.now
        (rib_to_tell (rib_of rib.now) (out_side_of_view view.now))) (rib_to_tell (rib_of rib.now) (out_side_of_view view.now)) wide batches) }
    ensures sound { IfOk result AreSound }
{
    let prefixes = due.prefixes()?;
    let mut gathered = Gathered::new(alloc, wide);
    for prefix in prefixes.iter() {
        if rib.is_dirty(*prefix) {
            continue;
        }
        gather(rib, adj_rib_out, view, *prefix, &mut gathered)?;
    }
    Ok(gathered.into_batches())
}
