//! Applies an UPDATE to routes, and lists the prefixes whose routes changed.

ghost use Rattle.std.specs.Prelude.{◌≡◌, ◌≢◌, [], Option, None, Some, true, MatchBool, fold, is_some, IfOk, OnOk};
ghost use Rattle.std.specs.FinMap as map;
ghost use Rattle.std.specs.List.{list_any};
ghost use Rattle.std.specs.List.Sorted.{IsStrictlySortedBy};
ghost use Rattle.bgp_types.specs.declared.attrs.Attrs.{Attrs};
ghost use Rattle.bgp_types.specs.Prefixes.{PrefixValue, same_prefix};
ghost use Rattle.bgp_types.specs.Tables.{prefix_cmp};
ghost use Rattle.bgp_story.specs.Readings.{Routes, apply, announce as announced};
ghost use Rattle.adj_rib.specs.Changes.{RoutesMoved, given_by_update, withdraw_unless};

use bgp_types::{Attrs, Items, NoMemory, Prefix, PrefixList, SharedAttrs, Table, TryCopy, Update};
use prefix_trie::TrieTable;
use std::alloc::Global;

/// The attributes of the route to each prefix that has one.
pub type AttrsTable = TrieTable<SharedAttrs>;

/// Returns an empty list with room for `count` prefixes.
pub fn with_room(alloc: Global, count: usize) -> Result<PrefixList, NoMemory>
    ensures { IfOk result (λ prefixes. prefixes ≡ []) }
{
    Ok(Items::from_vec(Vec::with_capacity(alloc, count)?))
}

/// Returns the same prefixes, each once, in ascending order.
pub fn in_order(prefixes: PrefixList) -> PrefixList
    ensures rising { IsStrictlySortedBy prefix_cmp result }
    ensures same { (p : PrefixValue) → list_any (same_prefix p) result ≡ list_any (same_prefix p) prefixes }
{
    let mut prefixes = prefixes.into_vec();
    prefixes.sort_unstable();
    prefixes.dedup();
    Items::from_vec(prefixes)
}

/// Whether a prefix is among prefixes in ascending order.
fn is_among(prefix: Prefix, prefixes: &[Prefix]) -> bool
    requires { IsStrictlySortedBy prefix_cmp prefixes.now }
    ensures { result ≡ list_any (same_prefix prefix) prefixes.now }
{
    prefixes.binary_search(&prefix).is_ok()
}

/// Returns the prefixes that an UPDATE announces, each once, in ascending order.
fn list_announced(alloc: Global, update: &Update) -> Result<PrefixList, NoMemory>
    ensures rising { IfOk result (λ prefixes. IsStrictlySortedBy prefix_cmp prefixes) }
    ensures given { IfOk result (λ prefixes. (p : PrefixValue) → list_any (same_prefix p) prefixes ≡ is_some (given_by_update update.now p)) }
{
    if update.attrs.is_none() {
        return Ok(Items::new(alloc));
    }
    Ok(in_order(Items::from_slice(alloc, update.nlri.as_slice())?))
}

/// Removes the route of a prefix unless it is announced, and lists the prefix if it had one.
/// `announced` is in ascending order.
fn withdraw_one(
    routes: &mut AttrsTable,
    prefix: Prefix,
    announced: &[Prefix],
    changed: &mut PrefixList,
) -> Result<(), NoMemory>
    requires { IsStrictlySortedBy prefix_cmp announced.now }
    ensures routes { OnOk result (routes.new.contents ≡ withdraw_unless announced.now routes.old.contents prefix) }
    ensures changed { OnOk result ((before : Routes) (to : PrefixValue → Option Attrs) → list_any (same_prefix prefix) announced.now ≡ is_some (to prefix)
        → RoutesMoved to before routes.old.contents changed.old → RoutesMoved to before routes.new.contents changed.new) }
{
    if is_among(prefix, announced) {
        return Ok(());
    }
    if routes.remove(prefix).is_some() {
        changed.push(prefix)?;
    }
    Ok(())
}

/// Removes the routes of the prefixes that aren't announced, and lists those that had one. `announced`
/// is in ascending order.
fn withdraw(
    routes: &mut AttrsTable,
    prefixes: &[Prefix],
    announced: &[Prefix],
    changed: &mut PrefixList,
) -> Result<(), NoMemory>
    requires { IsStrictlySortedBy prefix_cmp announced.now }
    ensures routes { OnOk result (routes.new.contents ≡ fold (withdraw_unless announced.now) routes.old.contents prefixes.now) }
    ensures changed { OnOk result
        ((before : Routes) (to : PrefixValue → Option Attrs) → ((p : PrefixValue) → list_any (same_prefix p) announced.now ≡ is_some (to p))
        → RoutesMoved to before routes.old.contents changed.old → RoutesMoved to before routes.new.contents changed.new) }
{
    for prefix in prefixes {
        withdraw_one(routes, *prefix, announced, changed)?;
    }
    Ok(())
}

/// Removes the routes that an UPDATE withdraws and doesn't announce, and lists the prefixes that had
/// one. The announced prefixes are sorted for that only if the UPDATE withdraws any.
pub fn withdraw_all(
    alloc: Global,
    routes: &mut AttrsTable,
    update: &Update,
    changed: &mut PrefixList,
) -> Result<(), NoMemory>
    ensures routes { OnOk result (fold (announced update.now.attrs) routes.new.contents update.now.nlri ≡ apply routes.old.contents update.now) }
    ensures changed { OnOk result ((before : Routes) → RoutesMoved (given_by_update update.now) before routes.old.contents changed.old
        → RoutesMoved (given_by_update update.now) before routes.new.contents changed.new) }
{
    if update.withdrawn.is_empty() {
        return Ok(());
    }
    let announced = list_announced(alloc, update)?;
    withdraw(
        routes,
        update.withdrawn.as_slice(),
        announced.as_slice(),
        changed,
    )?;
    Ok(())
}

/// Whether this is the route that a prefix had.
#[tactic(auto, using(bgp_types::proofs::Equality::attrs_equal))]
fn is_same(had: &Option<SharedAttrs>, attrs: &SharedAttrs) -> bool
    ensures { MatchBool result (had.now ≡ Some attrs.now) (had.now ≢ Some attrs.now) }
{
    match had {
        Some(had) => had == attrs,
        None => false,
    }
}

/// Sets the route of a prefix, and lists the prefix if it had another route or none.
fn announce_one(
    routes: &mut AttrsTable,
    prefix: Prefix,
    attrs: &SharedAttrs,
    changed: &mut PrefixList,
) -> Result<(), NoMemory>
    ensures routes { OnOk result (routes.new.contents ≡ map.insert routes.old.contents prefix attrs.now) }
    ensures changed { OnOk result ((before : Routes) (to : PrefixValue → Option Attrs) → to prefix ≡ Some attrs.now
        → RoutesMoved to before routes.old.contents changed.old → RoutesMoved to before routes.new.contents changed.new) }
{
    let Ok(had) = routes.set(prefix, attrs.copy()?) else {
        return Err(NoMemory);
    };
    if is_same(&had, attrs) {
        return Ok(());
    }
    changed.push(prefix)?;
    Ok(())
}

/// Sets this route for each of the prefixes, and lists those that had another route or none.
pub fn announce(
    routes: &mut AttrsTable,
    prefixes: &[Prefix],
    attrs: &Attrs,
    changed: &mut PrefixList,
) -> Result<(), NoMemory>
    ensures routes { OnOk result (routes.new.contents ≡ fold (announced (Some attrs.now)) routes.old.contents prefixes.now) }
    ensures changed { OnOk result
        ((before : Routes) (to : PrefixValue → Option Attrs) → ((p : PrefixValue) → list_any (same_prefix p) prefixes.now ≡ true → to p ≡ Some attrs.now)
        → RoutesMoved to before routes.old.contents changed.old → RoutesMoved to before routes.new.contents changed.new) }
{
    let shared = SharedAttrs::new(attrs.copy()?)?;
    for prefix in prefixes {
        announce_one(routes, *prefix, &shared, changed)?;
    }
    Ok(())
}
