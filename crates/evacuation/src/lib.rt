//! Which routers take the peerings of a router that is evacuated.
#![tactic(auto)]

ghost use Rattle.std.specs.Prelude.{◌≡◌, ◌≤◌, ◌<◌, ◌↔◌, ℕ, IsTrue, IfOk, IfNone, IfSome, MatchOption, List, length, min, slice_index};
ghost use Rattle.std.specs.Option.{ForSome};
ghost use Rattle.evacuation.specs.Plans.{AreAtMost, GivesAll, IsFree, IsFull, IsLeastLoaded, KeepsRooms, Plan, TargetList, free_places, number_given, plan_for};

use graft_edge::{Items, NoMemory, RouterId};
use std::alloc::Global;

/// For each peering in order, the router that it goes to, or none.
pub type Targets = Items<Option<RouterId>>;

/// Whether a router may be given a peering: it isn't `from`, and its load is below its room.
fn is_free(loads: &[u32], rooms: &[u32], from: RouterId, router: usize) -> bool
    requires same_length { length rooms.now ≡ length loads.now }
    requires in_range { router < length loads.now }
    ensures { IsTrue result ↔ IsFree loads.now rooms.now from.0 router }
{
    router != usize::from(from.0) && loads[router] < rooms[router]
}

/// Whether a router has less load than the least loaded one so far, if there is one.
fn has_less(loads: &[u32], router: usize, least: Option<usize>) -> bool
    requires in_range { router < length loads.now }
    requires least_in_range { ForSome least (λ least. least < length loads.now) }
    ensures { MatchOption least (IsTrue result) (λ least. IsTrue result ↔ (slice_index loads.now router < slice_index loads.now least)) }
{
    match least {
        Some(least) => loads[router] < loads[least],
        None => true,
    }
}

/// Returns the router that the next peering goes to: of those other than `from` whose load is below
/// their room, the one with the least load, and of several with that load the one with the lowest
/// number.
fn least_loaded(loads: &[u32], rooms: &[u32], from: RouterId) -> Option<RouterId>
    requires same_length { length rooms.now ≡ length loads.now }
    requires numbered { length loads.now ≤ 256 }
    ensures least { IfSome result (λ router. IsLeastLoaded loads.now rooms.now from.0 router.0) }
    ensures full { IfNone result (IsFull loads.now rooms.now from.0) }
{
    let mut least: Option<usize> = None;
    for router in 0..loads.len() {
        if is_free(loads, rooms, from, router) && has_less(loads, router, least) {
            least = Some(router);
        }
    }
    let least = least?;
    Some(RouterId(least as u8))
}

/// Returns which routers take `count` peerings of the router `from`. Each peering in turn goes to the
/// router other than `from` whose load, with the peerings already given, is least among those below
/// their room, and of several with that load to the one with the lowest number. A peering has no target
/// if no such router is below its room.
///
/// A load is how many peerings a router holds, and a room how many it may hold. A router is named by
/// its index in both lists, so these have the same length, which is at most the number of places that a
/// `RouterId` can name. The router `from` gives its peerings away, and its own load is never changed.
///
/// It allocates a copy of the loads and the targets, and takes a step for each peering and router.
///
/// # Errors
///
/// `NoMemory` if memory runs out.
pub fn plan(
    alloc: Global,
    loads: &[u32],
    rooms: &[u32],
    from: RouterId,
    count: u32,
) -> Result<Targets, NoMemory>
    requires same_length { length rooms.now ≡ length loads.now }
    requires numbered { length loads.now ≤ 256 }
    ensures in_turn { IfOk result (λ targets. Plan rooms.now from.0 loads.now count targets) }
    ensures room { IfOk result (λ targets. KeepsRooms loads.now rooms.now from.0 targets) }
    ensures number { IfOk result (λ targets. length targets ≡ count) }
    // No peering is without a target while another router has a free place.
    ensures as_many { IfOk result (λ targets. number_given targets ≡ min count (free_places loads.now rooms.now from.0)) }
    // No other way to give all has a lower greatest load among the other routers.
    ensures least { IfOk result (λ targets. number_given targets ≡ count
        → (other : TargetList) → GivesAll loads.now rooms.now from.0 count other
        → (most : ℕ) → AreAtMost most loads.now from.0 other → AreAtMost most loads.now from.0 targets) }
{
    let mut loads = Vec::from_slice(alloc, loads)?;
    let mut targets = Items::from_vec(Vec::with_capacity(alloc, count as usize)?);
    for _ in 0..count {
        let target = least_loaded(&loads, rooms, from);
        if let Some(router) = target {
            loads[usize::from(router.0)] += 1;
        }
        targets.push(target)?;
    }
    Ok(targets)
}

/// Plans for the same loads and rooms and the same number of peerings of the same router are equal.
pub fn a_plan_is_the_only_one()
    ensures { (rooms loads : List ℕ) (from count : ℕ) (one other : TargetList)
        → Plan rooms from loads count one → Plan rooms from loads count other → one ≡ other }
{}

/// There is a plan for any loads, rooms and number of peerings, and this list is it.
pub fn there_is_a_plan()
    ensures { (rooms loads : List ℕ) (from count : ℕ) → Plan rooms from loads count (plan_for rooms from loads count) }
{}

/// A plan keeps the rooms and has a target or none for each peering. It gives as many as there are free
/// places for. If it gives all, no other way to give all has a lower greatest load among the other
/// routers.
pub fn plans_keep_rooms_and_loads()
    ensures room { (rooms loads : List ℕ) (from count : ℕ) (targets : TargetList) → Plan rooms from loads count targets
        → KeepsRooms loads rooms from targets }
    ensures number { (rooms loads : List ℕ) (from count : ℕ) (targets : TargetList) → Plan rooms from loads count targets
        → length targets ≡ count }
    ensures as_many { (rooms loads : List ℕ) (from count : ℕ) (targets : TargetList) → Plan rooms from loads count targets
        → number_given targets ≡ min count (free_places loads rooms from) }
    ensures least { (rooms loads : List ℕ) (from count : ℕ) (targets : TargetList) → Plan rooms from loads count targets
        → number_given targets ≡ count
        → (other : TargetList) → GivesAll loads rooms from count other
        → (most : ℕ) → AreAtMost most loads from other → AreAtMost most loads from targets }
{}
