//! The sessions of a net that has finished: at which routers they are held, and which are on their way.

ghost use Rattle.std.specs.Prelude.{◌≡◌, ◌≤◌, ◌++◌, List, [], ◌∷◌, length, map, slice_get, IfOk, OnOk};
ghost use Rattle.std.specs.List.{flat_map, range_with_len};
ghost use Rattle.lab_report.specs.declared.lab.Place.TheVariants.{Held};
ghost use Rattle.lab_seen.specs.declared.found.Found.{Found};
ghost use Rattle.lab_seen.specs.Found.{found_at as found_at_lem, router_in, running_sessions, held_by, carried_by, carried_in, first_on, places_in, views_in};

use crate::views::view_of;
use bgp_session::{Capsule, Session};
use graft_edge::{Items, NoMemory, PeeringId, RouterId};
use graft_steps::Item;
use lab_report::{Place, SessionView};
use ring_net::{Actors, Lefts};
use std::alloc::Global;
use world_nodes::Node;

/// A session that was found: its peering, where it is, and its view.
#[derive(Drop)]
pub(crate) struct Found {
    peering: PeeringId,
    place: Place,
    view: SessionView,
}

/// Returns a session at its place, as it is seen.
fn found_at(place: Place, session: Session) -> Found
    ensures { result ≡ found_at_lem place session }
{
    Found {
        peering: session.config().peering,
        place,
        view: view_of(session),
    }
}

/// Returns the sessions that an actor holds, if it is a router.
fn sessions_at(alloc: Global, node: Option<Node>) -> Result<Items<Session>, NoMemory>
    ensures { IfOk result (λ sessions. sessions ≡ running_sessions (router_in node)) }
{
    match node {
        Some(Node::Router(router)) => router.into_sessions(alloc),
        _ => Ok(Items::new(alloc)),
    }
}

/// Adds the sessions that a router holds.
fn add_held(
    found: &mut Items<Found>,
    router: RouterId,
    sessions: Items<Session>,
) -> Result<(), NoMemory>
    ensures { OnOk result (found.new ≡ found.old ++ map (found_at_lem (Held router)) sessions) }
{
    for session in sessions.into_vec() {
        found.push(found_at(Place::Held(router), session))?;
    }
    Ok(())
}

/// Returns the sessions that routers hold, in ascending order of router and peering. The routers are the first actors.
fn held(alloc: Global, actors: Actors<Node>, routers: usize) -> Result<Items<Found>, NoMemory>
    requires { routers ≤ 256 }
    ensures { IfOk result (λ found. found ≡ flat_map (λ r. held_by r (slice_get actors r)) (range_with_len 0 routers)) }
{
    let mut found = Items::new(alloc);
    let mut nodes = actors.into_vec().into_iter();
    for number in 0..routers {
        let sessions = sessions_at(alloc, nodes.next())?;
        add_held(&mut found, RouterId(number as u8), sessions)?;
    }
    Ok(found)
}

/// Adds the session that an item carries, if it carries one.
fn add_carried(found: &mut Items<Found>, item: Item<Capsule>) -> Result<(), NoMemory>
    ensures { OnOk result (found.new ≡ found.old ++ carried_by item) }
{
    match item {
        Item::Moved { capsule, .. } => found.push(found_at(Place::Moving, capsule.land())),
        Item::Back { capsule, .. } => found.push(found_at(Place::Moving, capsule.land())),
        _ => Ok(()),
    }
}

/// Adds the sessions that are on their way in one channel.
fn add_moving(found: &mut Items<Found>, items: Items<Item<Capsule>>) -> Result<(), NoMemory>
    ensures { OnOk result (found.new ≡ found.old ++ flat_map carried_by items) }
{
    for item in items.into_vec() {
        add_carried(found, item)?;
    }
    Ok(())
}

/// Returns all sessions: those that routers hold, and then those that are on their way.
pub(crate) fn sessions_of(
    alloc: Global,
    actors: Actors<Node>,
    left: Lefts<Item<Capsule>>,
    routers: usize,
) -> Result<Items<Found>, NoMemory>
    requires { routers ≤ 256 }
    ensures { IfOk result (λ found. found ≡ flat_map (λ r. held_by r (slice_get actors r)) (range_with_len 0 routers) ++ flat_map carried_in left) }
{
    let mut found = held(alloc, actors, routers)?;
    for channel in left.into_vec() {
        add_moving(&mut found, channel.items)?;
    }
    Ok(found)
}

/// Returns `count` empty slots.
fn no_slots(alloc: Global, count: usize) -> Result<Vec<Option<Found>>, NoMemory>
    ensures { IfOk result (λ slots. slots.items ≡ map (first_on []) (range_with_len 0 count)) }
{
    let mut slots = Vec::new(alloc);
    for _ in 0..count {
        slots.push(None)?;
    }
    Ok(slots)
}

/// Puts a session into the slot of its peering, if the slot is empty.
fn put(slots: &mut [Option<Found>], one: Found)
    ensures { (found : List Found) → slots.old ≡ map (first_on found) (range_with_len 0 (length slots.old))
        → slots.new ≡ map (first_on (found ++ one ∷ [])) (range_with_len 0 (length slots.old)) }
{
    let p = usize::from(one.peering.0);
    if p < slots.len() && slots[p].is_none() {
        slots[p] = Some(one);
    }
}

/// Returns, for each peering, the first session that was found, if any.
fn slots_of(
    alloc: Global,
    found: Items<Found>,
    peerings: usize,
) -> Result<Vec<Option<Found>>, NoMemory>
    ensures { IfOk result (λ slots. slots.items ≡ map (first_on found) (range_with_len 0 peerings)) }
{
    let mut slots = no_slots(alloc, peerings)?;
    for one in found.into_vec() {
        put(slots.as_mut_slice(), one);
    }
    Ok(slots)
}

/// Returns the places and the views of the sessions in slots.
fn split(
    alloc: Global,
    slots: Vec<Option<Found>>,
) -> Result<(Items<Place>, Items<SessionView>), NoMemory>
    ensures placement { IfOk result (λ seen. seen.0 ≡ flat_map places_in slots.items) }
    ensures sessions { IfOk result (λ seen. seen.1 ≡ flat_map views_in slots.items) }
{
    let mut placement = Items::new(alloc);
    let mut sessions = Items::new(alloc);
    for slot in slots {
        if let Some(one) = slot {
            placement.push(one.place)?;
            sessions.push(one.view)?;
        }
    }
    Ok((placement, sessions))
}

/// Returns where the sessions are, and their views, in ascending order of peering.
pub(crate) fn by_peering(
    alloc: Global,
    found: Items<Found>,
    peerings: usize,
) -> Result<(Items<Place>, Items<SessionView>), NoMemory>
    ensures placement { IfOk result (λ seen. seen.0 ≡ flat_map (λ p. places_in (first_on found p)) (range_with_len 0 peerings)) }
    ensures sessions { IfOk result (λ seen. seen.1 ≡ flat_map (λ p. views_in (first_on found p)) (range_with_len 0 peerings)) }
{
    split(alloc, slots_of(alloc, found, peerings)?)
}
