//! What sessions are told (RFC 4271, section 9.2).

ghost use Rattle.std.specs.Prelude.{ℕ, ◌≡◌, ◌<◌, [], length, reverse, All, fold, Some, IfOk, IfSome, IfNone, OnOk, option_map};
ghost use Rattle.std.specs.FinMap as map;
ghost use Rattle.bgp_types.specs.Prefixes.{IsPrefix};
ghost use Rattle.ring_net.specs.Posts.{SameEdges};
ghost use Rattle.session_value.specs.Points.{at};
ghost use Rattle.rib_stages.specs.Values.{table_at};
ghost use Rattle.update_plan.specs.Gathering.{AreSound};
ghost use Rattle.update_plan.specs.Plans.{IsWritableFor};
ghost use Rattle.router_core.specs.Parts.{RouterInvariant, router_part};
ghost use Rattle.router_core.specs.Places.{AtOne, place_at};
ghost use Rattle.router_core.specs.declared.place.Place.TheVariants.{Live};
ghost use Rattle.router_core.specs.Putting.{NextAt, OfferedAt, OffersAt, PlannedAt, PutOrDone, PutsAt, PutsSomeAt, TimeAnswer};
ghost use Rattle.router_core.specs.Updates.{IsFirstStuck, IsStuckInTime, RoomAnswer, StuckAnswer, length_with};
ghost use Rattle.router_core.specs.Stages.{PutsAll};

use crate::fields::Fields;
use crate::place::Place;
use bgp_session::{Capsule, MOST_PUT, OfferStop, Session};
use bgp_types::{Prefix, SessionState, TryCopy, Update};
use graft_actors::note_router;
use graft_edge::{NoMemory, PeeringId};
use graft_model::RouterEvent;
use graft_steps::Item;
use rib_stages::OutView;
use ring_net::Post;
use router_tables::{DueSets, policy_of};
use session_places::Places;
use update_plan::{Batch, plan};
/// The length of a KEEPALIVE in bytes (RFC 4271, section 4.4).
const KEEPALIVE_LEN: usize = 19;

/// Offers an UPDATE to the live session, and returns whether its stream had room.
fn offer_to(place: &mut Place, update: Update) -> Result<bool, NoMemory>
    requires { OffersAt (Some place.old) update }
    ensures { IfOk result (λ put. OfferedAt put update (Some place.old) (Some place.new)) }
{
    match place {
        Place::Live { session, .. } => match session.offer(update) {
            Ok(()) => Ok(true),
            Err(OfferStop::StreamFull { .. }) => Ok(false),
            Err(OfferStop::NoMemory) => Err(NoMemory),
        },
        Place::Shadow { .. } => Ok(false),
    }
}

/// Offers an UPDATE to the live session at a place, and returns whether its stream had room.
fn offer(places: &mut Places<Place>, n: usize, update: Update) -> Result<bool, NoMemory>
    requires { OffersAt (place_at places.old.places n) update }
    ensures { IfOk result (λ put. AtOne (OfferedAt put update) places.old n places.new) }
{
    match places.get_mut(n) {
        Some(place) => offer_to(place, update),
        None => Ok(false),
    }
}

/// Removes prefixes from set `n`.
fn settle(due: &mut DueSets, n: usize, prefixes: &[Prefix])
    requires { n < length due.old }
    ensures length { length due.new ≡ length due.old }
    ensures settled { table_at due.new ≡ at (table_at due.old) n (fold map.remove (table_at due.old n) prefixes.now) }
{
    for prefix in prefixes {
        due.remove(n, *prefix);
    }
}

/// Returns the pending UPDATEs of the session at a place, the last one first.
fn planned(router: &Fields, n: usize) -> Result<Vec<Batch>, NoMemory>
    requires keeps { RouterInvariant router.now }
    requires place { n < length router.now.places.places }
    ensures planned { IfOk result (λ batches. PlannedAt router.now.known.setup router.now.number.0 (router_part router.now) n
        (place_at router.now.places.places n) (reverse batches.items)) }
    ensures sound { IfOk result (λ batches. AreSound batches.items) }
{
    let Some(Place::Live { session, .. }) = router.places.get(n) else {
        return Ok(Vec::new(router.alloc));
    };
    if session.state() != SessionState::Established {
        return Ok(Vec::new(router.alloc));
    }
    let config = session.config();
    let view = OutView {
        peering: config.peering,
        remote_as: config.remote_as,
        local_address: config.local_address,
        export: policy_of(&router.policies, &config.export),
    };
    let due = router.due_out.set(n);
    let batches = plan(
        router.alloc,
        &router.rib,
        due,
        session.told(),
        &view,
        session.wide(),
    )?;
    let mut batches = batches.into_vec();
    batches.reverse();
    Ok(batches)
}

/// Puts an UPDATE on the session at a place, and returns whether its stream had room.
fn put_one(
    router: &mut Fields,
    n: usize,
    batch: Batch,
    post: &mut Post<Item<Capsule>>,
) -> Result<bool, NoMemory>
    requires keeps { RouterInvariant router.old }
    requires place { n < length router.old.places.places }
    requires next { NextAt router.old.known.setup router.old.number.0 (router_part router.old) n (place_at router.old.places.places n) batch }
    requires sound { All IsPrefix batch.prefixes }
    requires writable { IsWritableFor batch }
    ensures edges { SameEdges post.old post.new }
    ensures some { OnOk result (PutsSomeAt n router.old post.old router.new post.new) }
    ensures put { IfOk result (λ put. PutOrDone put n batch router.old router.new) }
{
    let prefixes = batch.prefixes.copy()?;
    let update = batch.into_update(router.alloc);
    if !offer(&mut router.places, n, update)? {
        return Ok(false);
    }
    settle(&mut router.due_out, n, &prefixes);
    let (peering, count) = (n as u32, prefixes.len() as u32);
    note_router(post, RouterEvent::Put { peering, count })?;
    Ok(true)
}

/// Clears what is due on the session at a place, if everything that is due was told as it is to be.
fn put_nothing(
    router: &mut Fields,
    n: usize,
    post: &mut Post<Item<Capsule>>,
) -> Result<(), NoMemory>
    requires keeps { RouterInvariant router.old }
    requires place { n < length router.old.places.places }
    requires clean { router.old.rib.dirty ≡ map.empty }
    requires planned { PlannedAt router.old.known.setup router.old.number.0 (router_part router.old) n (place_at router.old.places.places n) [] }
    ensures edges { SameEdges post.old post.new }
    ensures puts { OnOk result (PutsAt n router.old post.old router.new post.new) }
{
    if router.due_out.first(n).is_none() {
        return Ok(());
    }
    router.due_out.clear(n);
    let peering = n as u32;
    note_router(post, RouterEvent::Put { peering, count: 0 })
}

/// Puts on the session at a place what is due there.
fn put_at(router: &mut Fields, n: usize, post: &mut Post<Item<Capsule>>) -> Result<(), NoMemory>
    requires keeps { RouterInvariant router.old }
    requires place { n < length router.old.places.places }
    requires clean { router.old.rib.dirty ≡ map.empty }
    ensures edges { SameEdges post.old post.new }
    ensures puts { OnOk result (PutsAt n router.old post.old router.new post.new) }
{
    let mut batches = planned(router, n)?;
    while let Some(batch) = batches.pop() {
        if !batch.is_writable() || !put_one(router, n, batch, post)? {
            return Ok(());
        }
    }
    put_nothing(router, n, post)
}

/// Puts on each established session what is due on it, in UPDATEs that each tell as many prefixes as a message holds.
/// No prefix may be dirty.
pub(crate) fn put_all(router: &mut Fields, post: &mut Post<Item<Capsule>>) -> Result<(), NoMemory>
    requires keeps { RouterInvariant router.old }
    requires clean { router.old.rib.dirty ≡ map.empty }
    ensures edges { SameEdges post.old post.new }
    ensures done { OnOk result (PutsAll router.old post.old router.new post.new) }
{
    for n in 0..router.places.len() {
        put_at(router, n, post)?;
    }
    Ok(())
}

/// Returns the length that the stream of the session at a place would have with a batch's UPDATE.
fn len_with(router: &Fields, n: usize, batch: &Batch) -> usize
    requires place { n < length router.now.places.places }
    requires next { NextAt router.now.known.setup router.now.number.0 (router_part router.now) n (place_at router.now.places.places n) batch.now }
    ensures { (s : _) (o : _) → place_at router.now.places.places n ≡ Some (Live s o) → result ≡ length_with s.session batch.now }
{
    match router.places.get(n) {
        Some(Place::Live { session, .. }) => {
            session.put_len() as usize + batch.octets(session.wide())
        }
        Some(Place::Shadow { .. }) | None => 0,
    }
}

/// Returns the length that the stream of the session at a place would have with its next UPDATE, if there is no room
/// for it.
fn no_room_at(router: &Fields, n: usize) -> Result<Option<usize>, NoMemory>
    requires keeps { RouterInvariant router.now }
    requires place { n < length router.now.places.places }
    ensures { IfOk result (λ answer. RoomAnswer router.now.known.setup router.now.number.0 (router_part router.now) n answer) }
{
    let mut batches = planned(router, n)?;
    let Some(batch) = batches.pop() else {
        return Ok(None);
    };
    if !batch.is_writable() {
        return Ok(None);
    }
    let length = len_with(router, n, &batch);
    if length > MOST_PUT {
        Ok(Some(length))
    } else {
        Ok(None)
    }
}

/// Returns the length that a session's stream would have with a KEEPALIVE, if its hold time runs and there is no room
/// for one.
fn late(session: &Session) -> Option<usize>
    ensures some { IfSome result (λ n. IsStuckInTime session.now.session n) }
    ensures none { IfNone result ((n : ℕ) → ¬ IsStuckInTime session.now.session n) }
{
    if session.state() == SessionState::Closed {
        return None;
    }
    if session.hold() == 0 {
        return None;
    }
    let length = session.put_len() as usize + KEEPALIVE_LEN;
    if length > MOST_PUT {
        Some(length)
    } else {
        None
    }
}

/// Returns the same length for the live session at a place.
fn late_at(places: &Places<Place>, n: usize) -> Option<usize>
    ensures { TimeAnswer (place_at places.now.places n) result }
{
    match places.get(n) {
        Some(Place::Live { session, .. }) => late(session),
        Some(Place::Shadow { .. }) | None => None,
    }
}

/// Returns the length at which the session at a place is stuck, if it is.
fn stuck_at(router: &Fields, n: usize) -> Result<Option<usize>, NoMemory>
    requires keeps { RouterInvariant router.now }
    requires place { n < length router.now.places.places }
    ensures { IfOk result (λ answer. StuckAnswer router.now.known.setup router.now.number.0 (router_part router.now) n answer) }
{
    match no_room_at(router, n)? {
        Some(length) => Ok(Some(length)),
        None => Ok(late_at(&router.places, n)),
    }
}

/// Returns the lowest peering whose live session is stuck, with the length that its stream would have: its next UPDATE
/// would take it above 1,044,480 bytes, or else its hold time runs and a KEEPALIVE would.
pub(crate) fn stuck(router: &Fields) -> Result<Option<(PeeringId, usize)>, NoMemory>
    requires { RouterInvariant router.now }
    ensures { IfOk result (λ answer. IsFirstStuck router.now.known.setup router.now.number.0 (router_part router.now) (option_map (λ x. (x.0.0, x.1)) answer)) }
{
    for n in 0..router.places.len() {
        match stuck_at(router, n)? {
            Some(length) => return Ok(Some((PeeringId(n as u8), length))),
            None => {}
        }
    }
    Ok(None)
}
