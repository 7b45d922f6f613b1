//! What a router has left to do.

ghost use Rattle.std.specs.Prelude.{ℕ, ◌≡◌, ◌≤◌, Option, Some, None, length, min, option_map, MatchBool};
ghost use Rattle.rib_stages.specs.Values.{table_at};
ghost use Rattle.graft_model.specs.Parts.{graft_of as graft_of_lem};
ghost use Rattle.settled_check.specs.Firsts.{IsLowestOf};
ghost use Rattle.settled_check.specs.Left.{HasSome, HasStream, graft_in_place};
ghost use Rattle.settled_check.specs.Rests.{IsRouterRest};
ghost use Rattle.router_core.specs.Parts.{RouterInvariant, router_part};
ghost use Rattle.router_core.specs.Places.{errand_of, lower_of, place_at, place_of};

use crate::fields::Fields;
use crate::place::{Errand, Place};
use graft_edge::{PeeringId, RouterId};
use graft_steps::RouterRest;
use router_tables::DueSets;
use session_places::Places;

/// Returns the lowest number whose set isn't empty.
fn first_due(due: &DueSets) -> Option<u8>
    requires { length due.now ≤ 256 }
    ensures { IsLowestOf (λ n. HasSome (table_at due.now n)) result }
{
    for number in 0..due.len() {
        if due.first(number).is_some() {
            return Some(number as u8);
        }
    }
    None
}

/// Returns the graft of an errand.
fn graft_of(errand: &Errand) -> u32
    ensures { result ≡ graft_of_lem (errand_of errand.now) }
{
    match errand {
        Errand::Leaving(order) => order.ids().graft,
        Errand::Owing(landed) | Errand::Asking(landed) => landed.ids().graft,
    }
}

/// Returns the graft at a place, if there is one.
fn graft_at(places: &Places<Place>, n: usize) -> Option<u32>
    ensures { result ≡ graft_in_place (place_of (place_at places.now.places n)) }
{
    match places.get(n)? {
        Place::Live { errand, .. } => match errand {
            Some(errand) => Some(graft_of(errand)),
            None => None,
        },
        Place::Shadow { away } => Some(away.ids().graft),
    }
}

/// Returns the lower of two numbers, or the one that is given.
fn lower(one: Option<u32>, other: Option<u32>) -> Option<u32>
    ensures { result ≡ lower_of one other }
{
    match (one, other) {
        (Some(one), Some(other)) => Some(one.min(other)),
        (one, None) => one,
        (None, other) => other,
    }
}

/// Returns the lowest number of a graft at one of the places.
fn lowest_graft(places: &Places<Place>) -> Option<u32>
    ensures { IsLowestOf (λ k. (p : ℕ) × (graft_in_place (place_of (place_at places.now.places p)) ≡ Some k)) result }
{
    let mut lowest = None;
    for n in 0..places.len() {
        lowest = lower(lowest, graft_at(places, n));
    }
    lowest
}

/// Returns whether the live session at a place has unacknowledged bytes, or something to read.
fn has_stream(places: &Places<Place>, n: usize) -> bool
    ensures { MatchBool result (HasStream (place_of (place_at places.now.places n))) (¬ HasStream (place_of (place_at places.now.places n))) }
{
    match places.get(n) {
        Some(Place::Live { session, .. }) => !session.all_acked() || session.frame_waits(),
        Some(Place::Shadow { .. }) | None => false,
    }
}

/// Returns the lowest peering whose live session has unacknowledged bytes, or something to read.
fn first_stream(places: &Places<Place>) -> Option<u8>
    requires { length places.now.places ≤ 256 }
    ensures { IsLowestOf (λ p. HasStream (place_of (place_at places.now.places p))) result }
{
    for number in 0..places.len() {
        if has_stream(places, number) {
            return Some(number as u8);
        }
    }
    None
}

/// Returns the answer that nothing is left to do. No router that works gives it.
pub(crate) fn nothing_left(number: RouterId) -> RouterRest {
    RouterRest {
        number,
        dirty: false,
        due_in: None,
        due_out: None,
        graft: None,
        stream: None,
    }
}

/// Returns the router of a number, if one is given.
fn router_of(number: Option<u8>) -> Option<RouterId>
    ensures { option_map (λ q. q.0) result ≡ number }
{
    match number {
        Some(number) => Some(RouterId(number)),
        None => None,
    }
}

/// Returns the peering of a number, if one is given.
fn peering_of(number: Option<u8>) -> Option<PeeringId>
    ensures { option_map (λ p. p.0) result ≡ number }
{
    match number {
        Some(number) => Some(PeeringId(number)),
        None => None,
    }
}

/// Returns what is left to do.
pub(crate) fn outstanding(router: &Fields) -> RouterRest
    requires { RouterInvariant router.now }
    ensures { IsRouterRest router.now.number.0 (router_part router.now) result }
{
    RouterRest {
        number: router.number,
        dirty: router.rib.next_dirty().is_some(),
        due_in: router_of(first_due(&router.due_in)),
        due_out: peering_of(first_due(&router.due_out)),
        graft: lowest_graft(&router.places),
        stream: peering_of(first_stream(&router.places)),
    }
}
