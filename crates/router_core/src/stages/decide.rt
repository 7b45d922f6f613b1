//! Decisions (RFC 4271, section 9.1.2).

ghost use Rattle.std.specs.Prelude.{◌≡◌, ◌<◌, length, true, OnOk};
ghost use Rattle.std.specs.FinMap as map;
ghost use Rattle.ring_net.specs.Posts.{SameEdges};
ghost use Rattle.session_value.specs.Sets.{has};
ghost use Rattle.graft_model.specs.TableRows.{holds_established};
ghost use Rattle.router_tables.specs.Dues.{AddsBelow};
ghost use Rattle.router_core.specs.Deciding.{DecidesOne, DueToAll, is_other_router, is_up_at};
ghost use Rattle.router_core.specs.Parts.{RouterInvariant};
ghost use Rattle.router_core.specs.Places.{place_at, place_of};
ghost use Rattle.router_core.specs.Stages.{DecidesAll};

use crate::fields::Fields;
use crate::place::Place;
use bgp_session::Capsule;
use bgp_types::{Prefix, SessionState};
use graft_actors::note_router;
use graft_edge::NoMemory;
use graft_model::RouterEvent;
use graft_steps::Item;
use ring_net::Post;
use router_tables::add_where;
use session_places::Places;

/// Returns whether an established session is held at a place.
fn is_up(places: &Places<Place>, n: usize) -> bool
    ensures { result ≡ holds_established (place_of (place_at places.now.places n)) }
{
    match places.get(n) {
        Some(Place::Live { session, .. }) => session.state() == SessionState::Established,
        Some(Place::Shadow { .. }) | None => false,
    }
}

/// Adds a prefix to what is due to each other router.
fn due_to_routers(router: &mut Fields, prefix: Prefix) -> Result<(), NoMemory>
    requires { RouterInvariant router.old }
    ensures added { OnOk result (AddsBelow (length router.old.due_in) (is_other_router router.old) prefix router.old.due_in router.new.due_in) }
    ensures same { OnOk result (router.new ≡ record router.old { due_in = router.new.due_in }) }
{
    let own = u32::from(router.number.0);
    for q in 0..router.routers {
        add_where(&mut router.due_in, q as usize, prefix, q != own)?;
    }
    Ok(())
}

/// Adds a prefix to what is due on each established session.
fn due_on_sessions(router: &mut Fields, prefix: Prefix) -> Result<(), NoMemory>
    requires { RouterInvariant router.old }
    ensures added { OnOk result (AddsBelow (length router.old.due_out) (is_up_at router.old) prefix router.old.due_out router.new.due_out) }
    ensures same { OnOk result (router.new ≡ record router.old { due_out = router.new.due_out }) }
{
    for n in 0..router.places.len() {
        let is_due = is_up(&router.places, n);
        add_where(&mut router.due_out, n, prefix, is_due)?;
    }
    Ok(())
}

/// Makes a prefix due to each other router and on each established session.
fn due_to_all(router: &mut Fields, prefix: Prefix) -> Result<(), NoMemory>
    requires { RouterInvariant router.old }
    ensures { OnOk result (DueToAll prefix router.old router.new) }
{
    due_to_routers(router, prefix)?;
    due_on_sessions(router, prefix)
}

/// Decides a dirty prefix.
fn decide_one(
    router: &mut Fields,
    prefix: Prefix,
    post: &mut Post<Item<Capsule>>,
) -> Result<(), NoMemory>
    requires keeps { RouterInvariant router.old }
    requires dirty { has router.old.rib.dirty prefix ≡ true }
    ensures edges { SameEdges post.old post.new }
    ensures decides { OnOk result (DecidesOne prefix router.old post.old router.new post.new) }
{
    note_router(post, RouterEvent::Decide { prefix })?;
    if router.rib.decide(prefix)? {
        due_to_all(router, prefix)?;
    }
    Ok(())
}

/// Decides every dirty prefix, in ascending order.
pub(crate) fn decide_all(
    router: &mut Fields,
    post: &mut Post<Item<Capsule>>,
) -> Result<(), NoMemory>
    requires { RouterInvariant router.old }
    ensures edges { SameEdges post.old post.new }
    ensures done { OnOk result (DecidesAll router.old post.old router.new post.new) }
{
    while let Some(prefix) = router.rib.next_dirty() {
        decide_one(router, prefix, post)?;
    }
    Ok(())
}
