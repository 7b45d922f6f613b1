//! What sessions read, and how the router follows it.

ghost use Rattle.std.specs.Prelude.{ℕ, ◌≡◌, ◌<◌, length, Option, IfOk, OnOk, MatchBool};
ghost use Rattle.ring_net.specs.Posts.{SameEdges};
ghost use Rattle.router_core.specs.declared.place.Errand.{Errand};
ghost use Rattle.bgp_session.specs.Running.{RunningSession};
ghost use Rattle.rib_stages.specs.Values.{rib_of};
ghost use Rattle.router_tables.specs.Entering.{entry_here, EntersAll};
ghost use Rattle.router_core.specs.Places.{RunsAt};
ghost use Rattle.router_core.specs.Reading.{FollowsStep, KeepsBut, ReadsAll, ReadsNone, ReadsOne};

use crate::fields::Fields;
use crate::place::{Place, read};
use bgp_session::{Capsule, ReadStep};
use bgp_types::{Prefix, Table};
use graft_actors::note_router;
use graft_edge::{NoMemory, PeeringId};
use graft_model::RouterEvent;
use graft_steps::Item;
use ring_net::Post;
use router_tables::{all_best, enter};

/// Sets the entry of each of the prefixes to what the live session at a place brings in.
fn enter_at(router: &mut Fields, place: usize, prefixes: &[Prefix]) -> Result<(), NoMemory>
    requires { place < length router.old.places.places }
    ensures same { OnOk result (router.new ≡ record router.old { rib = router.new.rib }) }
    ensures entered { (s : RunningSession) (o : Option Errand) → RunsAt router.old.places.places place s o
        → OnOk result (EntersAll (rib_of router.old.rib) s.session.config.peering.0 (entry_here router.old.home_as router.old.policies s.session)
        prefixes.now (rib_of router.new.rib)) }
{
    match router.places.get(place) {
        Some(Place::Live { session, .. }) => enter(
            &mut router.rib,
            router.home_as,
            &router.policies,
            session,
            prefixes,
        ),
        Some(Place::Shadow { .. }) | None => Ok(()),
    }
}

/// Follows what the live session of a peering read. Its entries become what it brings in now. All best routes are due
/// on it once it is established, and nothing is due once it is closed.
pub(crate) fn follow(
    router: &mut Fields,
    peering: PeeringId,
    step: ReadStep,
) -> Result<(), NoMemory>
    requires places { peering.0 < length router.old.places.places }
    requires sets { peering.0 < length router.old.due_out }
    ensures { (s : RunningSession) (o : Option Errand) → RunsAt router.old.places.places peering.0 s o → s.session.config.peering.0 ≡ peering.0
        → OnOk result (FollowsStep router.old peering.0 s step router.new) }
{
    let place = usize::from(peering.0);
    match step {
        ReadStep::Opened => Ok(()),
        ReadStep::Established => {
            let due = all_best(router.alloc, &router.rib)?;
            router.due_out.put(place, due);
            Ok(())
        }
        ReadStep::Changed(prefixes) => enter_at(router, place, prefixes.as_slice()),
        ReadStep::Closed(prefixes) => {
            router.due_out.clear(place);
            enter_at(router, place, prefixes.as_slice())
        }
    }
}

/// Lets the live session of a peering read one message, and follows it. Returns whether there was one.
fn read_one(
    router: &mut Fields,
    peering: PeeringId,
    post: &mut Post<Item<Capsule>>,
) -> Result<bool, NoMemory>
    requires { KeepsBut peering.0 router.old }
    ensures edges { SameEdges post.old post.new }
    ensures read { IfOk result (λ more. MatchBool more (ReadsOne peering.0 router.old post.old router.new post.new)
        (ReadsNone peering.0 router.old post.old router.new post.new)) }
{
    let Some(step) = read(&mut router.places, usize::from(peering.0))? else {
        return Ok(false);
    };
    let event = RouterEvent::Got {
        peering: u32::from(peering.0),
    };
    note_router(post, event)?;
    follow(router, peering, step)?;
    Ok(true)
}

/// Lets the live session of a peering read all that it can.
pub(crate) fn read_all(
    router: &mut Fields,
    peering: PeeringId,
    post: &mut Post<Item<Capsule>>,
) -> Result<(), NoMemory>
    requires { KeepsBut peering.0 router.old }
    ensures edges { SameEdges post.old post.new }
    ensures read { OnOk result (ReadsAll peering.0 router.old post.old router.new post.new) }
{
    'messages: while read_one(router, peering, post)? {}
    Ok(())
}
