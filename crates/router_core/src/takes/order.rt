//! Orders that a router takes, and items that no router takes.

ghost use Rattle.std.specs.Prelude.{OnOk};
ghost use Rattle.ring_net.specs.Posts.{SameEdges};
ghost use Rattle.graft_steps.specs.declared.item.Item.TheVariants as items;
ghost use Rattle.router_core.specs.Parts.{RouterInvariant};
ghost use Rattle.router_core.specs.Takes.{IsNoRouterItem, RouterTakesIt};

use crate::fields::Fields;
use crate::place::{is_free, store};
use bgp_session::Capsule;
use graft_actors::{note_dropped, note_router};
use graft_edge::{NoMemory, PeeringId, RouterId};
use graft_model::RouterEvent;
use graft_steps::{Item, Ordered};
use ring_net::Post;

/// Stores the order of a graft with the live session that it names. It is dropped if it isn't from the operator, if its
/// session isn't live here or has an errand, or if its target isn't one of the routers.
pub(crate) fn admit(
    router: &mut Fields,
    from: usize,
    graft: u32,
    peering: PeeringId,
    target: RouterId,
    post: &mut Post<Item<Capsule>>,
) -> Result<(), NoMemory>
    requires { RouterInvariant router.old }
    ensures edges { SameEdges post.old post.new }
    ensures took { OnOk result (RouterTakesIt from (items.GraftOrder graft peering target) router.old post.old router.new post.new) }
{
    if from != router.routers as usize + router.places.len() {
        return note_dropped(post);
    }
    if u32::from(target.0) >= router.routers {
        return note_dropped(post);
    }
    let place = usize::from(peering.0);
    if place >= router.places.len() {
        return note_dropped(post);
    }
    if !is_free(&router.places, place) {
        return note_dropped(post);
    }
    note_router(post, RouterEvent::Admit { graft })?;
    let ordered = Ordered::new(graft, peering, router.number, target);
    store(&mut router.places, place, ordered);
    Ok(())
}

/// Drops an item that no router takes.
pub(crate) fn drop_other(
    router: &mut Fields,
    from: usize,
    item: Item<Capsule>,
    post: &mut Post<Item<Capsule>>,
) -> Result<(), NoMemory>
    requires keeps { RouterInvariant router.old }
    requires other { IsNoRouterItem item }
    ensures edges { SameEdges post.old post.new }
    ensures took { OnOk result (RouterTakesIt from item router.old post.old router.new post.new) }
{
    note_dropped(post)
}
