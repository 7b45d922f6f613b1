//! Routes that another router tells.

ghost use Rattle.std.specs.Prelude.{OnOk};
ghost use Rattle.ring_net.specs.Posts.{SameEdges};
ghost use Rattle.graft_steps.specs.declared.item.Item.TheVariants as items;
ghost use Rattle.router_core.specs.Parts.{RouterInvariant};
ghost use Rattle.router_core.specs.Takes.{RouterTakesIt};

use crate::fields::Fields;
use bgp_session::Capsule;
use bgp_types::{From, Prefix, Route, RouterId};
use graft_actors::{note_dropped, note_router};
use graft_edge::NoMemory;
use graft_model::RouterEvent;
use graft_steps::Item;
use rib_stages::InEntry;
use ring_net::Post;

/// Hears what another router tells about a prefix. An item that isn't from a router is dropped.
pub(crate) fn hear(
    router: &mut Fields,
    from: usize,
    prefix: Prefix,
    route: Option<Route>,
    post: &mut Post<Item<Capsule>>,
) -> Result<(), NoMemory>
    requires { RouterInvariant router.old }
    ensures edges { SameEdges post.old post.new }
    ensures took { OnOk result (RouterTakesIt from (items.Told prefix route) router.old post.old router.new post.new) }
{
    if from >= router.routers as usize {
        return note_dropped(post);
    }
    let teller = from as u32;
    note_router(post, RouterEvent::Hear { router: teller })?;
    let telling = InEntry {
        prefix,
        route,
        identifier: 0,
        address: 0,
    };
    router
        .rib
        .set_in(From::Router(RouterId(from as u8)), telling)
}
