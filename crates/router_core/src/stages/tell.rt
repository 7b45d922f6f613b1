//! What other routers are told (RFC 4271, section 9.1.3).

ghost use Rattle.std.specs.Prelude.{◌≡◌, ◌<◌, true, length, OnOk};
ghost use Rattle.std.specs.FinMap as map;
ghost use Rattle.ring_net.specs.Posts.{SameEdges};
ghost use Rattle.session_value.specs.Sets.{has};
ghost use Rattle.rib_stages.specs.Values.{table_at};
ghost use Rattle.router_core.specs.Parts.{RouterInvariant};
ghost use Rattle.router_core.specs.Stages.{TellsAll};
ghost use Rattle.router_core.specs.Tellings.{TellsOne, TellsRouter};

use crate::fields::Fields;
use bgp_session::Capsule;
use bgp_types::Prefix;
use graft_actors::note_router_sent;
use graft_edge::NoMemory;
use graft_model::RouterEvent;
use graft_steps::Item;
use ring_net::Post;

/// Tells a router the best route to a prefix that is due to it and isn't dirty.
fn tell_one(
    router: &mut Fields,
    q: usize,
    prefix: Prefix,
    post: &mut Post<Item<Capsule>>,
) -> Result<(), NoMemory>
    requires keeps { RouterInvariant router.old }
    requires clean { router.old.rib.dirty ≡ map.empty }
    requires there { q < length router.old.due_in }
    requires due { has (table_at router.old.due_in q) prefix ≡ true }
    ensures edges { SameEdges post.old post.new }
    ensures told { OnOk result (TellsOne q prefix router.old post.old router.new post.new) }
{
    let route = router.rib.tell_in(prefix)?;
    router.due_in.remove(q, prefix);
    let told = Item::Told { prefix, route };
    let router = q as u32;
    note_router_sent(post, RouterEvent::Tell { router, prefix }, q, told)
}

/// Tells a router all that is due to it, in ascending order of prefix.
fn tell_router(
    router: &mut Fields,
    q: usize,
    post: &mut Post<Item<Capsule>>,
) -> Result<(), NoMemory>
    requires keeps { RouterInvariant router.old }
    requires clean { router.old.rib.dirty ≡ map.empty }
    requires there { q < length router.old.due_in }
    ensures edges { SameEdges post.old post.new }
    ensures told { OnOk result (TellsRouter q router.old post.old router.new post.new) }
{
    while let Some(prefix) = router.due_in.first(q) {
        tell_one(router, q, prefix, post)?;
    }
    Ok(())
}

/// Tells each other router what is due to it. No prefix may be dirty.
pub(crate) fn tell_all(router: &mut Fields, post: &mut Post<Item<Capsule>>) -> Result<(), NoMemory>
    requires keeps { RouterInvariant router.old }
    requires clean { router.old.rib.dirty ≡ map.empty }
    ensures edges { SameEdges post.old post.new }
    ensures done { OnOk result (TellsAll router.old post.old router.new post.new) }
{
    for q in 0..router.routers {
        tell_router(router, q as usize, post)?;
    }
    Ok(())
}
