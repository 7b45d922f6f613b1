//! Emission of segments.

ghost use Rattle.std.specs.Prelude.{◌<◌, length, OnOk};
ghost use Rattle.ring_net.specs.Posts.{SameEdges};
ghost use Rattle.router_core.specs.Parts.{RouterInvariant};
ghost use Rattle.router_core.specs.Visits.{Visits, answering, emitting, sending_new};

use super::send::{answer, next, outlet_of};
use super::visit::Visit;
use crate::fields::Fields;
use bgp_session::Capsule;
use graft_edge::NoMemory;
use graft_steps::Item;
use ring_net::Post;

/// Emits all new slices of a session that may be emitted.
fn send_new_at(
    router: &mut Fields,
    n: usize,
    post: &mut Post<Item<Capsule>>,
) -> Result<(), NoMemory>
    requires keeps { RouterInvariant router.old }
    requires place { n < length router.old.places.places }
    ensures edges { SameEdges post.old post.new }
    ensures sent { OnOk result (Visits sending_new n router.old post.old router.new post.new) }
{
    let outlet = outlet_of(router, n);
    loop {
        let Some(segment) = next(&mut router.places, n)? else {
            return Ok(());
        };
        outlet.send(segment, post)?;
    }
}

/// Emits the acknowledgement that a session owes.
fn send_answer_at(
    router: &mut Fields,
    n: usize,
    post: &mut Post<Item<Capsule>>,
) -> Result<(), NoMemory>
    requires keeps { RouterInvariant router.old }
    requires place { n < length router.old.places.places }
    ensures edges { SameEdges post.old post.new }
    ensures sent { OnOk result (Visits answering n router.old post.old router.new post.new) }
{
    let outlet = outlet_of(router, n);
    let Some(segment) = answer(&mut router.places, n) else {
        return Ok(());
    };
    outlet.send(segment, post)
}

/// The stage at which each session emits all that may be emitted, and the acknowledgement that it owes.
#[derive(Drop)]
pub(crate) struct Emit;

impl Visit for Emit {
    ghost stage = { λ stage. emitting };

    fn visit(
        &self,
        router: &mut Fields,
        n: usize,
        post: &mut Post<Item<Capsule>>,
    ) -> Result<(), NoMemory> {
        send_new_at(router, n, post)?;
        send_answer_at(router, n, post)
    }
}
