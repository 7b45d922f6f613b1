//! One turn's pass over a link.

ghost use Rattle.std.specs.Prelude.{◌≡◌, ◌<◌, length, IfOk, OnOk};
ghost use Rattle.ring_net.specs.Posts.{SameEdges};
ghost use Rattle.session_value.specs.Sessions.{SessionValue};
ghost use Rattle.far_side.specs.Links.{given};
ghost use Rattle.far_side.specs.Parts.{FarSideInvariant, ForEach, link_to, with_link};
ghost use Rattle.far_side.specs.Passes.{Hands, LinkStep, LinkPass};

use crate::fields::Fields;
use crate::link::Act;
use graft_actors::{note_far, note_far_sent};
use graft_edge::{NoMemory, RouterId};
use graft_model::FarEvent;
use graft_steps::Item;
use ring_net::Post;
use tcp_seq::Way;

/// Delivers the segment at an index of a link: home to router `to`, or to the remote. If it is kept, a copy is
/// delivered, and otherwise it leaves the link.
fn deliver<C: Drop>(
    far: &mut Fields,
    way: Way,
    index: u32,
    keep: bool,
    to: RouterId,
    post: &mut Post<Item<C>>,
) -> Result<(), NoMemory>
    requires keeps { FarSideInvariant far.old }
    requires index { index < length (link_to far.old way).plans }
    ensures edges { SameEdges post.old post.new }
    ensures handed { OnOk result (Hands way (link_to far.old way) index keep to.0 far.old.remote post.old far.new.remote post.new) }
    ensures left { OnOk result (far.new ≡ with_link (record far.old { remote = far.new.remote }) way (given keep index (link_to far.old way))) }
{
    match way {
        Way::Home => {
            let segment = far.homeward.give(index, keep)?;
            let passed = FarEvent::Pass {
                index,
                keep,
                router: to.0 as u32,
            };
            note_far_sent(post, passed, to.0 as usize, Item::Seg(segment))
        }
        Way::Remote => {
            note_far(post, FarEvent::Reach { index, keep })?;
            let segment = far.remoteward.give(index, keep)?;
            far.remote.arrive(segment)
        }
    }
}

/// Does what the plan says to the segment at an index of a link. Returns the index of the next segment.
fn step<C: Drop>(
    far: &mut Fields,
    way: Way,
    index: u32,
    post: &mut Post<Item<C>>,
) -> Result<u32, NoMemory>
    requires keeps { FarSideInvariant far.old }
    requires index { index < length (link_to far.old way).plans }
    ensures edges { SameEdges post.old post.new }
    ensures step { IfOk result (λ next. ForEach (λ (session : C → SessionValue). LinkStep session way far.old index post.old far.new next post.new) far.new) }
{
    let plan = far.link(way).plan(index);
    let pointer = far.pointer;
    match plan.act() {
        Act::Stays => far.keep(way, index),
        Act::Delivered { keep: true } => {
            deliver(far, way, index, true, pointer, post)?;
            far.keep(way, index)
        }
        Act::Delivered { keep: false } => {
            deliver(far, way, index, false, pointer, post)?;
            Ok(index)
        }
        Act::Copied => {
            deliver(far, way, index, false, plan.pointed, post)?;
            Ok(index)
        }
        Act::Lost => {
            note_far(post, FarEvent::Lose { way, index })?;
            far.remove(way, index);
            Ok(index)
        }
    }
}

/// Does what the plan says to the segments of a link in one turn, in ascending order of index.
pub(crate) fn pass<C: Drop>(
    far: &mut Fields,
    way: Way,
    post: &mut Post<Item<C>>,
) -> Result<(), NoMemory>
    requires { FarSideInvariant far.old }
    ensures edges { SameEdges post.old post.new }
    ensures pass { OnOk result (ForEach (λ (session : C → SessionValue). LinkPass session way far.old post.old far.new post.new) far.new) }
{
    let mut index = 0;
    for _count in 0..far.link(way).len() {
        index = step(far, way, index, post)?;
    }
    Ok(())
}
