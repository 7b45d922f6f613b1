//! Items that a far side takes.

ghost use Rattle.std.specs.Prelude.{ℕ, OnOk};
ghost use Rattle.ring_net.specs.Posts.{SameEdges, TookItem};
ghost use Rattle.graft_steps.specs.declared.item.Item.TheVariants as items;
ghost use Rattle.session_value.specs.Sessions.{SessionValue};
ghost use Rattle.graft_actors.specs.Acts.{acts};
ghost use Rattle.far_side.specs.Parts.{FarSideInvariant, ForEach};
ghost use Rattle.far_side.specs.Takes.{FarTakesIt};

use crate::fields::Fields;
use graft_actors::{note_dropped, note_far};
use graft_edge::{NoMemory, RouterId};
use graft_model::FarEvent;
use graft_steps::Item;
use ring_net::Post;
use tcp_seq::Segment;

/// Takes a segment of a router into the link to the remote. A segment that isn't from a router or isn't for this remote
/// is dropped.
fn take_segment<C: Drop>(
    far: &mut Fields,
    from: usize,
    segment: Segment,
    post: &mut Post<Item<C>>,
) -> Result<(), NoMemory>
    requires { FarSideInvariant far.old }
    ensures edges { SameEdges post.old post.new }
    ensures took { OnOk result
        (ForEach (λ (session : C → SessionValue). FarTakesIt session from (items.Seg segment) far.old post.old far.new post.new) far.new) }
{
    if from >= far.routers as usize {
        return note_dropped(post);
    }
    if !far.remote.is_for(&segment) {
        return note_dropped(post);
    }
    let router = from as u32;
    note_far(post, FarEvent::Take { router })?;
    far.remoteward.put(segment, &far.plan, far.pointer)
}

/// Takes the word of a router that a session landed there, and points the link at that router if the graft is later
/// than the last one followed.
fn take_word<C: Drop>(
    far: &mut Fields,
    from: usize,
    graft: u32,
    post: &mut Post<Item<C>>,
) -> Result<(), NoMemory>
    requires { FarSideInvariant far.old }
    ensures edges { SameEdges post.old post.new }
    ensures took { OnOk result
        (ForEach (λ (session : C → SessionValue). FarTakesIt session from (items.PointAt graft) far.old post.old far.new post.new) far.new) }
{
    if from >= far.routers as usize {
        return note_dropped(post);
    }
    let router = from as u32;
    note_far(post, FarEvent::Point { router })?;
    if far.followed >= graft {
        return Ok(());
    }
    far.pointer = RouterId(from as u8);
    far.followed = graft;
    Ok(())
}

/// Takes the order of the operator to say the bytes of a step. An order that isn't from the operator, that is of no
/// step of this remote, or for whose bytes there is no room is dropped.
fn take_order<C: Drop>(
    far: &mut Fields,
    from: usize,
    step: u32,
    post: &mut Post<Item<C>>,
) -> Result<(), NoMemory>
    requires { FarSideInvariant far.old }
    ensures edges { SameEdges post.old post.new }
    ensures took { OnOk result
        (ForEach (λ (session : C → SessionValue). FarTakesIt session from (items.SayOrder step) far.old post.old far.new post.new) far.new) }
{
    if from != far.routers as usize + far.peerings as usize {
        return note_dropped(post);
    }
    let Some(bytes) = far.says.get(step) else {
        return note_dropped(post);
    };
    if !far.remote.has_room(bytes.len()) {
        return note_dropped(post);
    }
    note_far(post, FarEvent::Say { step })?;
    far.remote.say(bytes.as_slice())
}

/// Takes an item that the actor `from` sent.
pub(crate) fn take<C: Drop>(
    far: &mut Fields,
    from: usize,
    item: Item<C>,
    post: &mut Post<Item<C>>,
) -> Result<(), NoMemory>
    requires { FarSideInvariant far.old }
    ensures edges { SameEdges post.old post.new }
    ensures took { OnOk result (ForEach (λ (session : C → SessionValue). FarTakesIt session from item far.old post.old far.new post.new) far.new) }
{
    match item {
        Item::Seg(segment) => take_segment(far, from, segment, post),
        Item::PointAt { graft } => take_word(far, from, graft, post),
        Item::SayOrder { step } => take_order(far, from, step, post),
        _ => note_dropped(post),
    }
}
