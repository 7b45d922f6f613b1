//! What the remote sends in a turn, and the KEEPALIVEs that it says at its interval.

ghost use Rattle.std.specs.Prelude.{ℕ, ◌≡◌, ◌<◌, ◌≤◌, ◌∷◌, [], length, IfOk, OnOk, IsTrue, ◌↔◌};
ghost use Rattle.ring_net.specs.Posts.{SameEdges};
ghost use Rattle.session_value.specs.Sessions.{SessionValue};
ghost use Rattle.session_value.specs.Cases.{sending};
ghost use Rattle.tcp_seq.specs.Placed.{placed};
ghost use Rattle.bgp_types.specs.declared.message.Message.TheVariants.{KeepaliveMsg};
ghost use Rattle.bgp_types.specs.Spelling.{spell};
ghost use Rattle.remote_end.specs.Remotes.{IsFrom};
ghost use Rattle.graft_actors.specs.Notes.{WroteOne};
ghost use Rattle.graft_model.specs.Codes.{far_code};
ghost use Rattle.graft_model.specs.declared.event.FarEvent.TheVariants.{Send};
ghost use Rattle.far_side.specs.Parts.{FarSideInvariant, ForEach};
ghost use Rattle.far_side.specs.Passes.{put_in, SentAgain, SentFresh, SentAnswer, Beaten, IsDue};

use crate::fields::Fields;
use bgp_types::KEEPALIVE_MESSAGE;
use graft_actors::note_far;
use graft_edge::NoMemory;
use graft_model::FarEvent;
use graft_steps::Item;
use ring_net::Post;
use tcp_seq::Segment;

/// The most KEEPALIVEs that are said at the interval.
const MOST_KEEPALIVES: u32 = 27_594;

/// Puts a segment of the remote that begins at an offset into the link to home.
fn send<C: Drop>(
    far: &mut Fields,
    from: u32,
    segment: Segment,
    post: &mut Post<Item<C>>,
) -> Result<(), NoMemory>
    requires keeps { FarSideInvariant far.old }
    requires own { IsFrom far.old.remote segment }
    ensures edges { SameEdges post.old post.new }
    ensures sent { OnOk result (WroteOne post.old (far_code (Send from (length segment.bytes))) [] post.new
        × (far.new ≡ record far.old { homeward = put_in far.old.homeward far.old (placed far.old.remote.send_first far.old.remote.receive_first segment) })) }
{
    let len = segment.bytes.len() as u32;
    note_far(post, FarEvent::Send { from, len })?;
    far.homeward.put(segment, &far.plan, far.pointer)
}

/// Makes the retransmission turn.
pub(crate) fn send_again<C: Drop>(
    far: &mut Fields,
    post: &mut Post<Item<C>>,
) -> Result<(), NoMemory>
    requires { FarSideInvariant far.old }
    ensures edges { SameEdges post.old post.new }
    ensures sent { OnOk result (ForEach (λ (session : C → SessionValue). SentAgain session far.old post.old far.new post.new) far.new) }
{
    let from = far.remote.acked();
    let Some(segment) = far.remote.again()? else {
        return Ok(());
    };
    send(far, from, segment, post)
}

/// Sends all new slices that the stream has and the flight has room for.
pub(crate) fn send_fresh<C: Drop>(
    far: &mut Fields,
    post: &mut Post<Item<C>>,
) -> Result<(), NoMemory>
    requires { FarSideInvariant far.old }
    ensures edges { SameEdges post.old post.new }
    ensures sent { OnOk result (ForEach (λ (session : C → SessionValue). SentFresh session far.old post.old far.new post.new) far.new) }
{
    loop {
        let from = far.remote.emitted();
        let Some(segment) = far.remote.next()? else {
            return Ok(());
        };
        send(far, from, segment, post)?;
    }
}

/// Sends the acknowledgement that is owed.
pub(crate) fn send_answer<C: Drop>(
    far: &mut Fields,
    post: &mut Post<Item<C>>,
) -> Result<(), NoMemory>
    requires { FarSideInvariant far.old }
    ensures edges { SameEdges post.old post.new }
    ensures sent { OnOk result (ForEach (λ (session : C → SessionValue). SentAnswer session far.old post.old far.new post.new) far.new) }
{
    let from = far.remote.emitted();
    let Some(segment) = far.remote.answer() else {
        return Ok(());
    };
    send(far, from, segment, post)
}

/// Returns whether a KEEPALIVE is to be sent in this turn.
fn is_due(far: &Fields) -> bool
    ensures { IsTrue result ↔ IsDue far.now }
{
    far.keepalive_interval > 0
        && far.turns % far.keepalive_interval == 0
        && far.last_keepalive < far.turns
        && far.keepalives < MOST_KEEPALIVES
        && far.remote.has_room(KEEPALIVE_MESSAGE.len())
}

/// Sends a KEEPALIVE if one is due.
pub(crate) fn send_keepalive<C: Drop>(
    far: &mut Fields,
    post: &mut Post<Item<C>>,
) -> Result<(), NoMemory>
    requires { FarSideInvariant far.old }
    ensures edges { SameEdges post.old post.new }
    ensures beaten { OnOk result (ForEach (λ (session : C → SessionValue). Beaten session far.old post.old far.new post.new) far.new) }
{
    if !is_due(far) {
        return Ok(());
    }
    note_far(post, FarEvent::Beat { round: far.turns })?;
    far.remote.say(&KEEPALIVE_MESSAGE)?;
    far.keepalives += 1;
    far.last_keepalive = far.turns;
    Ok(())
}
