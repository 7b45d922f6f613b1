//! A far side's turn.

ghost use Rattle.std.specs.Prelude.{OnOk};
ghost use Rattle.ring_net.specs.Posts.{SameEdges};
ghost use Rattle.session_value.specs.Sessions.{SessionValue};
ghost use Rattle.far_side.specs.Parts.{FarSideInvariant, ForEach};
ghost use Rattle.far_side.specs.Turned.{FarTurnsOnce};

use crate::emit::{send_again, send_answer, send_fresh, send_keepalive};
use crate::fields::Fields;
use crate::pass::pass;
use graft_edge::NoMemory;
use graft_steps::Item;
use ring_net::Post;
use tcp_seq::Way;

/// Delivers from both links as the plan says, makes the retransmission turn, says a KEEPALIVE if one is due, sends all
/// new slices, and sends the acknowledgement that is owed. Returns `NoMemory` at 2^32 turns.
pub(crate) fn turn<C: Drop>(far: &mut Fields, post: &mut Post<Item<C>>) -> Result<(), NoMemory>
    requires { FarSideInvariant far.old }
    ensures edges { SameEdges post.old post.new }
    ensures turned { OnOk result (ForEach (λ (session : C → SessionValue). FarTurnsOnce session far.old post.old far.new post.new) far.new) }
{
    let Some(turns) = far.turns.checked_add(1) else {
        return Err(NoMemory);
    };
    far.turns = turns;
    pass(far, Way::Home, post)?;
    pass(far, Way::Remote, post)?;
    send_again(far, post)?;
    send_keepalive(far, post)?;
    send_fresh(far, post)?;
    send_answer(far, post)
}
