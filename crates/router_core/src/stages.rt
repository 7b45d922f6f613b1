//! A router's turn, stage by stage.

mod again;
mod begin;
mod confirm;
mod decide;
mod emit;
mod grafts;
mod put;
mod rounds;
mod send;
mod tell;
mod visit;

ghost use Rattle.std.specs.Prelude.{OnOk};
ghost use Rattle.ring_net.specs.Posts.{SameEdges};
ghost use Rattle.router_core.specs.Parts.{RouterInvariant};
ghost use Rattle.router_core.specs.Turned.{RouterTurnsOnce};

use crate::fields::Fields;
use again::SendAgain;
pub(crate) use begin::begin;
use bgp_session::Capsule;
use confirm::Confirm;
use decide::decide_all;
use emit::Emit;
use graft_edge::NoMemory;
use graft_steps::Item;
use grafts::BeginGrafts;
use put::put_all;
pub(crate) use put::stuck;
use ring_net::Post;
use rounds::PassRounds;
use tell::tell_all;
use visit::visit_all;

/// Makes one turn, stage by stage. Returns `NoMemory` at 2^32 turns.
pub(crate) fn turn(router: &mut Fields, post: &mut Post<Item<Capsule>>) -> Result<(), NoMemory>
    requires { RouterInvariant router.old }
    ensures edges { SameEdges post.old post.new }
    ensures turned { OnOk result (RouterTurnsOnce router.old post.old router.new post.new) }
{
    let Some(turns) = router.turns.checked_add(1) else {
        return Err(NoMemory);
    };
    router.turns = turns;
    visit_all(&SendAgain, router, post)?;
    visit_all(&PassRounds(router.turns), router, post)?;
    visit_all(&BeginGrafts, router, post)?;
    decide_all(router, post)?;
    tell_all(router, post)?;
    visit_all(&Confirm, router, post)?;
    put_all(router, post)?;
    visit_all(&Emit, router, post)
}
