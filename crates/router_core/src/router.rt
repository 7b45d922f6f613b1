//! A home router.

ghost use Rattle.std.specs.Prelude.{◌≡◌, false};
ghost use Rattle.router_core.specs.Parts.{RouterInvariant};
ghost use Rattle.router_core.specs.FieldProps.{RouterInvariant-prop-if};

use crate::fields::Fields;
use crate::outstanding::{nothing_left, outstanding};
use crate::place::{Place, sessions_of};
use crate::stages::{stuck, turn};
use crate::takes;
use actor_configs::RouterConfig;
use bgp_session::{Capsule, Session};
use graft_actors::Known;
use graft_edge::{Items, NoMemory, PeeringId};
use graft_steps::{Item, RouterRest};
use rib_stages::Rib;
use ring_net::Post;
use std::alloc::Global;

/// A home router, as an actor: it holds sessions in its places, keeps routes and the best of them, and tells them to the other routers and on its sessions.
#[derive(Drop)]
pub struct Router {
    fields: Fields,
    // Whether memory ran out. From then on no call does anything.
    has_failed: bool,
    ghost sound: { has_failed ≡ false → RouterInvariant fields } by { RouterInvariant-prop-if has_failed fields },
}

impl Router {
    ghost use Rattle.std.specs.Prelude.{ℕ, ◌≡◌, ◌↔◌, Bool, false, Option, Some, option_map, OnOk, IfOk, IfSome, IfNone, IsTrue};
    ghost use Rattle.ring_net.specs.Posts.{TookItem, Moved, SameEdges};
    ghost use Rattle.bgp_session.specs.Running.{RunningSession, carried};
    ghost use Rattle.session_value.specs.Sessions.{SessionValue};
    ghost use Rattle.rib_stages.specs.Values.{rib_of};
    ghost use Rattle.settled_check.specs.Rests.{IsRouterRest};
    ghost use Rattle.graft_model.specs.Setups.{IsSetup};
    ghost use Rattle.graft_actors.specs.Acts.{acts};
    ghost use Rattle.actor_configs.specs.Configs.{IsRouterConfigOf};
    ghost use Rattle.router_core.specs.Places.{RunsAt, sessions_in};
    ghost use Rattle.router_core.specs.Routers.{router_own_part, part_of_router, IsNewRouter, IsHeldAt, RouterWorks, took_by_router, turned_by_router};
    ghost use Rattle.router_core.specs.Updates.{IsFirstStuck};

    /// Returns a router that begins with this configuration, in its laboratory. Its own networks are dirty, and the
    /// sessions that start here have put their OPENs.
    pub fn new(alloc: Global, known: Known, config: RouterConfig) -> Result<Router, NoMemory>
        requires setup { IsSetup known.setup }
        requires config { IsRouterConfigOf known.setup config }
        ensures { IfOk result (IsNewRouter known.setup config) }
    {
        let fields = crate::stages::begin(alloc, known, config)?;
        Ok(Router {
            fields,
            has_failed: false,
        })
    }

    /// Takes an item that the actor of number `from` sent, and then lets the session that took a segment, or came here,
    /// read all that it can. It writes at least one event to the journal, the first of which takes the item. If it
    /// drops the item, it writes an entry that is no event instead. These items are dropped: an item that no router
    /// takes from that actor; a segment of an unknown peering, one on its way to the remote, one with more than 65,535
    /// bytes, or one whose numbers are outside the stream; an order for a peering whose session isn't live here or has
    /// an errand, or with an unknown target; a session whose place here is taken, that isn't established, or that has
    /// other initial sequence numbers than its peering; and a session that comes back, or word of a landing, if there
    /// is no shadow of that graft. Once memory ran out, every take and turn returns `NoMemory`.
    pub fn take(
        &mut self,
        from: usize,
        item: Item<Capsule>,
        post: &mut Post<Item<Capsule>>,
    ) -> Result<(), NoMemory>
        ensures took { OnOk result (TookItem router_own_part (acts carried) took_by_router from item self.old post.old self.new post.new) }
        ensures edges { SameEdges post.old post.new }
    {
        if self.has_failed {
            return Err(NoMemory);
        }
        let taken = takes::take(&mut self.fields, from, item, post);
        self.has_failed = taken.is_err();
        taken
    }

    /// Makes the retransmission turn of each session, lets a round pass on each whose hold time runs, refuses the
    /// stored grafts or sends their sessions away, and decides every dirty prefix. It then tells the other routers what
    /// is due, asks the next router or tells the source of each session that has landed, and tells the sessions. Last,
    /// it emits what may be emitted, and the acknowledgements that are owed. Once memory ran out, every take and turn
    /// returns `NoMemory`.
    pub fn turn(&mut self, post: &mut Post<Item<Capsule>>) -> Result<(), NoMemory>
        ensures turned { OnOk result (Moved router_own_part (acts carried) turned_by_router self.old post.old self.new post.new) }
        ensures edges { SameEdges post.old post.new }
    {
        if self.has_failed {
            return Err(NoMemory);
        }
        let turned = turn(&mut self.fields, post);
        self.has_failed = turned.is_err();
        turned
    }

    /// Does nothing at a mark, and returns false.
    pub fn between(&mut self, _post: &mut Post<Item<Capsule>>) -> Result<bool, NoMemory>
        ensures nothing { IfOk result (λ made. made ≡ false) }
        ensures same { (self.new ≡ self.old) × (_post.new ≡ _post.old) }
    {
        Ok(false)
    }

    /// Returns the lowest peering whose live session is stuck, with a length above 1,044,480 bytes, or `None` if no
    /// session is stuck. The length is that which its stream would reach with its next UPDATE; or else, if the session
    /// isn't closed and its hold time runs, that which it would reach with a KEEPALIVE, so that no round may pass on
    /// it.
    pub fn stuck(&self) -> Result<Option<(PeeringId, usize)>, NoMemory>
        ensures { IfOk result (λ answer. IsFirstStuck (router_own_part self.now).setup self.now.fields.number.0
            (part_of_router self.now) (option_map (λ x. (x.0.0, x.1)) answer)) }
    {
        if self.has_failed {
            return Err(NoMemory);
        }
        stuck(&self.fields)
    }

    /// Returns the session of a peering, if it is held here. Between calls none is frozen.
    pub fn session(&self, peering: PeeringId) -> Option<&Session>
        ensures some { IfSome result (λ session. IsHeldAt self.now peering.0 session.now) }
        ensures none { IfNone result ((s : RunningSession) → ¬ IsHeldAt self.now peering.0 s) }
    {
        match self.fields.places.get(usize::from(peering.0))? {
            Place::Live { session, .. } => Some(session),
            Place::Shadow { .. } => None,
        }
    }

    /// Returns the routes of the router: what each peering and each other router gave, and the best of them.
    pub fn rib(&self) -> &Rib
        ensures entries { (rib_of result.now).entries ≡ (part_of_router self.now).entries }
        ensures tellings { (rib_of result.now).tellings ≡ (part_of_router self.now).tellings }
        ensures best { result.now.best ≡ (part_of_router self.now).best }
        ensures dirty { result.now.dirty ≡ (part_of_router self.now).dirty }
    {
        &self.fields.rib
    }

    /// Returns what is left to do.
    pub fn rest(&self) -> RouterRest
        ensures { RouterWorks self.now → IsRouterRest self.now.fields.number.0 (part_of_router self.now) result }
    {
        if self.has_failed {
            return nothing_left(self.fields.number);
        }
        outstanding(&self.fields)
    }

    /// Consumes the router, and returns the sessions that it holds, in ascending order of peering.
    pub fn into_sessions(self, alloc: Global) -> Result<Items<Session>, NoMemory>
        ensures { IfOk result (λ sessions. sessions ≡ sessions_in self.fields.places.places) }
    {
        let Router { fields, .. } = self;
        sessions_of(alloc, fields.places)
    }
}
