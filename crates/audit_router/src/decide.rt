//! The events of a router.

ghost use Rattle.std.specs.Prelude.{◌≡◌, Some, IfOk, map};
ghost use Rattle.graft_model.specs.TableRows.{holds_established};
ghost use Rattle.graft_model.specs.declared.event.RouterEvent.TheVariants.{Decide};
ghost use Rattle.graft_actors.specs.Actors.{ActorName, IsActor};
ghost use Rattle.audit_channels.specs.Channels.{parcels_in};
ghost use Rattle.audit_ruling.specs.Senders.{router_sender};
ghost use Rattle.audit_router.specs.Decides.{AllFit, Decides, DecidesTaking};
ghost use Rattle.audit_router.specs.Parts.{RouterInvariant, setup_of_router};
ghost use Rattle.audit_router.specs.Places.{place_of};

use crate::place::Place;
use crate::router::AuditedRouter;
use audit_channels::Channel;
use audit_ruling::Ruling;
use bgp_types::Prefix;
use graft_edge::{NoMemory, PeeringId, RouterId};
use graft_model::RouterEvent;
use std::alloc::Global;

/// Returns for each place whether an established session is there.
fn established(alloc: Global, places: &[Place]) -> Result<Vec<bool>, NoMemory>
    ensures { IfOk result (λ up. up.items ≡ map (λ place. holds_established (place_of place)) places.now) }
{
    let mut up = Vec::new(alloc);
    for place in places {
        up.push(place.is_up())?;
    }
    Ok(up)
}

impl AuditedRouter {
    /// Decides a prefix, if it is dirty.
    fn decide_prefix(&mut self, prefix: Prefix) -> Result<Ruling, NoMemory>
        requires { RouterInvariant self.old }
        ensures { IfOk result (λ ruling. Decides (Decide prefix) self.old ruling self.new) }
    {
        if !self.tables.is_dirty(prefix) {
            return Ok(Ruling::Refused);
        }
        let up = established(self.alloc, self.places.as_slice())?;
        self.tables.decide(prefix, up.as_slice())
    }

    /// Lets an event happen that takes no item, if it can; one that takes an item is refused.
    pub fn decide(&mut self, event: RouterEvent) -> Result<Ruling, NoMemory>
        requires { RouterInvariant self.old }
        ensures { IfOk result (λ ruling. Decides event self.old ruling self.new) }
    {
        match event {
            RouterEvent::Put { peering, count } => self.put(peering, count),
            RouterEvent::Emit { peering, from, len } => self.emit(peering, from, len),
            RouterEvent::Got { peering } => self.get(peering),
            RouterEvent::Tick { peering, round } => self.tick(peering, round),
            RouterEvent::Decide { prefix } => self.decide_prefix(prefix),
            RouterEvent::Tell { router, prefix } => self.tables.tell(router, prefix),
            RouterEvent::Refuse { graft } => self.refuse(graft),
            RouterEvent::Freeze { graft } => self.freeze(graft),
            RouterEvent::Leave { graft } => self.leave(graft),
            RouterEvent::Ask { graft, router } => self.ask(graft, router),
            RouterEvent::Confirm { graft } => self.confirm(graft),
            _ => Ok(Ruling::Refused),
        }
    }

    /// Lets an event happen that takes the next item of a channel, if it can. The channel must come from the actor that
    /// the event names; an event that names none is refused.
    pub fn decide_taking(
        &mut self,
        event: RouterEvent,
        channel: &mut Channel,
    ) -> Result<Ruling, NoMemory>
        requires sound { RouterInvariant self.old }
        requires sender { (from : ActorName) → router_sender event ≡ Some from
            → IsActor (setup_of_router self.old) from × AllFit self.old from (parcels_in channel.old) }
        ensures { (from : ActorName) → router_sender event ≡ Some from
            → IfOk result (λ ruling. DecidesTaking event from self.old (parcels_in channel.old) ruling self.new (parcels_in channel.new)) }
    {
        match event {
            RouterEvent::Arrive { peering } => self.arrive(PeeringId(peering as u8), channel),
            RouterEvent::Stray { peering } => self.stray(PeeringId(peering as u8), channel),
            RouterEvent::Hear { router } => self.tables.hear(RouterId(router as u8), channel),
            RouterEvent::Admit { graft } => self.admit(graft, channel),
            RouterEvent::Land { router } => self.land(RouterId(router as u8), channel),
            RouterEvent::TurnBack { router } => self.turn_back(RouterId(router as u8), channel),
            RouterEvent::Return { router } => self.give_back(RouterId(router as u8), channel),
            RouterEvent::Clear { router } => self.clear(RouterId(router as u8), channel),
            RouterEvent::Answer { router } => self.answer(RouterId(router as u8), channel),
            RouterEvent::Collect { router } => self.collect(RouterId(router as u8), channel),
            _ => Ok(Ruling::Refused),
        }
    }
}
