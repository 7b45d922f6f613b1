//! Events of a graft at its target, and of the routers that it asks: the landing or the refusal, the questions and their
//! answers, and word of the landing.

ghost use Rattle.std.specs.Prelude.{ℕ, ◌≡◌, ◌<◌, ◌≤◌, ◌↔◌, ◌∷◌, IsTrue, IfOk, IfSome, IfNone, OnOk, Some, None, count_by, length, slice_get};
ghost use Rattle.session_value.specs.declared.config.SessionConfig.{SessionConfig};
ghost use Rattle.graft_steps.specs.Refusals.{admit_refusal};
ghost use Rattle.graft_steps.specs.declared.item.Item.TheVariants as items;
ghost use Rattle.graft_model.specs.Setups.{routers_in, peerings_in, missing_policy, room_of};
ghost use Rattle.graft_model.specs.GraftRows.{is_taken, taken_in};
ghost use Rattle.graft_model.specs.Parts.{Vacant};
ghost use Rattle.graft_model.specs.declared.event.RouterEvent.TheVariants.{Land, TurnBack, Ask, Answer, Collect, Confirm};
ghost use Rattle.graft_actors.specs.Actors.{Router};
ghost use Rattle.router_tables.specs.Owned.{IsOfPeering};
ghost use Rattle.audit_channels.specs.Channels.{parcels_in};
ghost use Rattle.audit_router.specs.Decides.{AllFit, Decides, DecidesTaking};
ghost use Rattle.audit_router.specs.Grafts.{AsksNextAt, MayConfirmAt};
ghost use Rattle.audit_router.specs.Landed.{ComesTo, SettlesIn};
ghost use Rattle.audit_router.specs.Nexts.{coming_in};
ghost use Rattle.audit_router.specs.Parts.{RouterInvariant, router_part, setup_of_router};
ghost use Rattle.audit_router.specs.Places.{place_at, place_of};

use crate::next::{next_answer, next_question, next_session};
use crate::place::{Errand, Place};
use crate::router::AuditedRouter;
use audit_channels::Channel;
use audit_ruling::Ruling;
use bgp_session::{Capsule, Session};
use graft_edge::{NoMemory, PeeringId, RouterId};
use graft_steps::{Item, Landed, Refusal, admit};
use session_value::SessionConfig;

/// Takes out the session that moves here next, with the number of its graft. If none is next, nothing is said of the
/// channel.
fn take_session(channel: &mut Channel) -> Option<(u32, Capsule)>
    ensures some { IfSome result (λ x. parcels_in channel.old ≡ items.Moved x.0 x.1 ∷ parcels_in channel.new) }
    ensures none { IfNone result (coming_in (slice_get (parcels_in channel.old) 0) ≡ None) }
{
    match channel.take()? {
        Item::Moved { graft, capsule } => Some((graft, capsule)),
        _ => None,
    }
}

/// Returns the number of places that are taken.
fn count_taken(places: &[Place]) -> u32
    requires { length places.now ≤ 256 }
    ensures { result ≡ count_by (λ place. is_taken (place_of place)) places.now }
{
    places.iter().filter(|place| place.is_taken()).count() as u32
}

impl AuditedRouter {
    /// Returns the number of the router's places that are taken.
    fn taken(&self) -> u32
        requires { RouterInvariant self.now }
        ensures { result ≡ taken_in (setup_of_router self.now) (router_part self.now) }
    {
        count_taken(&self.places)
    }

    /// Returns why the router doesn't take in a session of this configuration, if there is a reason.
    fn admission(&self, config: &SessionConfig) -> Result<Option<Refusal>, NoMemory>
        requires { RouterInvariant self.now }
        ensures { IfOk result (λ refusal. refusal ≡ admit_refusal (taken_in (setup_of_router self.now) (router_part self.now))
            (room_of (setup_of_router self.now) self.now.tables.number.0) (missing_policy (setup_of_router self.now) self.now.tables.number.0 config.now)) }
    {
        let missing = self.tables.missing_policy(config)?;
        Ok(admit(self.taken(), self.room, missing).err())
    }

    /// Returns whether the place of a peering is vacant.
    fn is_vacant(&self, peering: PeeringId) -> bool
        ensures { IsTrue result
            ↔ ((peering.0 < length self.now.places.items) × (place_at self.now.places.items peering.0 ≡ Place.Vacant)) }
    {
        match self.places.get(usize::from(peering.0)) {
            Some(place) => !place.is_taken(),
            None => false,
        }
    }

    /// Returns why the router doesn't take in the session that moves here next, as `Some(None)` if it does. `None` if
    /// none is next, or its place isn't vacant.
    fn coming(&self, channel: &Channel) -> Result<Option<Option<Refusal>>, NoMemory>
        requires { RouterInvariant self.now }
        ensures { IfOk result (λ answer. (refusal : _) → (answer ≡ Some refusal) ↔ ComesTo self.now (parcels_in channel.now) refusal) }
    {
        let Some(config) = next_session(channel) else {
            return Ok(None);
        };
        if !self.is_vacant(config.peering) {
            return Ok(None);
        }
        Ok(Some(self.admission(config)?))
    }

    /// Takes in the routes of a session that lands, and makes it live. Word of that is owed to its source.
    fn settle_in(&mut self, q: RouterId, graft: u32, session: Session) -> Result<(), NoMemory>
        requires sound { RouterInvariant self.old }
        requires there { q.0 < routers_in (setup_of_router self.old) }
        requires place { session.session.config.peering.0 < peerings_in (setup_of_router self.old) }
        requires own { IsOfPeering (setup_of_router self.old) session.session.config.peering.0 session.session }
        requires vacant { (router_part self.old).places session.session.config.peering.0 ≡ Vacant }
        ensures { OnOk result (SettlesIn q.0 graft session self.old self.new) }
    {
        let peering = session.config().peering;
        let p = usize::from(peering.0);
        let prefixes = session.heard().prefixes()?;
        self.tables.enter(&session, prefixes.as_slice())?;
        self.tables.set_due_again(p, &session)?;
        let landed = Landed::new(graft, peering, q, self.tables.number());
        self.places[p] = Place::Live {
            session,
            errand: Some(Errand::Owing(landed)),
        };
        Ok(())
    }

    /// Lets the session that a router sends here next land, if its place is vacant and the router takes it in.
    pub(crate) fn land(&mut self, q: RouterId, channel: &mut Channel) -> Result<Ruling, NoMemory>
        requires sound { RouterInvariant self.old }
        requires there { q.0 < routers_in (setup_of_router self.old) }
        requires fits { AllFit self.old (Router q.0) (parcels_in channel.old) }
        ensures { IfOk result (λ ruling. DecidesTaking (Land q.0) (Router q.0) self.old (parcels_in channel.old) ruling self.new (parcels_in channel.new)) }
    {
        let Some(refusal) = self.coming(channel)? else {
            return Ok(Ruling::Refused);
        };
        if refusal.is_some() {
            return Ok(Ruling::Refused);
        }
        let Some((graft, capsule)) = take_session(channel) else {
            unreachable!()
        };
        let to = self.far_side(u32::from(capsule.config().peering.0));
        self.settle_in(q, graft, capsule.land())?;
        Ok(Ruling::Sends {
            to,
            item: Item::PointAt { graft },
        })
    }

    /// Sends the session that a router sends here next back to it, if its place is vacant but the router doesn't take it
    /// in.
    pub(crate) fn turn_back(
        &mut self,
        q: RouterId,
        channel: &mut Channel,
    ) -> Result<Ruling, NoMemory>
        requires sound { RouterInvariant self.old }
        requires there { q.0 < routers_in (setup_of_router self.old) }
        requires fits { AllFit self.old (Router q.0) (parcels_in channel.old) }
        ensures { IfOk result (λ ruling. DecidesTaking (TurnBack q.0) (Router q.0) self.old (parcels_in channel.old)
            ruling self.new (parcels_in channel.new)) }
    {
        let Some(refusal) = self.coming(channel)?.flatten() else {
            return Ok(Ruling::Refused);
        };
        let Some((graft, capsule)) = take_session(channel) else {
            unreachable!()
        };
        Ok(Ruling::Sends {
            to: usize::from(q.0),
            item: Item::Back {
                graft,
                capsule,
                refusal,
            },
        })
    }

    /// Returns the first place of this graft where the router is to be asked next.
    fn asking_place(&self, graft: u32, q: u32) -> Option<usize>
        ensures some { IfSome result (λ p. AsksNextAt self.now graft p q) }
        ensures none { IfNone result ((p : ℕ) → ¬ AsksNextAt self.now graft p q) }
    {
        for p in 0..self.places.len() {
            if self.places[p].asks(graft, self.routers, q) {
                return Some(p);
            }
        }
        None
    }

    /// Asks a router whether it has heard what was told, if it is next in this graft, no prefix is dirty and nothing is
    /// due to it.
    pub(crate) fn ask(&mut self, graft: u32, q: u32) -> Result<Ruling, NoMemory>
        requires { RouterInvariant self.old }
        ensures { IfOk result (λ ruling. Decides (Ask graft q) self.old ruling self.new) }
    {
        if !self.tables.is_clean() {
            return Ok(Ruling::Refused);
        }
        if !self.tables.has_told(q) {
            return Ok(Ruling::Refused);
        }
        let Some(p) = self.asking_place(graft, q) else {
            return Ok(Ruling::Refused);
        };
        self.places[p].ask(q);
        Ok(Ruling::Sends {
            to: q as usize,
            item: Item::Asked {
                graft,
                peering: PeeringId(p as u8),
            },
        })
    }

    /// Returns the first place of this graft for which all routers have answered, with the source of the graft.
    fn confirming_place(&self, graft: u32) -> Option<(usize, RouterId)>
        ensures some { IfSome result (λ x. MayConfirmAt self.now graft x.0 x.1.0) }
        ensures none { IfNone result ((p source : ℕ) → ¬ MayConfirmAt self.now graft p source) }
    {
        for p in 0..self.places.len() {
            if let Some(source) = self.places[p].confirms(graft, self.routers) {
                return Some((p, source));
            }
        }
        None
    }

    /// Tells the source of a graft that its session has landed here, if all routers have answered, no prefix is dirty and
    /// nothing is due to a router.
    pub(crate) fn confirm(&mut self, graft: u32) -> Result<Ruling, NoMemory>
        requires { RouterInvariant self.old }
        ensures { IfOk result (λ ruling. Decides (Confirm graft) self.old ruling self.new) }
    {
        if !self.tables.is_clean() {
            return Ok(Ruling::Refused);
        }
        if !self.tables.has_told_all() {
            return Ok(Ruling::Refused);
        }
        let Some((p, source)) = self.confirming_place(graft) else {
            return Ok(Ruling::Refused);
        };
        self.places[p].end_errand();
        Ok(Ruling::Sends {
            to: usize::from(source.0),
            item: Item::Done {
                graft,
                peering: PeeringId(p as u8),
            },
        })
    }

    /// Answers the next question of a router.
    pub(crate) fn answer(&mut self, q: RouterId, channel: &mut Channel) -> Result<Ruling, NoMemory>
        requires sound { RouterInvariant self.old }
        requires there { q.0 < routers_in (setup_of_router self.old) }
        requires fits { AllFit self.old (Router q.0) (parcels_in channel.old) }
        ensures { IfOk result (λ ruling. DecidesTaking (Answer q.0) (Router q.0) self.old (parcels_in channel.old) ruling self.new (parcels_in channel.new)) }
    {
        let Some(asked) = next_question(channel) else {
            return Ok(Ruling::Refused);
        };
        channel.take();
        Ok(Ruling::Sends {
            to: usize::from(q.0),
            item: Item::Answered {
                graft: asked.graft,
                peering: asked.peering,
            },
        })
    }

    /// Counts the next answer of a router, if a session waits for it; otherwise it changes nothing.
    pub(crate) fn collect(&mut self, q: RouterId, channel: &mut Channel) -> Result<Ruling, NoMemory>
        requires sound { RouterInvariant self.old }
        requires there { q.0 < routers_in (setup_of_router self.old) }
        requires fits { AllFit self.old (Router q.0) (parcels_in channel.old) }
        ensures { IfOk result (λ ruling. DecidesTaking (Collect q.0) (Router q.0) self.old (parcels_in channel.old) ruling self.new (parcels_in channel.new)) }
    {
        let Some(answered) = next_answer(channel) else {
            return Ok(Ruling::Refused);
        };
        channel.take();
        let p = usize::from(answered.peering.0);
        if p >= self.places.len() {
            return Ok(Ruling::Silent);
        }
        self.places[p].hear_answer(answered.graft, u32::from(q.0));
        Ok(Ruling::Silent)
    }
}
