//! Events of a graft at its source: its order, its beginning, and its end.

ghost use Rattle.std.specs.Prelude.{ℕ, ◌≡◌, ◌<◌, ◌↔◌, ◌∷◌, IsTrue, IfOk, IfSome, IfNone, OnOk, None, slice_get};
ghost use Rattle.graft_steps.specs.declared.item.Item.TheVariants as items;
ghost use Rattle.graft_model.specs.Setups.{routers_in, peerings_in};
ghost use Rattle.graft_model.specs.declared.event.RouterEvent.TheVariants.{Admit, Refuse, Freeze, Leave, Return, Clear};
ghost use Rattle.graft_actors.specs.Actors.{Router, Operator};
ghost use Rattle.audit_channels.specs.Channels.{parcels_in};
ghost use Rattle.audit_router.specs.Decides.{AllFit, Decides, DecidesTaking};
ghost use Rattle.audit_router.specs.Grafts.{IsFrozenAt, IsLiveAgain, IsRefusedAt, MayFreezeAt};
ghost use Rattle.audit_router.specs.Nexts.{back_in};
ghost use Rattle.audit_router.specs.Parts.{RouterInvariant, setup_of_router};
ghost use Rattle.audit_router.specs.Places.{place_at};
ghost use Rattle.audit_router.specs.declared.place.Place.TheVariants.{Live, Shadow};
ghost use Rattle.bgp_session.specs.Running.{RunningSession};
ghost use Rattle.router_tables.specs.Owned.{IsOfPeering};

use crate::next::{next_back, next_order, next_word};
use crate::place::Place;
use crate::router::AuditedRouter;
use audit_channels::Channel;
use audit_ruling::Ruling;
use bgp_session::{Capsule, Session};
use graft_edge::{NoMemory, PeeringId, RouterId};
use graft_steps::{GraftIds, Item, Outcome, Refusal};
use std::mem;

/// Takes out the session that comes back refused, with the number of its graft and the reason. If none is next, nothing
/// is said of the channel.
fn take_back(channel: &mut Channel) -> Option<(u32, Capsule, Refusal)>
    ensures some { IfSome result (λ x. parcels_in channel.old ≡ items.Back x.0 x.1 x.2 ∷ parcels_in channel.new) }
    ensures none { IfNone result (back_in (slice_get (parcels_in channel.old) 0) ≡ None) }
{
    match channel.take()? {
        Item::Back {
            graft,
            capsule,
            refusal,
        } => Some((graft, capsule, refusal)),
        _ => None,
    }
}

impl AuditedRouter {
    /// Returns whether a session without an errand is live at a place.
    fn is_free(&self, p: usize) -> bool
        ensures { IsTrue result ↔ ((s : RunningSession) × (place_at self.now.places.items p ≡ Live s None)) }
    {
        match self.places.get(p) {
            Some(place) => place.is_free(),
            None => false,
        }
    }

    /// Stores the next order of the operator, which must be of this graft, with the live session that it is for.
    pub(crate) fn admit(&mut self, graft: u32, channel: &mut Channel) -> Result<Ruling, NoMemory>
        requires sound { RouterInvariant self.old }
        requires fits { AllFit self.old Operator (parcels_in channel.old) }
        ensures { IfOk result (λ ruling. DecidesTaking (Admit graft) Operator self.old (parcels_in channel.old) ruling self.new (parcels_in channel.new)) }
    {
        let Some(order) = next_order(channel) else {
            return Ok(Ruling::Refused);
        };
        if order.graft != graft {
            return Ok(Ruling::Refused);
        }
        if u32::from(order.target.0) >= self.routers {
            return Ok(Ruling::Refused);
        }
        let p = usize::from(order.peering.0);
        if !self.is_free(p) {
            return Ok(Ruling::Refused);
        }
        self.places[p].store(GraftIds {
            graft,
            peering: order.peering,
            source: self.tables.number(),
            target: order.target,
        });
        channel.take();
        Ok(Ruling::Silent)
    }

    /// Returns the first place where the graft of this number is stored and there is a reason to refuse it, with the
    /// reason.
    fn refusing_place(&self, graft: u32) -> Option<(usize, Refusal)>
        ensures some { IfSome result (λ x. IsRefusedAt self.now graft x.0 x.1) }
        ensures none { IfNone result ((p : ℕ) (refusal : _) → ¬ IsRefusedAt self.now graft p refusal) }
    {
        for p in 0..self.places.len() {
            if let Some(refusal) = self.places[p].begins(graft).flatten() {
                return Some((p, refusal));
            }
        }
        None
    }

    /// Refuses a graft that is stored, for the first reason that there is.
    pub(crate) fn refuse(&mut self, graft: u32) -> Result<Ruling, NoMemory>
        requires { RouterInvariant self.old }
        ensures { IfOk result (λ ruling. Decides (Refuse graft) self.old ruling self.new) }
    {
        let Some((p, refusal)) = self.refusing_place(graft) else {
            return Ok(Ruling::Refused);
        };
        let to = self.operator();
        self.places[p].end_errand();
        Ok(Ruling::Sends {
            to,
            item: Item::Report {
                graft,
                outcome: Outcome::Refused(refusal),
            },
        })
    }

    /// Returns the first place where the graft of this number is stored and may begin.
    fn freezing_place(&self, graft: u32) -> Option<usize>
        ensures some { IfSome result (λ p. MayFreezeAt self.now graft p) }
        ensures none { IfNone result ((p : ℕ) → ¬ MayFreezeAt self.now graft p) }
    {
        for p in 0..self.places.len() {
            if let Some(None) = self.places[p].begins(graft) {
                return Some(p);
            }
        }
        None
    }

    /// Freezes the session of a graft that is stored and may begin.
    pub(crate) fn freeze(&mut self, graft: u32) -> Result<Ruling, NoMemory>
        requires { RouterInvariant self.old }
        ensures { IfOk result (λ ruling. Decides (Freeze graft) self.old ruling self.new) }
    {
        let Some(p) = self.freezing_place(graft) else {
            return Ok(Ruling::Refused);
        };
        self.places[p].freeze();
        Ok(Ruling::Silent)
    }

    /// Returns the first place where a session is frozen for the graft of this number.
    fn leaving_place(&self, graft: u32) -> Option<usize>
        ensures some { IfSome result (λ p. IsFrozenAt self.now graft p) }
        ensures none { IfNone result ((p : ℕ) → ¬ IsFrozenAt self.now graft p) }
    {
        for p in 0..self.places.len() {
            if self.places[p].is_frozen_for(graft) {
                return Some(p);
            }
        }
        None
    }

    /// Sends the session that is frozen for a graft to its target. A shadow stays.
    pub(crate) fn leave(&mut self, graft: u32) -> Result<Ruling, NoMemory>
        requires { RouterInvariant self.old }
        ensures { IfOk result (λ ruling. Decides (Leave graft) self.old ruling self.new) }
    {
        let Some(p) = self.leaving_place(graft) else {
            return Ok(Ruling::Refused);
        };
        let Place::Frozen { session, ids } = mem::replace(
            &mut self.places[p],
            Place::Shadow { graft },
        ) else {
            unreachable!()
        };
        self.tables.clear_due(p);
        Ok(Ruling::Sends {
            to: usize::from(ids.target.0),
            item: Item::Moved {
                graft,
                capsule: session.freeze().leave(),
            },
        })
    }

    /// Makes a session that left live at its place again. What was told on it and what is best is due.
    fn live_again(&mut self, p: usize, session: Session) -> Result<(), NoMemory>
        requires sound { RouterInvariant self.old }
        requires there { p < peerings_in (setup_of_router self.old) }
        requires own { IsOfPeering (setup_of_router self.old) p session.session }
        ensures { OnOk result (IsLiveAgain p session self.old self.new) }
    {
        self.tables.set_due_again(p, &session)?;
        self.places[p] = Place::Live {
            session,
            errand: None,
        };
        Ok(())
    }

    /// Returns whether a session has left from here in this graft of this peering.
    fn is_away(&self, graft: u32, peering: PeeringId) -> bool
        ensures { IsTrue result ↔ (place_at self.now.places.items peering.0 ≡ Shadow graft) }
    {
        match self.places.get(usize::from(peering.0)) {
            Some(place) => place.is_shadow_of(graft),
            None => false,
        }
    }

    /// Takes back the next session that a router sends back, where its shadow is here, and reports it.
    pub(crate) fn give_back(
        &mut self,
        q: RouterId,
        channel: &mut Channel,
    ) -> Result<Ruling, NoMemory>
        requires sound { RouterInvariant self.old }
        requires there { q.0 < routers_in (setup_of_router self.old) }
        requires fits { AllFit self.old (Router q.0) (parcels_in channel.old) }
        ensures { IfOk result (λ ruling. DecidesTaking (Return q.0) (Router q.0) self.old (parcels_in channel.old) ruling self.new (parcels_in channel.new)) }
    {
        let Some(back) = next_back(channel) else {
            return Ok(Ruling::Refused);
        };
        if !self.is_away(back.graft, back.peering) {
            return Ok(Ruling::Refused);
        }
        let Some((graft, capsule, refusal)) = take_back(channel) else {
            unreachable!()
        };
        let to = self.operator();
        self.live_again(usize::from(back.peering.0), capsule.land())?;
        Ok(Ruling::Sends {
            to,
            item: Item::Report {
                graft,
                outcome: Outcome::Refused(refusal),
            },
        })
    }

    /// Removes a shadow and its routes, as the next word of a router says that the session landed there.
    pub(crate) fn clear(&mut self, q: RouterId, channel: &mut Channel) -> Result<Ruling, NoMemory>
        requires sound { RouterInvariant self.old }
        requires there { q.0 < routers_in (setup_of_router self.old) }
        requires fits { AllFit self.old (Router q.0) (parcels_in channel.old) }
        ensures { IfOk result (λ ruling. DecidesTaking (Clear q.0) (Router q.0) self.old (parcels_in channel.old) ruling self.new (parcels_in channel.new)) }
    {
        let Some(word) = next_word(channel) else {
            return Ok(Ruling::Refused);
        };
        if !self.is_away(word.graft, word.peering) {
            return Ok(Ruling::Refused);
        }
        let to = self.operator();
        channel.take();
        self.tables.drop_entries(word.peering)?;
        self.places[usize::from(word.peering.0)] = Place::Vacant;
        Ok(Ruling::Sends {
            to,
            item: Item::Report {
                graft: word.graft,
                outcome: Outcome::Accepted,
            },
        })
    }
}
