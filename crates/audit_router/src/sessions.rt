//! Events on sessions: messages, segments and rounds (RFC 4271, sections 6, 8.2.2 and 9.2; RFC 9293, section 3.4).

ghost use Rattle.std.specs.Prelude.{◌≡◌, ◌<◌, ◌↔◌, All, IsTrue, IfOk, OnOk};
ghost use Rattle.bgp_types.specs.Prefixes.{IsPrefix};
ghost use Rattle.graft_model.specs.Setups.{peerings_in};
ghost use Rattle.graft_model.specs.declared.event.RouterEvent.TheVariants.{Put, Emit, Arrive, Stray, Got, Tick};
ghost use Rattle.graft_actors.specs.Actors.{FarSide};
ghost use Rattle.router_tables.specs.Owned.{IsOfPeering};
ghost use Rattle.router_tables.specs.Reads.{followed as followed_lem};
ghost use Rattle.audit_channels.specs.Channels.{parcels_in};
ghost use Rattle.audit_tables.specs.Parts.{TablesInvariant};
ghost use Rattle.audit_router.specs.Decides.{AllFit, Decides, DecidesTaking};
ghost use Rattle.audit_router.specs.Followed.{CanOffer, IsFollowed, IsMessage, OffersAs};
ghost use Rattle.audit_router.specs.Parts.{RouterInvariant, setup_of_router};

use crate::next::take_segment;
use crate::place::Place;
use crate::router::AuditedRouter;
use audit_channels::Channel;
use audit_ruling::Ruling;
use audit_tables::Tables;
use bgp_session::{OfferStop, ReadStep, Session, TickStep};
use bgp_types::{SessionState, TryCopy, Update};
use graft_edge::{NoMemory, PeeringId};
use graft_steps::Item;
use update_plan::Batch;

/// The most octets of a message (RFC 4271, section 4.1).
const MOST_OCTETS: usize = 4096;

/// Offers an UPDATE to a session. Returns whether its stream had room.
fn offer(session: &mut Session, update: Update) -> Result<bool, NoMemory>
    requires { CanOffer session.old.session update }
    ensures { IfOk result (λ put. OffersAs put session.old update session.new) }
{
    match session.offer(update) {
        Ok(()) => Ok(true),
        Err(OfferStop::StreamFull { .. }) => Ok(false),
        Err(OfferStop::NoMemory) => Err(NoMemory),
    }
}

/// Returns whether a batch can be written as one message, in the session's width of AS numbers.
fn is_message(batch: &Batch, wide: bool) -> bool
    ensures is { IsTrue result ↔ IsMessage wide batch.now }
    ensures sound { All IsPrefix batch.now.prefixes }
{
    for prefix in batch.prefixes.iter() {
        prove!(prefix.len() <= 32);
    }
    batch.octets(wide) <= MOST_OCTETS && batch.is_writable()
}

/// Follows what a session read: its entries become what it brings in now. All best routes are due on it once it is
/// established, and nothing is due once it is closed.
fn follow(tables: &mut Tables, p: usize, session: &Session, step: ReadStep) -> Result<(), NoMemory>
    requires sound { TablesInvariant tables.old }
    requires there { p < peerings_in tables.old.known.setup }
    requires own { IsOfPeering tables.old.known.setup p session.now.session }
    ensures { OnOk result (IsFollowed step p session.now.session tables.old tables.new) }
{
    match step {
        ReadStep::Opened => {
            tables.forget(p);
            Ok(())
        }
        ReadStep::Established => tables.set_due_best(p),
        ReadStep::Changed(prefixes) => tables.enter(session, prefixes.as_slice()),
        ReadStep::Closed(prefixes) => {
            tables.clear_due(p);
            tables.enter(session, prefixes.as_slice())
        }
    }
}

/// Returns the change that the tables follow after a round: the end of the session, or none.
fn followed(step: TickStep) -> ReadStep
    ensures { result ≡ followed_lem step }
{
    match step {
        TickStep::Plain | TickStep::Beat => ReadStep::Opened,
        TickStep::Expired(prefixes) => ReadStep::Closed(prefixes),
    }
}

impl AuditedRouter {
    /// Lets nothing be due on a peering of what isn't dirty, if all that was told as it is to be.
    fn put_nothing(&mut self, p: usize) -> Result<Ruling, NoMemory>
        requires { RouterInvariant self.old }
        ensures { IfOk result (λ ruling. Decides (Put p 0) self.old ruling self.new) }
    {
        if p >= self.places.len() {
            return Ok(Ruling::Refused);
        }
        let Place::Live { session, .. } = &self.places[p] else {
            return Ok(Ruling::Refused);
        };
        if session.state() != SessionState::Established {
            return Ok(Ruling::Refused);
        }
        if !self.tables.is_waiting(p)? {
            return Ok(Ruling::Refused);
        }
        self.tables.know(p, session)?;
        if !self.tables.is_told(p) {
            return Ok(Ruling::Refused);
        }
        self.tables.settle(p)?;
        Ok(Ruling::Silent)
    }

    /// Puts an UPDATE on the live session of a peering, with the first `count` prefixes that are to be told the same as
    /// the least of all.
    fn put_some(&mut self, p: usize, count: u32) -> Result<Ruling, NoMemory>
        requires sound { RouterInvariant self.old }
        requires some { 0 < count }
        ensures { IfOk result (λ ruling. Decides (Put p count) self.old ruling self.new) }
    {
        if p >= self.places.len() {
            return Ok(Ruling::Refused);
        }
        let Place::Live { session, .. } = &mut self.places[p] else {
            return Ok(Ruling::Refused);
        };
        if session.state() != SessionState::Established {
            return Ok(Ruling::Refused);
        }
        self.tables.know(p, session)?;
        let Some(batch) = self.tables.batch(p, count as usize)? else {
            return Ok(Ruling::Refused);
        };
        if !is_message(&batch, session.wide()) {
            return Ok(Ruling::Refused);
        }
        let prefixes = batch.prefixes.copy()?;
        if !offer(session, batch.into_update(self.alloc))? {
            return Ok(Ruling::Refused);
        }
        self.tables.was_told(p, prefixes.as_slice())?;
        Ok(Ruling::Silent)
    }

    /// Puts an UPDATE of `count` prefixes on a peering, or none.
    pub(crate) fn put(&mut self, p: u32, count: u32) -> Result<Ruling, NoMemory>
        requires { RouterInvariant self.old }
        ensures { IfOk result (λ ruling. Decides (Put p count) self.old ruling self.new) }
    {
        if count == 0 {
            return self.put_nothing(p as usize);
        }
        self.put_some(p as usize, count)
    }

    /// Emits `len` bytes of the session of a peering from an offset on, or a segment without bytes.
    pub(crate) fn emit(&mut self, p: u32, from: u32, len: u32) -> Result<Ruling, NoMemory>
        requires { RouterInvariant self.old }
        ensures { IfOk result (λ ruling. Decides (Emit p from len) self.old ruling self.new) }
    {
        let to = self.far_side(p);
        let p = p as usize;
        if p >= self.places.len() {
            return Ok(Ruling::Refused);
        }
        let Place::Live { session, .. } = &mut self.places[p] else {
            return Ok(Ruling::Refused);
        };
        let Some(segment) = session.emit_at(from, len)? else {
            return Ok(Ruling::Refused);
        };
        Ok(Ruling::Sends {
            to,
            item: Item::Seg(segment),
        })
    }

    /// Lets the next segment of a far side arrive at the live session of its peering.
    pub(crate) fn arrive(&mut self, p: PeeringId, channel: &mut Channel) -> Result<Ruling, NoMemory>
        requires sound { RouterInvariant self.old }
        requires there { p.0 < peerings_in (setup_of_router self.old) }
        requires fits { AllFit self.old (FarSide p.0) (parcels_in channel.old) }
        ensures { IfOk result (λ ruling. DecidesTaking (Arrive p.0) (FarSide p.0) self.old (parcels_in channel.old)
            ruling self.new (parcels_in channel.new)) }
    {
        let Place::Live { session, .. } = &mut self.places[usize::from(p.0)] else {
            return Ok(Ruling::Refused);
        };
        let Some(segment) = take_segment(channel) else {
            return Ok(Ruling::Refused);
        };
        session.arrive(&segment)?;
        Ok(Ruling::Silent)
    }

    /// Drops the next segment of a far side, if no session of its peering is live here.
    pub(crate) fn stray(&mut self, p: PeeringId, channel: &mut Channel) -> Result<Ruling, NoMemory>
        requires sound { RouterInvariant self.old }
        requires there { p.0 < peerings_in (setup_of_router self.old) }
        requires fits { AllFit self.old (FarSide p.0) (parcels_in channel.old) }
        ensures { IfOk result (λ ruling. DecidesTaking (Stray p.0) (FarSide p.0) self.old (parcels_in channel.old)
            ruling self.new (parcels_in channel.new)) }
    {
        if self.places[usize::from(p.0)].is_live() {
            return Ok(Ruling::Refused);
        }
        let Some(_segment) = take_segment(channel) else {
            return Ok(Ruling::Refused);
        };
        Ok(Ruling::Silent)
    }

    /// Lets the live session of a peering read one message, or a faulty header.
    pub(crate) fn get(&mut self, p: u32) -> Result<Ruling, NoMemory>
        requires { RouterInvariant self.old }
        ensures { IfOk result (λ ruling. Decides (Got p) self.old ruling self.new) }
    {
        let p = p as usize;
        if p >= self.places.len() {
            return Ok(Ruling::Refused);
        }
        let Place::Live { session, .. } = &mut self.places[p] else {
            return Ok(Ruling::Refused);
        };
        let Some(step) = session.read()? else {
            return Ok(Ruling::Refused);
        };
        follow(&mut self.tables, p, session, step)?;
        Ok(Ruling::Silent)
    }

    /// Lets a round pass on the live session of a peering.
    pub(crate) fn tick(&mut self, p: u32, round: u32) -> Result<Ruling, NoMemory>
        requires { RouterInvariant self.old }
        ensures { IfOk result (λ ruling. Decides (Tick p round) self.old ruling self.new) }
    {
        let p = p as usize;
        if p >= self.places.len() {
            return Ok(Ruling::Refused);
        }
        let Place::Live { session, .. } = &mut self.places[p] else {
            return Ok(Ruling::Refused);
        };
        if !session.may_pass(round) {
            return Ok(Ruling::Refused);
        }
        let step = followed(session.tick(round)?);
        follow(&mut self.tables, p, session, step)?;
        Ok(Ruling::Silent)
    }
}
