//! Events of a far side that take an item.

ghost use Rattle.std.specs.Prelude.{◌≡◌, ◌<◌, ◌∷◌, false, IfOk, IfSome, IfNone, slice_get};
ghost use Rattle.graft_model.specs.Setups.{routers_in};
ghost use Rattle.graft_steps.specs.declared.item.Item.TheVariants as items;
ghost use Rattle.graft_model.specs.declared.event.FarEvent.TheVariants.{Say, Take, Point};
ghost use Rattle.graft_actors.specs.Actors.{Router, Operator};
ghost use Rattle.audit_channels.specs.Channels.{parcels_in};
ghost use Rattle.audit_far.specs.Heads.{graft_landed, is_segment, step_ordered};
ghost use Rattle.audit_far.specs.Parts.{FarInvariant};
ghost use Rattle.audit_far.specs.Decides.{AllFit, DecidesFarTaking};

use crate::far::AuditedFar;
use crate::link::put;
use audit_channels::Channel;
use audit_ruling::Ruling;
use graft_edge::{NoMemory, RouterId};
use graft_steps::Item;
use tcp_seq::Segment;

/// Returns the step that the next item orders the remote to say, if it is such an order.
fn next_step(channel: &Channel) -> Option<u32>
    ensures { result ≡ step_ordered (slice_get (parcels_in channel.now) 0) }
{
    match channel.first()? {
        Item::SayOrder { step } => Some(*step),
        _ => None,
    }
}

/// Returns the graft of the landing that the next item tells of, if it tells of one.
fn next_landing(channel: &Channel) -> Option<u32>
    ensures { result ≡ graft_landed (slice_get (parcels_in channel.now) 0) }
{
    match channel.first()? {
        Item::PointAt { graft } => Some(*graft),
        _ => None,
    }
}

/// Returns whether the next item is a segment.
fn is_segment_next(channel: &Channel) -> bool
    ensures { result ≡ is_segment (slice_get (parcels_in channel.now) 0) }
{
    matches!(channel.first(), Some(Item::Seg(_)))
}

/// Takes the next item if it is a segment.
fn take_segment(channel: &mut Channel) -> Option<Segment>
    ensures some { IfSome result (λ segment. parcels_in channel.old ≡ items.Seg segment ∷ parcels_in channel.new) }
    ensures none { IfNone result
        ((is_segment (slice_get (parcels_in channel.old) 0) ≡ false) × (parcels_in channel.new ≡ parcels_in channel.old)) }
{
    if !is_segment_next(channel) {
        return None;
    }
    match channel.take()? {
        Item::Seg(segment) => Some(segment),
        _ => unreachable!(),
    }
}

impl AuditedFar {
    /// Says the bytes of a step, if the next item of the operator orders it.
    pub fn say(&mut self, step: u32, channel: &mut Channel) -> Result<Ruling, NoMemory>
        requires sound { FarInvariant self.old }
        requires fits { AllFit self.old Operator (parcels_in channel.old) }
        ensures { IfOk result (λ ruling. DecidesFarTaking (Say step) Operator self.old (parcels_in channel.old) ruling self.new (parcels_in channel.new)) }
    {
        if next_step(channel) != Some(step) {
            return Ok(Ruling::Refused);
        }
        let Some(bytes) = self.says.get(step) else {
            return Ok(Ruling::Refused);
        };
        if !self.remote.has_room(bytes.len()) {
            return Ok(Ruling::Refused);
        }
        self.remote.say(bytes.as_slice())?;
        channel.take();
        Ok(Ruling::Silent)
    }

    /// Takes the next item of a router into the link, if it is a segment.
    pub fn take(&mut self, router: RouterId, channel: &mut Channel) -> Result<Ruling, NoMemory>
        requires sound { FarInvariant self.old }
        requires there { router.0 < routers_in self.old.known.setup }
        requires fits { AllFit self.old (Router router.0) (parcels_in channel.old) }
        ensures { IfOk result (λ ruling. DecidesFarTaking (Take router.0) (Router router.0) self.old (parcels_in channel.old)
            ruling self.new (parcels_in channel.new)) }
    {
        let Some(segment) = take_segment(channel) else {
            return Ok(Ruling::Refused);
        };
        put(&mut self.remoteward, segment)?;
        Ok(Ruling::Silent)
    }

    /// Takes the next item of a router if it tells that a session landed there, and points the link at that router if
    /// the graft is later than the last one followed.
    pub fn point(&mut self, router: RouterId, channel: &mut Channel) -> Result<Ruling, NoMemory>
        requires sound { FarInvariant self.old }
        requires there { router.0 < routers_in self.old.known.setup }
        requires fits { AllFit self.old (Router router.0) (parcels_in channel.old) }
        ensures { IfOk result (λ ruling. DecidesFarTaking (Point router.0) (Router router.0) self.old (parcels_in channel.old)
            ruling self.new (parcels_in channel.new)) }
    {
        let Some(graft) = next_landing(channel) else {
            return Ok(Ruling::Refused);
        };
        channel.take();
        if self.followed >= graft {
            return Ok(Ruling::Silent);
        }
        self.pointer = router;
        self.followed = graft;
        Ok(Ruling::Silent)
    }
}
