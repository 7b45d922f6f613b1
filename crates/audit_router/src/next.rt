//! What a router receives next.

ghost use Rattle.std.specs.Prelude.{◌≡◌, ◌∷◌, false, IfNone, IfSome, slice_get};
ghost use Rattle.graft_steps.specs.declared.item.Item.TheVariants as items;
ghost use Rattle.std.specs.Option.{option_copied, option_map};
ghost use Rattle.audit_channels.specs.Channels.{parcels_in};
ghost use Rattle.audit_router.specs.Nexts.{answered_in, asked_in, back_in, coming_in, done_in, is_segment, of_graft, order_in, order_of};

use audit_channels::Channel;
use graft_edge::{PeeringId, RouterId};
use graft_steps::Item;
use session_value::SessionConfig;
use tcp_seq::Segment;

/// The order of a graft: its number, the peering, and the router that the session is to go to.
#[derive(Clone, Copy, Debug)]
pub(crate) struct Ordering {
    pub(crate) graft: u32,
    pub(crate) peering: PeeringId,
    pub(crate) target: RouterId,
}

/// The number of a graft, and its peering.
#[derive(Clone, Copy, Debug)]
pub(crate) struct OfGraft {
    pub(crate) graft: u32,
    pub(crate) peering: PeeringId,
}

/// Returns whether a segment is next.
fn is_segment_next(channel: &Channel) -> bool
    ensures { result ≡ is_segment (slice_get (parcels_in channel.now) 0) }
{
    matches!(channel.first(), Some(Item::Seg(_)))
}

/// Takes the next item if it is a segment.
pub(crate) fn take_segment(channel: &mut Channel) -> Option<Segment>
    ensures some { IfSome result (λ segment. parcels_in channel.old ≡ items.Seg segment ∷ parcels_in channel.new) }
    ensures none { IfNone result
        ((is_segment (slice_get (parcels_in channel.old) 0) ≡ false) × (parcels_in channel.new ≡ parcels_in channel.old)) }
{
    if !is_segment_next(channel) {
        return None;
    }
    match channel.take()? {
        Item::Seg(segment) => Some(segment),
        _ => unreachable!(),
    }
}

/// Returns the order of a graft, if one is next.
pub(crate) fn next_order(channel: &Channel) -> Option<Ordering>
    ensures { option_map order_of result ≡ order_in (slice_get (parcels_in channel.now) 0) }
{
    match channel.first()? {
        Item::GraftOrder {
            graft,
            peering,
            target,
        } => Some(Ordering {
            graft: *graft,
            peering: *peering,
            target: *target,
        }),
        _ => None,
    }
}

/// Returns the configuration of a session that moves here, if one is next.
pub(crate) fn next_session(channel: &Channel) -> Option<&SessionConfig>
    ensures { option_copied result ≡ coming_in (slice_get (parcels_in channel.now) 0) }
{
    match channel.first()? {
        Item::Moved { capsule, .. } => Some(capsule.config()),
        _ => None,
    }
}

/// Returns the graft of a session that comes back refused, if one is next.
pub(crate) fn next_back(channel: &Channel) -> Option<OfGraft>
    ensures { option_map of_graft result ≡ back_in (slice_get (parcels_in channel.now) 0) }
{
    match channel.first()? {
        Item::Back { graft, capsule, .. } => Some(OfGraft {
            graft: *graft,
            peering: capsule.config().peering,
        }),
        _ => None,
    }
}

/// Returns the graft of a question, if one is next.
pub(crate) fn next_question(channel: &Channel) -> Option<OfGraft>
    ensures { option_map of_graft result ≡ asked_in (slice_get (parcels_in channel.now) 0) }
{
    match channel.first()? {
        Item::Asked { graft, peering } => Some(OfGraft {
            graft: *graft,
            peering: *peering,
        }),
        _ => None,
    }
}

/// Returns the graft of an answer, if one is next.
pub(crate) fn next_answer(channel: &Channel) -> Option<OfGraft>
    ensures { option_map of_graft result ≡ answered_in (slice_get (parcels_in channel.now) 0) }
{
    match channel.first()? {
        Item::Answered { graft, peering } => Some(OfGraft {
            graft: *graft,
            peering: *peering,
        }),
        _ => None,
    }
}

/// Returns the graft of which word has come that its session landed, if such word is next.
pub(crate) fn next_word(channel: &Channel) -> Option<OfGraft>
    ensures { option_map of_graft result ≡ done_in (slice_get (parcels_in channel.now) 0) }
{
    match channel.first()? {
        Item::Done { graft, peering } => Some(OfGraft {
            graft: *graft,
            peering: *peering,
        }),
        _ => None,
    }
}
