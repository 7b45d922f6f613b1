//! Which moment of which graft an event is.

ghost use Rattle.std.specs.Prelude.{◌≡◌};
ghost use Rattle.timeline_view.specs.Moments.{ordered, frozen, left, landed, graft_at};

use crate::event::{Event, Moment};

fn ordered(event: Event) -> Option<u32>
    ensures { result ≡ ordered event }
{
    match event {
        Event::Order { graft } => Some(graft),
        _ => None,
    }
}

fn frozen(event: Event) -> Option<u32>
    ensures { result ≡ frozen event }
{
    match event {
        Event::Freeze { graft } => Some(graft),
        _ => None,
    }
}

fn left(event: Event) -> Option<u32>
    ensures { result ≡ left event }
{
    match event {
        Event::Leave { graft } => Some(graft),
        _ => None,
    }
}

fn landed(event: Event) -> Option<u32>
    ensures { result ≡ landed event }
{
    match event {
        Event::Land { graft } => Some(graft),
        _ => None,
    }
}

/// Returns the graft of which an event is this moment.
pub(crate) fn graft_at(moment: Moment, event: Event) -> Option<u32>
    ensures { result ≡ graft_at moment event }
{
    match moment {
        Moment::Ordered => ordered(event),
        Moment::Frozen => frozen(event),
        Moment::Left => left(event),
        Moment::Landed => landed(event),
    }
}
