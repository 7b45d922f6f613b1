//! Texts of what is seen.

use anyhow::Result;
use bgp_session::{Capsule, Session};
use bgp_types::{PathPart, Route};
use graft_edge::PeeringId;
use graft_steps::{Item, Outcome, Refusal, RouterRest};
use rib_stages::Rib;
use std::alloc::Global;

/// Appends the AS numbers of a part of a path, with a space before each.
fn put_part(text: &mut String, part: &PathPart) -> Result<()> {
    let ases = match part {
        PathPart::Set(ases) | PathPart::Sequence(ases) => ases,
    };
    for as_number in ases {
        write!(text, " {as_number}")?;
    }
    Ok(())
}

/// Appends a route: its preference, and the AS numbers of its path.
fn put_route(text: &mut String, route: &Route) -> Result<()> {
    write!(text, "pref {} path", route.pref)?;
    for part in &route.attrs.path {
        put_part(text, part)?;
    }
    if route.attrs.path.is_empty() {
        text.push_str(" -")?;
    }
    Ok(())
}

/// Returns the text of a refusal.
fn refusal_text(alloc: Global, refusal: &Refusal) -> Result<String> {
    match refusal {
        Refusal::PolicyMissing(name) => Ok(format!(in alloc; "PolicyMissing({name})")?),
        _ => Ok(format!(in alloc; "{refusal:?}")?),
    }
}

/// Returns the text of an outcome.
fn outcome_text(alloc: Global, outcome: &Outcome) -> Result<String> {
    match outcome {
        Outcome::Accepted => Ok(format!(in alloc; "accepted")?),
        Outcome::Refused(refusal) => {
            let cause = refusal_text(alloc, refusal)?;
            Ok(format!(in alloc; "refused {cause}")?)
        }
    }
}

/// Returns the text of an item.
pub fn item_text(alloc: Global, item: &Item<Capsule>) -> Result<String> {
    match item {
        Item::Seg(segment) => {
            let (seq, ack, len) = (segment.seq.0, segment.ack.0, segment.bytes.len());
            Ok(format!(in alloc; "segment {seq} {ack} {len}")?)
        }
        Item::PointAt { graft } => Ok(format!(in alloc; "point {graft}")?),
        Item::Told { prefix, route } => {
            let mut text = format!(in alloc; "told {prefix} ")?;
            match route {
                Some(route) => put_route(&mut text, route)?,
                None => text.push_str("none")?,
            }
            Ok(text)
        }
        Item::Moved { graft, capsule } => {
            let peering = capsule.config().peering.0;
            Ok(format!(in alloc; "moved {graft} {peering}")?)
        }
        Item::Back {
            graft,
            capsule,
            refusal,
        } => {
            let peering = capsule.config().peering.0;
            let cause = refusal_text(alloc, refusal)?;
            Ok(format!(in alloc; "back {graft} {peering} {cause}")?)
        }
        Item::Asked { graft, peering } => Ok(format!(in alloc; "asked {graft} {}", peering.0)?),
        Item::Answered { graft, peering } => {
            Ok(format!(in alloc; "answered {graft} {}", peering.0)?)
        }
        Item::Done { graft, peering } => Ok(format!(in alloc; "done {graft} {}", peering.0)?),
        Item::Report { graft, outcome } => {
            let outcome = outcome_text(alloc, outcome)?;
            Ok(format!(in alloc; "report {graft} {outcome}")?)
        }
        Item::GraftOrder { .. } | Item::SayOrder { .. } => Ok(format!(in alloc; "an order")?),
    }
}

/// Returns the best routes, in ascending order of prefix.
pub fn best_text(alloc: Global, rib: &Rib) -> Result<String> {
    let mut text = String::new(alloc);
    let mut next = rib.next_best(None);
    for _n in 0..100u32 {
        let Some(prefix) = next else {
            break;
        };
        if !text.is_empty() {
            text.push_str(", ")?;
        }
        if let Some(best) = rib.best(prefix) {
            write!(text, "{prefix} {:?} ", best.from)?;
            put_route(&mut text, &best.route)?;
        }
        next = rib.next_best(Some(prefix));
    }
    if text.is_empty() {
        text.push_str("none")?;
    }
    Ok(text)
}

/// Returns the text of a session: its state, and how many routes it heard and told.
pub fn session_text(alloc: Global, session: Option<&Session>) -> Result<String> {
    let Some(session) = session else {
        return Ok(format!(in alloc; "none")?);
    };
    let (state, heard, told) = (session.state(), session.heard().len(), session.told().len());
    let (put, waits) = (session.put_len(), session.frame_waits());
    Ok(format!(in alloc; "{state:?} heard {heard} told {told} put {put} waits {waits}")?)
}

/// Returns the text of what is left to do.
pub fn rest_text(alloc: Global, rest: &RouterRest) -> Result<String> {
    let due_in = rest.due_in.map(|q| q.0);
    let due_out = rest.due_out.map(|p| p.0);
    let stream = rest.stream.map(|p| p.0);
    let (dirty, graft) = (rest.dirty, rest.graft);
    Ok(format!(in alloc;
        "dirty {dirty} router {due_in:?} peering {due_out:?} graft {graft:?} stream {stream:?}"
    )?)
}

/// Returns the session that is stuck, and at which length.
pub fn stuck_text(alloc: Global, stuck: &Option<(PeeringId, usize)>) -> Result<String> {
    match stuck {
        Some((peering, length)) => Ok(format!(in alloc; "peering {} length {length}", peering.0)?),
        None => Ok(format!(in alloc; "none")?),
    }
}
