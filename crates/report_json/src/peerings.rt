//! Peerings with their sessions, as JSON.

ghost use Rattle.std.specs.Prelude.{◌≡◌, ◌++◌, map, IfOk, OnOk};
ghost use Rattle.serde_json.specs.View.{view};
ghost use Rattle.report_json.specs.Tokens.{with_value};
ghost use Rattle.report_json.specs.Run.{holder_json, is_moving, session_json, peering_json, peerings_json};

use crate::text::JsonText;
use crate::values::{push_value, put_text};
use graft_edge::NoMemory;
use lab_report::{Lab, Place, SessionView, place_at, router_name, state_name};
use lab_tables::{LabInput, PeeringInput};
use serde_json::{Map, Value, put};
use std::alloc::Global;

/// The router that holds a session, or null.
pub(crate) fn holder_value(
    alloc: Global,
    input: &LabInput,
    place: Option<Place>,
) -> Result<Value, NoMemory>
    ensures { IfOk result (λ v. view v ≡ holder_json input.now place) }
{
    match place {
        Some(Place::Held(router)) => Ok(Value::try_from_str(alloc, router_name(input, router.0))?),
        Some(Place::Moving) | None => Ok(Value::Null),
    }
}

/// Adds the router that holds a session, or null.
pub fn write_holder(
    out: &mut JsonText,
    input: &LabInput,
    place: Option<Place>,
) -> Result<(), NoMemory>
    ensures { OnOk result (out.new ≡ with_value (holder_json input.now place) out.old) }
{
    match place {
        Some(Place::Held(router)) => out.text(router_name(input, router.0)),
        Some(Place::Moving) | None => out.null(),
    }
}

/// Returns whether a session is on its way.
pub fn is_moving(place: Option<Place>) -> bool
    ensures { result ≡ is_moving place }
{
    match place {
        Some(Place::Moving) => true,
        Some(Place::Held(_)) | None => false,
    }
}

/// A peering, with its session.
fn session_value(
    alloc: Global,
    input: &LabInput,
    name: &str,
    place: Option<Place>,
    session: &SessionView,
) -> Result<Value, NoMemory>
    ensures { IfOk result (λ v. view v ≡ session_json input.now name.now place session.now) }
{
    let at = holder_value(alloc, input, place)?;
    let mut map = Map::new(alloc);
    put(&mut map, alloc, "at", at)?;
    put(&mut map, alloc, "heard", Value::from(session.heard))?;
    put(&mut map, alloc, "moving", Value::from(is_moving(place)))?;
    put_text(&mut map, alloc, "name", name)?;
    put_text(&mut map, alloc, "state", state_name(session.story.state()))?;
    put(&mut map, alloc, "told", Value::from(session.told))?;
    Ok(Value::Object(map))
}

/// Adds the peering of an index, unless it has no session.
fn push_peering(
    list: &mut Vec<Value>,
    alloc: Global,
    lab: &Lab,
    index: usize,
    peering: &PeeringInput,
) -> Result<(), NoMemory>
    ensures { OnOk result (map view list.new.items
        ≡ map view list.old.items ++ peering_json lab.now.input lab.now.sessions lab.now.placement (index, peering.now)) }
{
    let name = peering.name.as_str();
    let place = place_at(lab.placement.as_slice(), index);
    let sessions = lab.sessions.as_slice();
    match sessions.get(index) {
        Some(session) => push_value(
            list,
            session_value(alloc, &lab.input, name, place, session)?,
        ),
        None => Ok(()),
    }
}

/// The peerings, in the order of the input.
pub(crate) fn peerings_value(alloc: Global, lab: &Lab) -> Result<Value, NoMemory>
    ensures { IfOk result (λ v. view v ≡ peerings_json lab.now) }
{
    let peerings = lab.input.peerings.as_slice();
    let mut list = Vec::with_capacity(alloc, peerings.len())?;
    for (index, peering) in peerings.iter().enumerate() {
        push_peering(&mut list, alloc, lab, index, peering)?;
    }
    Ok(Value::Array(list))
}
