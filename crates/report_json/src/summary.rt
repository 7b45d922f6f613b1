//! The summary of a run, as JSON.

ghost use Rattle.std.specs.Prelude.{◌≡◌, ◌++◌, map, IfOk, OnOk};
ghost use Rattle.serde_json.specs.View.{view};
ghost use Rattle.report_json.specs.Summary.{counts_json, short_session_json, short_peering_json, short_peerings_json};
ghost use Rattle.report_json.specs.Summary.{short_router_json, short_routers_json, summary_json as summary_json_lem};
ghost use Rattle.report_json.specs.Values.{json_line as json_line_lem};

use crate::peerings::{holder_value, is_moving};
use crate::run::end_value;
use crate::values::{json_line, push_value, put_text};
use graft_edge::{NoMemory, Octets};
use lab_report::{
    Lab, Place, RouterTable, SessionView, accepted_in, best_count, place_at, prefix_count,
    refused_in,
};
use lab_tables::{LabInput, PeeringInput, RouterInput};
use serde_json::{Map, Value, put};
use std::alloc::Global;

/// The counts of a run.
fn counts_value(alloc: Global, lab: &Lab) -> Result<Value, NoMemory>
    ensures { IfOk result (λ v. view v ≡ counts_json lab.now) }
{
    let input = &lab.input;
    let log = lab.log.as_slice();
    let prefixes = prefix_count(alloc, input)?;
    let mut map = Map::new(alloc);
    put(&mut map, alloc, "accepted", Value::from(accepted_in(log)))?;
    put(&mut map, alloc, "grafts", Value::from(log.len()))?;
    put(
        &mut map,
        alloc,
        "peerings",
        Value::from(input.peerings.len()),
    )?;
    put(&mut map, alloc, "prefixes", Value::from(prefixes))?;
    put(&mut map, alloc, "refused", Value::from(refused_in(log)))?;
    put(&mut map, alloc, "routers", Value::from(input.routers.len()))?;
    Ok(Value::Object(map))
}

/// A peering, with the sizes of its session's tables.
fn session_value(
    alloc: Global,
    input: &LabInput,
    name: &str,
    place: Option<Place>,
    session: &SessionView,
) -> Result<Value, NoMemory>
    ensures { IfOk result (λ v. view v ≡ short_session_json input.now name.now place session.now) }
{
    let at = holder_value(alloc, input, place)?;
    let mut map = Map::new(alloc);
    put(&mut map, alloc, "at", at)?;
    put(&mut map, alloc, "heard", Value::from(session.heard))?;
    put(&mut map, alloc, "moving", Value::from(is_moving(place)))?;
    put_text(&mut map, alloc, "name", name)?;
    put(&mut map, alloc, "told", Value::from(session.told))?;
    Ok(Value::Object(map))
}

/// Adds the peering of an index, unless it has no session.
fn push_peering(
    list: &mut Vec<Value>,
    alloc: Global,
    lab: &Lab,
    index: usize,
    peering: &PeeringInput,
) -> Result<(), NoMemory>
    ensures { OnOk result (map view list.new.items
        ≡ map view list.old.items ++ short_peering_json lab.now.input lab.now.sessions lab.now.placement (index, peering.now)) }
{
    let name = peering.name.as_str();
    let place = place_at(lab.placement.as_slice(), index);
    let sessions = lab.sessions.as_slice();
    match sessions.get(index) {
        Some(session) => push_value(
            list,
            session_value(alloc, &lab.input, name, place, session)?,
        ),
        None => Ok(()),
    }
}

/// The peerings, in the order of the input.
fn peerings_value(alloc: Global, lab: &Lab) -> Result<Value, NoMemory>
    ensures { IfOk result (λ v. view v ≡ short_peerings_json lab.now) }
{
    let peerings = lab.input.peerings.as_slice();
    let mut list = Vec::with_capacity(alloc, peerings.len())?;
    for (index, peering) in peerings.iter().enumerate() {
        push_peering(&mut list, alloc, lab, index, peering)?;
    }
    Ok(Value::Array(list))
}

/// A router, with the number of its best routes.
fn router_value(
    alloc: Global,
    tables: &[RouterTable],
    index: usize,
    router: &RouterInput,
) -> Result<Value, NoMemory>
    ensures { IfOk result (λ v. view v ≡ short_router_json tables.now (index, router.now)) }
{
    let best = best_count(tables, index);
    let mut map = Map::new(alloc);
    put(&mut map, alloc, "best", Value::from(best))?;
    put_text(&mut map, alloc, "name", router.name.as_str())?;
    Ok(Value::Object(map))
}

/// The routers, in the order of the input.
fn routers_value(alloc: Global, lab: &Lab) -> Result<Value, NoMemory>
    ensures { IfOk result (λ v. view v ≡ short_routers_json lab.now) }
{
    let tables = lab.tables.as_slice();
    let routers = lab.input.routers.as_slice();
    let mut list = Vec::with_capacity(alloc, routers.len())?;
    for (index, router) in routers.iter().enumerate() {
        let value = router_value(alloc, tables, index, router)?;
        push_value(&mut list, value)?;
    }
    Ok(Value::Array(list))
}

/// The whole summary.
fn summary_value(alloc: Global, lab: &Lab) -> Result<Value, NoMemory>
    ensures { IfOk result (λ v. view v ≡ summary_json_lem lab.now) }
{
    let end = end_value(alloc, &lab.input, lab.end)?;
    let counts = counts_value(alloc, lab)?;
    let peerings = peerings_value(alloc, lab)?;
    let routers = routers_value(alloc, lab)?;
    let mut map = Map::new(alloc);
    put(&mut map, alloc, "counts", counts)?;
    put_text(&mut map, alloc, "job", "drill")?;
    put(&mut map, alloc, "peerings", peerings)?;
    put(&mut map, alloc, "result", end)?;
    put(&mut map, alloc, "routers", routers)?;
    put(&mut map, alloc, "version", Value::from(1u32))?;
    Ok(Value::Object(map))
}

/// The summary of a run, as JSON: how it ended, counts, where each session is and how large its tables are, and how many best routes each
/// router has.
pub fn summary_json(alloc: Global, lab: &Lab) -> Result<Octets, NoMemory>
    ensures { IfOk result (λ text. text ≡ json_line_lem (summary_json_lem lab.now)) }
{
    let value = summary_value(alloc, lab)?;
    json_line(alloc, &value)
}
