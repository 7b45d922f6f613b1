//! Where packets go, as JSON.

ghost use Rattle.std.specs.Prelude.{◌≡◌, map, option_map, IfOk, OnOk};
ghost use Rattle.bgp_types.specs.Texts.{prefix_text};
ghost use Rattle.serde_json.specs.View.{view};
ghost use Rattle.lab_report.specs.Report.{peering_name};
ghost use Rattle.lab_report.specs.Traces.{forward_maps_of, numbered_routers};
ghost use Rattle.report_json.specs.Traces.{ends_word, end_router, leaves_over, ends_by, trace_json, TracesFrom, Traces, Appends, IsListOf};
ghost use Rattle.report_json.specs.Values.{text_or_null as text_or_null_lem};

use crate::values::{address_value, prefix_value, push_value, put_text, text_or_null};
use bgp_types::Prefix;
use forward_walk::{Forwarder, Walk};
use graft_edge::{NoMemory, PeeringId, RouterId};
use lab_report::{Lab, forwarder_of, numbered, peering_name, router_name};
use lab_tables::LabInput;
use serde_json::{Map, Value, put};
use std::alloc::Global;

/// The word for how a walk ends.
fn ends_word(walk: &Walk) -> &'static str
    ensures { result.now ≡ ends_word walk.now }
{
    match walk {
        Walk::Leaves(_, _, _) => "leaves",
        Walk::Local(_, _) => "local",
        Walk::NoRoute(_) => "none",
        Walk::Loop(_) => "loop",
    }
}

/// The router at which a walk ends.
fn end_router(walk: &Walk) -> RouterId
    ensures { result ≡ end_router walk.now }
{
    match walk {
        Walk::Leaves(router, _, _) => *router,
        Walk::Local(router, _) => *router,
        Walk::NoRoute(router) => *router,
        Walk::Loop(router) => *router,
    }
}

/// The peering over which a walk leaves.
fn leaves_over(walk: &Walk) -> Option<PeeringId>
    ensures { result ≡ leaves_over walk.now }
{
    match walk {
        Walk::Leaves(_, peering, _) => Some(*peering),
        Walk::Local(_, _) | Walk::NoRoute(_) | Walk::Loop(_) => None,
    }
}

/// The prefix by which a walk leaves or is at home.
fn ends_by(walk: &Walk) -> Option<Prefix>
    ensures { result ≡ ends_by walk.now }
{
    match walk {
        Walk::Leaves(_, _, prefix) => Some(*prefix),
        Walk::Local(_, prefix) => Some(*prefix),
        Walk::NoRoute(_) | Walk::Loop(_) => None,
    }
}

/// The name of a peering, or null.
fn peering_or_null(
    alloc: Global,
    input: &LabInput,
    peering: Option<PeeringId>,
) -> Result<Value, NoMemory>
    ensures { IfOk result (λ v. view v ≡ text_or_null_lem (option_map (λ p. peering_name input.now p.0) peering)) }
{
    match peering {
        Some(peering) => text_or_null(alloc, Some(peering_name(input, peering.0))),
        None => Ok(Value::Null),
    }
}

/// A prefix, or null.
fn prefix_or_null(alloc: Global, prefix: Option<Prefix>) -> Result<Value, NoMemory>
    ensures { IfOk result (λ v. view v ≡ text_or_null_lem (option_map prefix_text prefix)) }
{
    match prefix {
        Some(prefix) => prefix_value(alloc, prefix),
        None => Ok(Value::Null),
    }
}

/// The walk to an address from the router of this name.
fn trace_value(
    alloc: Global,
    input: &LabInput,
    address: u32,
    name: &str,
    walk: &Walk,
) -> Result<Value, NoMemory>
    ensures { IfOk result (λ v. view v ≡ trace_json input.now address name.now walk.now) }
{
    let to = address_value(alloc, address)?;
    let router = router_name(input, end_router(walk).0);
    let peering = peering_or_null(alloc, input, leaves_over(walk))?;
    let prefix = prefix_or_null(alloc, ends_by(walk))?;
    let mut map = Map::new(alloc);
    put(&mut map, alloc, "address", to)?;
    put_text(&mut map, alloc, "ends", ends_word(walk))?;
    put_text(&mut map, alloc, "from", name)?;
    put(&mut map, alloc, "peering", peering)?;
    put(&mut map, alloc, "prefix", prefix)?;
    put_text(&mut map, alloc, "router", router)?;
    Ok(Value::Object(map))
}

/// Adds the walks to an address, one from each router, in the order of the input.
fn push_traces_to(
    list: &mut Vec<Value>,
    alloc: Global,
    input: &LabInput,
    forwarder: &Forwarder,
    address: u32,
) -> Result<(), NoMemory>
    ensures { OnOk result (Appends (TracesFrom input.now forwarder.now address (numbered_routers input.now))
        (map view list.old.items) (map view list.new.items)) }
{
    let routers = numbered(input.routers.as_slice());
    for (index, router) in routers.iter().enumerate() {
        let walk = forwarder.walk(RouterId(index as u8), address);
        let name = router.name.as_str();
        push_value(list, trace_value(alloc, input, address, name, &walk)?)?;
    }
    Ok(())
}

/// The walks to each of these addresses, in their order.
fn traces_in(
    alloc: Global,
    input: &LabInput,
    forwarder: &Forwarder,
    addresses: &[u32],
) -> Result<Value, NoMemory>
    ensures { IfOk result (λ v. IsListOf (Traces input.now forwarder.now addresses.now) (view v)) }
{
    let mut list = Vec::new(alloc);
    for address in addresses {
        push_traces_to(&mut list, alloc, input, forwarder, *address)?;
    }
    Ok(Value::Array(list))
}

/// Where packets go to the addresses of the input. Where it names none, the routes are not looked at.
pub(crate) fn traces_value(alloc: Global, lab: &Lab) -> Result<Value, NoMemory>
    ensures { IfOk result (λ v. IsListOf (Traces lab.now.input (forward_maps_of lab.now) lab.now.input.trace) (view v)) }
{
    if lab.input.trace.is_empty() {
        return Ok(Value::Array(Vec::new(alloc)));
    }
    let forwarder = forwarder_of(alloc, lab.tables.as_slice())?;
    traces_in(alloc, &lab.input, &forwarder, lab.input.trace.as_slice())
}
