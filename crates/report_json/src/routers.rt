//! Routers with their best routes, as JSON.

ghost use Rattle.std.specs.Prelude.{◌≡◌, ◌++◌, map, slice_get, IfOk, OnOk};
ghost use Rattle.serde_json.specs.View.{view};
ghost use Rattle.report_json.specs.Run.{ases_json, part_json, path_json, from_kind, from_name, from_json, best_json, table_json, router_json, routers_json};
ghost use Rattle.report_json.specs.Tokens.{with_value, with_values};
ghost use Rattle.report_json.specs.Values.{list_of};

use crate::text::JsonText;
use crate::values::{prefix_value, push_value, put_text};
use bgp_types::{AsPath, From, PathPart};
use graft_edge::NoMemory;
use lab_report::{BestEntry, Lab, RouterTable, peering_name, router_name};
use lab_tables::{LabInput, RouterInput};
use serde_json::{Map, Value, put};
use std::alloc::Global;

// ---- paths

/// Adds ASes.
fn push_ases(list: &mut Vec<Value>, ases: &[u32]) -> Result<(), NoMemory>
    ensures { OnOk result (map view list.new.items ≡ map view list.old.items ++ ases_json ases.now) }
{
    for as_number in ases {
        push_value(list, Value::from(*as_number))?;
    }
    Ok(())
}

/// A set of ASes.
fn set_value(alloc: Global, ases: &[u32]) -> Result<Value, NoMemory>
    ensures { IfOk result (λ v. view v ≡ list_of (ases_json ases.now)) }
{
    let mut list = Vec::new(alloc);
    push_ases(&mut list, ases)?;
    Ok(Value::Array(list))
}

/// Adds the ASes of a sequence, or a set.
fn push_part(list: &mut Vec<Value>, alloc: Global, part: &PathPart) -> Result<(), NoMemory>
    ensures { OnOk result (map view list.new.items ≡ map view list.old.items ++ part_json part.now) }
{
    match part {
        PathPart::Sequence(ases) => push_ases(list, ases),
        PathPart::Set(ases) => push_value(list, set_value(alloc, ases)?),
    }
}

/// Returns a path: the ASes of its sequences, and its sets as arrays of their own.
pub fn path_value(alloc: Global, path: &AsPath) -> Result<Value, NoMemory>
    ensures { IfOk result (λ v. view v ≡ path_json path.now) }
{
    let parts = path.as_slice();
    let mut list = Vec::with_capacity(alloc, parts.len())?;
    for part in parts {
        push_part(&mut list, alloc, part)?;
    }
    Ok(Value::Array(list))
}

/// Adds the ASes of a sequence to a list.
fn write_ases(out: &mut JsonText, ases: &[u32]) -> Result<(), NoMemory>
    ensures { OnOk result (out.new ≡ with_values (ases_json ases.now) out.old) }
{
    for as_number in ases {
        out.number(u64::from(*as_number))?;
    }
    Ok(())
}

/// Adds a set of ASes.
#[tactic(auto, using(crate::proofs::Tokens::with_all))]
fn write_set(out: &mut JsonText, ases: &[u32]) -> Result<(), NoMemory>
    ensures { OnOk result (out.new ≡ with_value (list_of (ases_json ases.now)) out.old) }
{
    out.begin_list()?;
    write_ases(out, ases)?;
    out.end_list()
}

/// Adds the ASes of a sequence, or a set, to a list.
fn write_part(out: &mut JsonText, part: &PathPart) -> Result<(), NoMemory>
    ensures { OnOk result (out.new ≡ with_values (part_json part.now) out.old) }
{
    match part {
        PathPart::Sequence(ases) => write_ases(out, ases),
        PathPart::Set(ases) => write_set(out, ases),
    }
}

/// Adds a path to a text.
pub fn write_path(out: &mut JsonText, path: &AsPath) -> Result<(), NoMemory>
    ensures { OnOk result (out.new ≡ with_value (path_json path.now) out.old) }
{
    let parts = path.as_slice();
    out.begin_list()?;
    for part in parts {
        write_part(out, part)?;
    }
    out.end_list()
}

// ---- best routes

/// The kind of what a route comes from.
fn kind_of(from: From) -> &'static str
    ensures { result.now ≡ from_kind from }
{
    match from {
        From::Own => "own",
        From::Peering(_) => "peering",
        From::Router(_) => "router",
    }
}

/// The name of what a route comes from, or null for an own network.
fn name_of(alloc: Global, input: &LabInput, from: From) -> Result<Value, NoMemory>
    ensures { IfOk result (λ v. view v ≡ from_name input.now from) }
{
    match from {
        From::Own => Ok(Value::Null),
        From::Peering(peering) => Ok(Value::try_from_str(alloc, peering_name(input, peering.0))?),
        From::Router(router) => Ok(Value::try_from_str(alloc, router_name(input, router.0))?),
    }
}

/// Returns what a route comes from.
pub fn from_value(alloc: Global, input: &LabInput, from: From) -> Result<Value, NoMemory>
    ensures { IfOk result (λ v. view v ≡ from_json input.now from) }
{
    let name = name_of(alloc, input, from)?;
    let mut map = Map::new(alloc);
    put_text(&mut map, alloc, "kind", kind_of(from))?;
    put(&mut map, alloc, "name", name)?;
    Ok(Value::Object(map))
}

/// Adds the name of what a route comes from, or null for an own network.
fn write_from_name(out: &mut JsonText, input: &LabInput, from: From) -> Result<(), NoMemory>
    ensures { OnOk result (out.new ≡ with_value (from_name input.now from) out.old) }
{
    match from {
        From::Own => out.null(),
        From::Peering(peering) => out.text(peering_name(input, peering.0)),
        From::Router(router) => out.text(router_name(input, router.0)),
    }
}

/// Adds what a route comes from to a text.
pub fn write_from(out: &mut JsonText, input: &LabInput, from: From) -> Result<(), NoMemory>
    ensures { OnOk result (out.new ≡ with_value (from_json input.now from) out.old) }
{
    out.begin_object()?;
    out.name("kind")?;
    out.text(kind_of(from))?;
    out.name("name")?;
    write_from_name(out, input, from)?;
    out.end_object()
}

/// A best route.
fn best_value(alloc: Global, input: &LabInput, best: &BestEntry) -> Result<Value, NoMemory>
    ensures { IfOk result (λ v. view v ≡ best_json input.now best.now) }
{
    let prefix = prefix_value(alloc, best.prefix)?;
    let from = from_value(alloc, input, best.from)?;
    let path = path_value(alloc, &best.route.attrs.path)?;
    let mut map = Map::new(alloc);
    put(&mut map, alloc, "from", from)?;
    put(&mut map, alloc, "path", path)?;
    put(&mut map, alloc, "pref", Value::from(best.route.pref))?;
    put(&mut map, alloc, "prefix", prefix)?;
    Ok(Value::Object(map))
}

// ---- routers

/// The best routes of a router.
fn bests_value(alloc: Global, input: &LabInput, best: &[BestEntry]) -> Result<Value, NoMemory>
    ensures { IfOk result (λ v. view v ≡ list_of (map (best_json input.now) best.now)) }
{
    let mut list = Vec::with_capacity(alloc, best.len())?;
    for entry in best {
        push_value(&mut list, best_value(alloc, input, entry)?)?;
    }
    Ok(Value::Array(list))
}

/// The best routes of the router of an index, if it has a table.
fn table_value(
    alloc: Global,
    input: &LabInput,
    tables: &[RouterTable],
    index: usize,
) -> Result<Value, NoMemory>
    ensures { IfOk result (λ v. view v ≡ table_json input.now (slice_get tables.now index)) }
{
    match tables.get(index) {
        Some(table) => bests_value(alloc, input, table.best.as_slice()),
        None => Ok(Value::Array(Vec::new(alloc))),
    }
}

/// A router's name, and its best routes.
fn router_value(
    alloc: Global,
    input: &LabInput,
    tables: &[RouterTable],
    index: usize,
    router: &RouterInput,
) -> Result<Value, NoMemory>
    ensures { IfOk result (λ v. view v ≡ router_json input.now tables.now (index, router.now)) }
{
    let best = table_value(alloc, input, tables, index)?;
    let mut map = Map::new(alloc);
    put(&mut map, alloc, "best", best)?;
    put_text(&mut map, alloc, "name", router.name.as_str())?;
    Ok(Value::Object(map))
}

/// The routers, in the order of the input.
pub(crate) fn routers_value(alloc: Global, lab: &Lab) -> Result<Value, NoMemory>
    ensures { IfOk result (λ v. view v ≡ routers_json lab.now) }
{
    let tables = lab.tables.as_slice();
    let routers = lab.input.routers.as_slice();
    let mut list = Vec::with_capacity(alloc, routers.len())?;
    for (index, router) in routers.iter().enumerate() {
        let value = router_value(alloc, &lab.input, tables, index, router)?;
        push_value(&mut list, value)?;
    }
    Ok(Value::Array(list))
}
