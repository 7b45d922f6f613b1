//! The lines of a report that say where packets go.

ghost use Rattle.std.specs.Prelude.{◌≡◌, ◌++◌, IfOk, OnOk, map, take, string_bytes};
ghost use Rattle.forward_walk.specs.Tables.{map_of};
ghost use Rattle.lab_report.specs.Traces.{forwards_of, forward_maps_of, walk_words, trace_line, TracesFrom, Traces, Appends, numbered_routers};

use crate::lab::{Lab, RouterTable};
use crate::texts::{peering_name, router_name};
use bgp_types::Address;
use forward_walk::{ForwardEntry, ForwardTable, ForwardTables, Forwarder, Walk};
use graft_edge::{NoMemory, RouterId};
use lab_tables::{LabInput, RouterInput};
use std::alloc::Global;
use std::fmt::Write;

/// Where a router's best routes come from.
fn forward_table(alloc: Global, table: &RouterTable) -> Result<ForwardTable, NoMemory>
    ensures { IfOk result (λ entries. map_of entries ≡ forwards_of table.now) }
{
    let mut entries = ForwardTable::from_vec(Vec::with_capacity(alloc, table.best.len())?);
    for best in &table.best {
        entries.push(ForwardEntry {
            prefix: best.prefix,
            from: best.from,
        })?;
    }
    Ok(entries)
}

/// Where the best routes of each router come from.
fn forward_tables(alloc: Global, tables: &[RouterTable]) -> Result<ForwardTables, NoMemory>
    ensures { IfOk result (λ made. map map_of made ≡ map forwards_of tables.now) }
{
    let mut made = ForwardTables::from_vec(Vec::with_capacity(alloc, tables.len())?);
    for table in tables {
        made.push(forward_table(alloc, table)?)?;
    }
    Ok(made)
}

/// Returns the tables of all routers, in which packets are followed.
pub fn forwarder_of(alloc: Global, tables: &[RouterTable]) -> Result<Forwarder, NoMemory>
    ensures { IfOk result (λ forwarder. forwarder ≡ map forwards_of tables.now) }
{
    let made = forward_tables(alloc, tables)?;
    Forwarder::new(alloc, &made)
}

/// How a walk ends.
fn push_walk(text: &mut String, input: &LabInput, walk: Walk) -> Result<(), NoMemory>
    ensures { OnOk result (string_bytes text.new ≡ string_bytes text.old ++ walk_words input.now walk) }
{
    match walk {
        Walk::Leaves(router, peering, prefix) => {
            text.push_str("leaves ")?;
            text.push_str(router_name(input, router.0))?;
            text.push_str(" ")?;
            text.push_str(peering_name(input, peering.0))?;
            write!(text, " {prefix}")?;
        }
        Walk::Local(router, prefix) => {
            text.push_str("local ")?;
            text.push_str(router_name(input, router.0))?;
            write!(text, " {prefix}")?;
        }
        Walk::NoRoute(router) => {
            text.push_str("none ")?;
            text.push_str(router_name(input, router.0))?;
        }
        Walk::Loop(router) => {
            text.push_str("loop ")?;
            text.push_str(router_name(input, router.0))?;
        }
    }
    Ok(())
}

/// The line of a walk to an address, which began at this router.
fn push_trace(
    text: &mut String,
    input: &LabInput,
    address: u32,
    router: &RouterInput,
    walk: Walk,
) -> Result<(), NoMemory>
    ensures { OnOk result (string_bytes text.new ≡ string_bytes text.old ++ trace_line input.now address router.now.name walk) }
{
    let address = Address(address);
    write!(text, "trace {address} from ")?;
    text.push_str(router.name.as_str())?;
    text.push_str(" ")?;
    push_walk(text, input, walk)?;
    text.push_str("\n")?;
    Ok(())
}

/// Returns the routers that have a number, which is one octet.
pub fn numbered(routers: &[RouterInput]) -> &[RouterInput]
    ensures { result.now ≡ take 256 routers.now }
{
    &routers[..routers.len().min(256)]
}

/// The walks to an address, one from each router, in the order of the input.
fn push_traces_to(
    text: &mut String,
    input: &LabInput,
    forwarder: &Forwarder,
    address: u32,
) -> Result<(), NoMemory>
    ensures { OnOk result (Appends (TracesFrom input.now forwarder.now address (numbered_routers input.now)) (string_bytes text.old) (string_bytes text.new)) }
{
    let routers = numbered(input.routers.as_slice());
    for (index, router) in routers.iter().enumerate() {
        let walk = forwarder.walk(RouterId(index as u8), address);
        push_trace(text, input, address, router, walk)?;
    }
    Ok(())
}

/// The walks to each of these addresses, in their order.
fn push_traces_in(
    text: &mut String,
    input: &LabInput,
    forwarder: &Forwarder,
    addresses: &[u32],
) -> Result<(), NoMemory>
    ensures { OnOk result (Appends (Traces input.now forwarder.now addresses.now) (string_bytes text.old) (string_bytes text.new)) }
{
    for address in addresses {
        push_traces_to(text, input, forwarder, *address)?;
    }
    Ok(())
}

/// Where packets go to the addresses of the input. Where it names none, the routes are not looked at.
pub(crate) fn push_traces(text: &mut String, alloc: Global, lab: &Lab) -> Result<(), NoMemory>
    ensures { OnOk result (Appends (Traces lab.now.input (forward_maps_of lab.now) lab.now.input.trace) (string_bytes text.old) (string_bytes text.new)) }
{
    if lab.input.trace.is_empty() {
        return Ok(());
    }
    let forwarder = forwarder_of(alloc, lab.tables.as_slice())?;
    push_traces_in(text, &lab.input, &forwarder, lab.input.trace.as_slice())
}
