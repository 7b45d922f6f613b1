//! The report of a run, as JSON.

ghost use Rattle.std.specs.Prelude.{◌≡◌, IfOk, OnOk};
ghost use Rattle.serde_json.specs.View.{view};
ghost use Rattle.report_json.specs.Run.{settled_json, unsettled_json, stream_full_json, journal_full_json, end_json, report_json as report_json_lem};
ghost use Rattle.report_json.specs.Tokens.{with_value};
ghost use Rattle.report_json.specs.Traces.{IsReportJson};

use crate::grafts::grafts_value;
use crate::peerings::peerings_value;
use crate::routers::routers_value;
use crate::text::JsonText;
use crate::traces::traces_value;
use crate::values::{json_line, put_text};
use graft_edge::{NoMemory, Octets};
use lab_report::{Lab, RunEnd, peering_name};
use lab_tables::LabInput;
use serde_json::{Map, Value, put};
use std::alloc::Global;

// ---- how the run ended

fn settled_value(alloc: Global) -> Result<Value, NoMemory>
    ensures { IfOk result (λ v. view v ≡ settled_json) }
{
    let mut map = Map::new(alloc);
    put_text(&mut map, alloc, "end", "settled")?;
    Ok(Value::Object(map))
}

/// The rounds of a settle were not enough.
fn unsettled_value(alloc: Global, step: u32, rounds: u32) -> Result<Value, NoMemory>
    ensures { IfOk result (λ v. view v ≡ unsettled_json step rounds) }
{
    let mut map = Map::new(alloc);
    put_text(&mut map, alloc, "end", "unsettled")?;
    put(&mut map, alloc, "rounds", Value::from(rounds))?;
    put(&mut map, alloc, "step", Value::from(step))?;
    Ok(Value::Object(map))
}

fn stream_full_value(alloc: Global, peering: &str, length: u32) -> Result<Value, NoMemory>
    ensures { IfOk result (λ v. view v ≡ stream_full_json peering.now length) }
{
    let mut map = Map::new(alloc);
    put_text(&mut map, alloc, "end", "stream-full")?;
    put(&mut map, alloc, "length", Value::from(length))?;
    put_text(&mut map, alloc, "peering", peering)?;
    Ok(Value::Object(map))
}

fn journal_full_value(alloc: Global, events: u64) -> Result<Value, NoMemory>
    ensures { IfOk result (λ v. view v ≡ journal_full_json events) }
{
    let mut map = Map::new(alloc);
    put_text(&mut map, alloc, "end", "journal-full")?;
    put(&mut map, alloc, "events", Value::from(events))?;
    Ok(Value::Object(map))
}

/// Returns how the run ended.
pub fn end_value(alloc: Global, input: &LabInput, end: RunEnd) -> Result<Value, NoMemory>
    ensures { IfOk result (λ v. view v ≡ end_json input.now end) }
{
    match end {
        RunEnd::Settled => settled_value(alloc),
        RunEnd::Unsettled { step, rounds, .. } => unsettled_value(alloc, step, rounds),
        RunEnd::StreamFull { peering, length } => {
            stream_full_value(alloc, peering_name(input, peering.0), length)
        }
        RunEnd::JournalFull { events } => journal_full_value(alloc, events),
    }
}

fn write_settled(out: &mut JsonText) -> Result<(), NoMemory>
    ensures { OnOk result (out.new ≡ with_value settled_json out.old) }
{
    out.begin_object()?;
    out.name("end")?;
    out.text("settled")?;
    out.end_object()
}

fn write_unsettled(out: &mut JsonText, step: u32, rounds: u32) -> Result<(), NoMemory>
    ensures { OnOk result (out.new ≡ with_value (unsettled_json step rounds) out.old) }
{
    out.begin_object()?;
    out.name("end")?;
    out.text("unsettled")?;
    out.name("rounds")?;
    out.number(u64::from(rounds))?;
    out.name("step")?;
    out.number(u64::from(step))?;
    out.end_object()
}

fn write_stream_full(out: &mut JsonText, peering: &str, length: u32) -> Result<(), NoMemory>
    ensures { OnOk result (out.new ≡ with_value (stream_full_json peering.now length) out.old) }
{
    out.begin_object()?;
    out.name("end")?;
    out.text("stream-full")?;
    out.name("length")?;
    out.number(u64::from(length))?;
    out.name("peering")?;
    out.text(peering)?;
    out.end_object()
}

fn write_journal_full(out: &mut JsonText, events: u64) -> Result<(), NoMemory>
    ensures { OnOk result (out.new ≡ with_value (journal_full_json events) out.old) }
{
    out.begin_object()?;
    out.name("end")?;
    out.text("journal-full")?;
    out.name("events")?;
    out.number(events)?;
    out.end_object()
}

/// Adds how the run ended to a text.
pub fn write_end(out: &mut JsonText, input: &LabInput, end: RunEnd) -> Result<(), NoMemory>
    ensures { OnOk result (out.new ≡ with_value (end_json input.now end) out.old) }
{
    match end {
        RunEnd::Settled => write_settled(out),
        RunEnd::Unsettled { step, rounds, .. } => write_unsettled(out, step, rounds),
        RunEnd::StreamFull { peering, length } => {
            write_stream_full(out, peering_name(input, peering.0), length)
        }
        RunEnd::JournalFull { events } => write_journal_full(out, events),
    }
}

// ---- the whole

/// The whole report, with these walks.
fn report_value(alloc: Global, lab: &Lab, traces: Value) -> Result<Value, NoMemory>
    ensures { IfOk result (λ v. view v ≡ report_json_lem lab.now (view traces)) }
{
    let end = end_value(alloc, &lab.input, lab.end)?;
    let routers = routers_value(alloc, lab)?;
    let peerings = peerings_value(alloc, lab)?;
    let grafts = grafts_value(alloc, lab)?;
    let mut map = Map::new(alloc);
    put(&mut map, alloc, "grafts", grafts)?;
    put_text(&mut map, alloc, "job", "run")?;
    put(&mut map, alloc, "peerings", peerings)?;
    put(&mut map, alloc, "result", end)?;
    put(&mut map, alloc, "routers", routers)?;
    put(&mut map, alloc, "traces", traces)?;
    put(&mut map, alloc, "version", Value::from(1u32))?;
    Ok(Value::Object(map))
}

/// The report of a run, as JSON: how it ended, each router's best routes, the place, state and tables of each peering's session, how each graft
/// ended, and where packets go to the addresses of the input.
pub fn report_json(alloc: Global, lab: &Lab) -> Result<Octets, NoMemory>
    ensures { IfOk result (IsReportJson lab.now) }
{
    let traces = traces_value(alloc, lab)?;
    let value = report_value(alloc, lab, traces)?;
    json_line(alloc, &value)
}
