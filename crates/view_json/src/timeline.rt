//! The timeline of a run, as JSON.

ghost use Rattle.std.specs.Prelude.{◌≡◌, IfOk};
ghost use Rattle.serde_json.specs.View.{view};
ghost use Rattle.report_json.specs.Values.{json_line as json_line_lem};
ghost use Rattle.timeline_view.specs.Messages.{outlines_of as outlines_of_lem};
ghost use Rattle.view_json.specs.Timeline.{timeline_of, timeline_json as timeline_json_lem};

use crate::grafts::grafts_value;
use crate::sessions::{sessions_value, total_value};
use crate::tables::{events_value, tables_value};
use graft_edge::{NoMemory, Octets};
use lab_report::Lab;
use report_json::{end_value, json_line, put_text};
use serde_json::{Map, Value, put};
use std::alloc::Global;
use timeline_view::{Happening, Outline, happenings, outlines_of};

/// The timeline, of what happened.
fn timeline_value(
    alloc: Global,
    lab: &Lab,
    outlines: &[Outline],
    all: &[Happening],
) -> Result<Value, NoMemory>
    requires { outlines.now ≡ outlines_of_lem lab.now }
    ensures { IfOk result (λ v. view v ≡ timeline_of lab.now all.now) }
{
    let end = end_value(alloc, &lab.input, lab.end)?;
    let events = events_value(alloc, lab, outlines, all)?;
    let tables = tables_value(alloc, lab, all)?;
    let grafts = grafts_value(alloc, lab, outlines, all)?;
    let sessions = sessions_value(alloc, lab)?;
    let total = total_value(alloc, lab, outlines, all)?;
    let mut map = Map::new(alloc);
    put(&mut map, alloc, "events", events)?;
    put(&mut map, alloc, "grafts", grafts)?;
    put_text(&mut map, alloc, "job", "timeline")?;
    put(&mut map, alloc, "result", end)?;
    put(&mut map, alloc, "sessions", sessions)?;
    put(&mut map, alloc, "tables", tables)?;
    put(&mut map, alloc, "total", total)?;
    put(&mut map, alloc, "version", Value::from(1u32))?;
    Ok(Value::Object(map))
}

/// The timeline of a run, as JSON: how it ended, what happened, what each router did with prefixes in each round, what each graft took and what
/// its remote heard of it, and the OPENs and NOTIFICATIONs of each session.
pub fn timeline_json(alloc: Global, lab: &Lab) -> Result<Octets, NoMemory>
    ensures { IfOk result (λ text. text ≡ json_line_lem (timeline_json_lem lab.now)) }
{
    let all = happenings(alloc, lab)?;
    let outlines = outlines_of(alloc, lab)?;
    let value = timeline_value(alloc, lab, outlines.as_slice(), all.as_slice())?;
    json_line(alloc, &value)
}
