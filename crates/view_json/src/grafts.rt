//! What grafts took and what their remotes heard of them, as JSON.

ghost use Rattle.std.specs.Prelude.{◌≡◌, map, IfOk};
ghost use Rattle.serde_json.specs.View.{view};
ghost use Rattle.report_json.specs.Values.{list_of};
ghost use Rattle.timeline_view.specs.Messages.{outlines_of};
ghost use Rattle.view_json.specs.Timeline.{span_json, moved_json, grafts_json};

use graft_edge::NoMemory;
use graft_steps::GraftEntry;
use lab_report::Lab;
use report_json::{graft_value, push_value};
use serde_json::{Map, Value, put};
use std::alloc::Global;
use timeline_view::{Happening, Moment, Outline, round_of, strays_of, updates_after};

/// How many rounds one event was after another, or null.
fn span_value(from: Option<usize>, to: Option<usize>) -> Value
    ensures { view result ≡ span_json from to }
{
    match (from, to) {
        (Some(from), Some(to)) => Value::from(to.saturating_sub(from)),
        _ => Value::Null,
    }
}

/// A graft, its rounds, the segments that came astray, and the UPDATEs that its remote was put.
fn moved_value(
    alloc: Global,
    lab: &Lab,
    outlines: &[Outline],
    all: &[Happening],
    graft: &GraftEntry,
) -> Result<Value, NoMemory>
    requires { outlines.now ≡ outlines_of lab.now }
    ensures { IfOk result (λ v. view v ≡ moved_json lab.now all.now graft.now) }
{
    let number = graft.graft;
    let frozen = round_of(Moment::Frozen, number, all);
    let left = round_of(Moment::Left, number, all);
    let to_freeze = span_value(round_of(Moment::Ordered, number, all), frozen);
    let to_landing = span_value(left, round_of(Moment::Landed, number, all));
    let counts = updates_after(lab, outlines, graft, all)?;
    let entry = graft_value(alloc, &lab.input, graft)?;
    let astray = Value::from(strays_of(graft, all));
    let mut map = Map::new(alloc);
    put(&mut map, alloc, "announced", Value::from(counts.announced))?;
    put(&mut map, alloc, "astray", astray)?;
    put(&mut map, alloc, "frozen", span_value(frozen, left))?;
    put(&mut map, alloc, "graft", entry)?;
    put(&mut map, alloc, "to_freeze", to_freeze)?;
    put(&mut map, alloc, "to_landing", to_landing)?;
    put(&mut map, alloc, "updates", Value::from(counts.updates))?;
    put(&mut map, alloc, "withdrawn", Value::from(counts.withdrawn))?;
    Ok(Value::Object(map))
}

/// These grafts.
fn each_moved(
    alloc: Global,
    lab: &Lab,
    outlines: &[Outline],
    all: &[Happening],
    log: &[GraftEntry],
) -> Result<Value, NoMemory>
    requires { outlines.now ≡ outlines_of lab.now }
    ensures { IfOk result (λ v. view v ≡ list_of (map (moved_json lab.now all.now) log.now)) }
{
    let mut list = Vec::with_capacity(alloc, log.len())?;
    for graft in log {
        push_value(&mut list, moved_value(alloc, lab, outlines, all, graft)?)?;
    }
    Ok(Value::Array(list))
}

/// All grafts, in the order of the log.
pub(crate) fn grafts_value(
    alloc: Global,
    lab: &Lab,
    outlines: &[Outline],
    all: &[Happening],
) -> Result<Value, NoMemory>
    requires { outlines.now ≡ outlines_of lab.now }
    ensures { IfOk result (λ v. view v ≡ grafts_json lab.now all.now) }
{
    each_moved(alloc, lab, outlines, all, lab.log.as_slice())
}
