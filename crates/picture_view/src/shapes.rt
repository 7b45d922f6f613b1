//! The shapes of sessions and grafts.

ghost use Rattle.std.specs.Prelude.{◌≡◌, ◌++◌, OnOk, string_bytes};
ghost use Rattle.std.specs.List.{flat_map, enumerate_from};
ghost use Rattle.lab_report.specs.Report.{router_name as router_name_lem, peering_name as peering_name_lem};
ghost use Rattle.picture_view.specs.declared.plan.Change.TheVariants.{Left, TurnedBack};
ghost use Rattle.picture_view.specs.Elements.{titled_end};
ghost use Rattle.picture_view.specs.Positions.{point_x as point_x_lem};
ghost use Rattle.picture_view.specs.Shapes.{stay_title, graft_title, stay, first_stay, stay_from, kept_by, kept_from};
ghost use Rattle.picture_view.specs.Shapes.{bow, bow_by, bow_from, graft_number, dot, cross, mark_from};

use crate::elements::{
    push_coloured_start, push_escaped, push_number_at, push_path_start, push_row_line,
};
use crate::plan::{Change, GraftPoint, Plan};
use crate::positions::{arrival_x, freed_x, next_leave_x, plus, point_x, return_x, round_x, row_y};
use graft_edge::NoMemory;
use lab_tables::{LabInput, PeeringInput};
use std::fmt::Write;

/// The name of the router of a number, or a dash.
pub(crate) fn router_name(input: &LabInput, router: usize) -> &str
    ensures { result.now ≡ router_name_lem input.now router }
{
    match input.routers.get(router) {
        Some(router) => router.name.as_str(),
        None => "-",
    }
}

/// The name of the peering of a number, or a dash.
pub(crate) fn peering_name(input: &LabInput, peering: usize) -> &str
    ensures { result.now ≡ peering_name_lem input.now peering }
{
    match input.peerings.get(peering) {
        Some(peering) => peering.name.as_str(),
        None => "-",
    }
}

/// Which session is at which router.
#[tactic(auto, unfolding(crate::specs::Shapes::stay_title))]
fn push_stay_title(
    text: &mut String,
    input: &LabInput,
    router: usize,
    peering: usize,
) -> Result<(), NoMemory>
    ensures { OnOk result (string_bytes text.new ≡ string_bytes text.old ++ stay_title input.now router peering) }
{
    push_escaped(text, peering_name(input, peering))?;
    text.push_str(" at ")?;
    push_escaped(text, router_name(input, router))
}

/// The end of a path that says which session is at which router.
fn push_stay_end(
    text: &mut String,
    input: &LabInput,
    router: usize,
    peering: usize,
) -> Result<(), NoMemory>
    ensures { OnOk result (string_bytes text.new ≡ string_bytes text.old ++ titled_end (stay_title input.now router peering)) }
{
    text.push_str("'><title>")?;
    push_stay_title(text, input, router, peering)?;
    text.push_str("</title></path>\n")?;
    Ok(())
}

/// Which graft it is.
#[tactic(auto, unfolding(crate::specs::Shapes::graft_title))]
fn push_graft_title(text: &mut String, input: &LabInput, point: &GraftPoint) -> Result<(), NoMemory>
    ensures { OnOk result (string_bytes text.new ≡ string_bytes text.old ++ graft_title input.now point.now) }
{
    let graft = point.graft;
    write!(text, "graft {graft} of ")?;
    push_escaped(text, peering_name(input, point.peering))?;
    text.push_str(" from ")?;
    push_escaped(text, router_name(input, point.source))?;
    text.push_str(" to ")?;
    push_escaped(text, router_name(input, point.target))
}

/// The end of a path that says which graft it is.
fn push_graft_end(text: &mut String, input: &LabInput, point: &GraftPoint) -> Result<(), NoMemory>
    ensures { OnOk result (string_bytes text.new ≡ string_bytes text.old ++ titled_end (graft_title input.now point.now)) }
{
    text.push_str("'><title>")?;
    push_graft_title(text, input, point)?;
    text.push_str("</title></path>\n")?;
    Ok(())
}

/// A session at a router, from a place in a round until it next leaves.
#[tactic(auto, unfolding(crate::specs::Shapes::stay))]
fn push_stay(
    text: &mut String,
    input: &LabInput,
    plan: &Plan,
    router: usize,
    peering: usize,
    round: usize,
    x: usize,
) -> Result<(), NoMemory>
    ensures { OnOk result (string_bytes text.new ≡ string_bytes text.old ++ stay input.now plan.now router peering round x) }
{
    let y = row_y(plan, router, peering)?;
    let to = next_leave_x(plan, peering, round)?;
    push_row_line(text, "s", peering, x, y, to)?;
    push_stay_end(text, input, router, peering)
}

/// A session from the beginning, where its peering starts.
fn push_first_stay(
    text: &mut String,
    input: &LabInput,
    plan: &Plan,
    index: usize,
    peering: &PeeringInput,
) -> Result<(), NoMemory>
    ensures { OnOk result (string_bytes text.new ≡ string_bytes text.old ++ first_stay input.now plan.now (index, peering.now)) }
{
    let router = usize::from(peering.at.0);
    push_stay(text, input, plan, router, index, 0, round_x(plan, 0)?)
}

/// All sessions from the beginning.
pub(crate) fn push_first_stays(
    text: &mut String,
    input: &LabInput,
    plan: &Plan,
    peerings: &[PeeringInput],
) -> Result<(), NoMemory>
    ensures { OnOk result (string_bytes text.new ≡ string_bytes text.old ++ flat_map (first_stay input.now plan.now) (enumerate_from 0 peerings.now)) }
{
    for (index, peering) in peerings.iter().enumerate() {
        push_first_stay(text, input, plan, index, peering)?;
    }
    Ok(())
}

/// A session at a router from a change on.
fn push_stay_at(
    text: &mut String,
    input: &LabInput,
    plan: &Plan,
    router: usize,
    point: &GraftPoint,
) -> Result<(), NoMemory>
    ensures { OnOk result (string_bytes text.new
        ≡ string_bytes text.old ++ stay input.now plan.now router point.now.peering point.now.round (point_x_lem plan.now point.now)) }
{
    let x = point_x(plan, point)?;
    push_stay(text, input, plan, router, point.peering, point.round, x)
}

/// A session from where it landed or came back, if it did.
fn push_stay_from(
    text: &mut String,
    input: &LabInput,
    plan: &Plan,
    point: &GraftPoint,
) -> Result<(), NoMemory>
    ensures { OnOk result (string_bytes text.new ≡ string_bytes text.old ++ stay_from input.now plan.now point.now) }
{
    match point.change {
        Change::Landed => push_stay_at(text, input, plan, point.target, point),
        Change::CameBack => push_stay_at(text, input, plan, point.source, point),
        _ => Ok(()),
    }
}

/// The place that is kept for a session that left.
fn push_kept_place(text: &mut String, plan: &Plan, point: &GraftPoint) -> Result<(), NoMemory>
    ensures { OnOk result (string_bytes text.new ≡ string_bytes text.old ++ kept_by plan.now point.now Left) }
{
    let x = point_x(plan, point)?;
    let y = row_y(plan, point.source, point.peering)?;
    let to = freed_x(plan, point.graft)?;
    push_row_line(text, "k", point.peering, x, y, to)?;
    text.push_str("'/>\n")?;
    Ok(())
}

/// The place that is kept for a session, if it left.
fn push_kept(text: &mut String, plan: &Plan, point: &GraftPoint) -> Result<(), NoMemory>
    ensures { OnOk result (string_bytes text.new ≡ string_bytes text.old ++ kept_from plan.now point.now) }
{
    match point.change {
        Change::Left => push_kept_place(text, plan, point),
        _ => Ok(()),
    }
}

/// A bow from one place to another, up to its end tag.
#[tactic(auto, unfolding(crate::specs::Shapes::bow))]
fn push_bow_line(
    text: &mut String,
    peering: usize,
    x: usize,
    y: usize,
    to_x: usize,
    to_y: usize,
) -> Result<(), NoMemory>
    ensures { OnOk result (string_bytes text.new ≡ string_bytes text.old ++ bow peering x y to_x to_y) }
{
    let middle = plus(x, to_x)? / 2;
    push_coloured_start(text, "w", peering, x, y)?;
    write!(text, "C{middle} {y} {middle} {to_y} {to_x} {to_y}")?;
    Ok(())
}

/// The way of a session to its target.
fn push_way_to(
    text: &mut String,
    input: &LabInput,
    plan: &Plan,
    point: &GraftPoint,
) -> Result<(), NoMemory>
    ensures { OnOk result (string_bytes text.new ≡ string_bytes text.old ++ bow_by input.now plan.now point.now Left) }
{
    let x = point_x(plan, point)?;
    let y = row_y(plan, point.source, point.peering)?;
    let to_x = arrival_x(plan, point.graft)?;
    let to_y = row_y(plan, point.target, point.peering)?;
    push_bow_line(text, point.peering, x, y, to_x, to_y)?;
    push_graft_end(text, input, point)
}

/// The way of a session back to its source.
fn push_way_back(
    text: &mut String,
    input: &LabInput,
    plan: &Plan,
    point: &GraftPoint,
) -> Result<(), NoMemory>
    ensures { OnOk result (string_bytes text.new ≡ string_bytes text.old ++ bow_by input.now plan.now point.now TurnedBack) }
{
    let x = point_x(plan, point)?;
    let y = row_y(plan, point.target, point.peering)?;
    let to_x = return_x(plan, point.graft)?;
    let to_y = row_y(plan, point.source, point.peering)?;
    push_bow_line(text, point.peering, x, y, to_x, to_y)?;
    push_graft_end(text, input, point)
}

/// The way of a session, if it left or was turned back.
fn push_bow(
    text: &mut String,
    input: &LabInput,
    plan: &Plan,
    point: &GraftPoint,
) -> Result<(), NoMemory>
    ensures { OnOk result (string_bytes text.new ≡ string_bytes text.old ++ bow_from input.now plan.now point.now) }
{
    match point.change {
        Change::Left => push_way_to(text, input, plan, point),
        Change::TurnedBack => push_way_back(text, input, plan, point),
        _ => Ok(()),
    }
}

/// The number of a graft beside its mark.
#[tactic(auto, unfolding(crate::specs::Shapes::graft_number))]
fn push_graft_number(text: &mut String, x: usize, y: usize, graft: u32) -> Result<(), NoMemory>
    ensures { OnOk result (string_bytes text.new ≡ string_bytes text.old ++ graft_number x y graft) }
{
    push_number_at(text, "g", plus(x, 7)?, y.saturating_sub(4), graft as usize)
}

/// A dot where a session landed.
#[tactic(auto, unfolding(crate::specs::Shapes::dot))]
fn push_dot(text: &mut String, point: &GraftPoint, x: usize, y: usize) -> Result<(), NoMemory>
    ensures { OnOk result (string_bytes text.new ≡ string_bytes text.old ++ dot point.now x y) }
{
    push_coloured_start(text, "d", point.peering, x, y)?;
    text.push_str("h0'/>\n")?;
    push_graft_number(text, x, y, point.graft)
}

/// A cross where a graft was refused.
#[tactic(auto, unfolding(crate::specs::Shapes::cross))]
fn push_cross(
    text: &mut String,
    input: &LabInput,
    point: &GraftPoint,
    x: usize,
    y: usize,
) -> Result<(), NoMemory>
    ensures { OnOk result (string_bytes text.new ≡ string_bytes text.old ++ cross input.now point.now x y) }
{
    push_path_start(text, "x", x.saturating_sub(5), y.saturating_sub(5))?;
    text.push_str("l10 10m0 -10l-10 10")?;
    push_graft_end(text, input, point)?;
    push_graft_number(text, x, y, point.graft)
}

/// The mark of a graft that landed or was refused, if it is one.
fn push_mark(
    text: &mut String,
    input: &LabInput,
    plan: &Plan,
    point: &GraftPoint,
) -> Result<(), NoMemory>
    ensures { OnOk result (string_bytes text.new ≡ string_bytes text.old ++ mark_from input.now plan.now point.now) }
{
    let x = point_x(plan, point)?;
    let there = row_y(plan, point.target, point.peering)?;
    let here = row_y(plan, point.source, point.peering)?;
    match point.change {
        Change::Landed => push_dot(text, point, x, there),
        Change::TurnedBack => push_cross(text, input, point, x, there),
        Change::Refused => push_cross(text, input, point, x, here),
        _ => Ok(()),
    }
}

/// The places that are kept for sessions.
pub(crate) fn push_all_kept(
    text: &mut String,
    plan: &Plan,
    points: &[GraftPoint],
) -> Result<(), NoMemory>
    ensures { OnOk result (string_bytes text.new ≡ string_bytes text.old ++ flat_map (kept_from plan.now) points.now) }
{
    for point in points {
        push_kept(text, plan, point)?;
    }
    Ok(())
}

/// The ways of sessions.
pub(crate) fn push_bows(
    text: &mut String,
    input: &LabInput,
    plan: &Plan,
    points: &[GraftPoint],
) -> Result<(), NoMemory>
    ensures { OnOk result (string_bytes text.new ≡ string_bytes text.old ++ flat_map (bow_from input.now plan.now) points.now) }
{
    for point in points {
        push_bow(text, input, plan, point)?;
    }
    Ok(())
}

/// Sessions from where they landed or came back.
pub(crate) fn push_stays(
    text: &mut String,
    input: &LabInput,
    plan: &Plan,
    points: &[GraftPoint],
) -> Result<(), NoMemory>
    ensures { OnOk result (string_bytes text.new ≡ string_bytes text.old ++ flat_map (stay_from input.now plan.now) points.now) }
{
    for point in points {
        push_stay_from(text, input, plan, point)?;
    }
    Ok(())
}

/// The marks of grafts.
pub(crate) fn push_marks(
    text: &mut String,
    input: &LabInput,
    plan: &Plan,
    points: &[GraftPoint],
) -> Result<(), NoMemory>
    ensures { OnOk result (string_bytes text.new ≡ string_bytes text.old ++ flat_map (mark_from input.now plan.now) points.now) }
{
    for point in points {
        push_mark(text, input, plan, point)?;
    }
    Ok(())
}
