//! The lanes of routers, the rounds and groups along, and the names.

ghost use Rattle.std.specs.Prelude.{◌≡◌, ◌++◌, OnOk, string_bytes};
ghost use Rattle.std.specs.List.{flat_map, enumerate_from};
ghost use Rattle.picture_view.specs.Axes.{rectangle, lane_shape, axis_words, round_shape, start_shape, row_name, lane_names, names_before};
ghost use Rattle.picture_view.specs.Axes.{axes_text, names_text};

use crate::elements::{push_down_line, push_number_at, push_text_at};
use crate::plan::{GroupStart, Lane, Plan};
use crate::positions::{
    bottom_y, column_x, eighth, end_x, lane_height, lane_y, name_columns, plus, round_x, row_y,
    times,
};
use crate::shapes::{peering_name, router_name};
use graft_edge::NoMemory;
use lab_tables::LabInput;
use std::fmt::Write;

/// A rectangle of a class.
#[tactic(auto, unfolding(crate::specs::Axes::rectangle))]
fn push_rectangle(
    text: &mut String,
    class: &str,
    x: usize,
    y: usize,
    width: usize,
    height: usize,
) -> Result<(), NoMemory>
    ensures { OnOk result (string_bytes text.new ≡ string_bytes text.old ++ rectangle class.now x y width height) }
{
    write!(
        text,
        "<rect class='{class}' x='{x}' y='{y}' width='{width}' height='{height}' rx='4'/>\n"
    )?;
    Ok(())
}

/// The lane of a router.
fn push_lane(text: &mut String, plan: &Plan, router: usize, lane: &Lane) -> Result<(), NoMemory>
    ensures { OnOk result (string_bytes text.new ≡ string_bytes text.old ++ lane_shape plan.now (router, lane.now)) }
{
    let y = lane_y(plan, router)?;
    let width = end_x(plan)?.saturating_sub(8);
    let height = lane_height(lane)?.saturating_sub(4);
    push_rectangle(text, "e", 8, y, width, height)
}

/// The lanes of routers.
fn push_lanes(text: &mut String, plan: &Plan, lanes: &[Lane]) -> Result<(), NoMemory>
    ensures { OnOk result (string_bytes text.new ≡ string_bytes text.old ++ flat_map (lane_shape plan.now) (enumerate_from 0 lanes.now)) }
{
    for (router, lane) in lanes.iter().enumerate() {
        push_lane(text, plan, router, lane)?;
    }
    Ok(())
}

/// What the numbers along are.
#[tactic(auto, unfolding(crate::specs::Axes::axis_words))]
fn push_axis_words(text: &mut String, plan: &Plan) -> Result<(), NoMemory>
    ensures { OnOk result (string_bytes text.new ≡ string_bytes text.old ++ axis_words plan.now) }
{
    let below = plus(bottom_y(plan)?, 12)?;
    push_text_at(text, "l", 16, 112, "group")?;
    push_text_at(text, "l", 16, 128, "round")?;
    push_text_at(text, "l", 16, below, "round")
}

/// A line where a round begins, and its number above and below it.
#[tactic(auto, unfolding(crate::specs::Axes::round_shape))]
fn push_round(text: &mut String, plan: &Plan, round: usize) -> Result<(), NoMemory>
    ensures { OnOk result (string_bytes text.new ≡ string_bytes text.old ++ round_shape plan.now round) }
{
    let x = round_x(plan, round)?;
    let bottom = bottom_y(plan)?;
    let middle = plus(x, times(4, eighth(plan))?)?;
    push_down_line(text, "o", x, 132, bottom)?;
    push_number_at(text, "a", middle, 128, round)?;
    push_number_at(text, "a", middle, plus(bottom, 12)?, round)
}

/// Rounds along.
fn push_rounds(text: &mut String, plan: &Plan, rounds: &[usize]) -> Result<(), NoMemory>
    ensures { OnOk result (string_bytes text.new ≡ string_bytes text.old ++ flat_map (round_shape plan.now) rounds.now) }
{
    for round in rounds {
        push_round(text, plan, *round)?;
    }
    Ok(())
}

/// A line where a group begins, and its number above it.
#[tactic(auto, unfolding(crate::specs::Axes::start_shape))]
fn push_start(text: &mut String, plan: &Plan, start: &GroupStart) -> Result<(), NoMemory>
    ensures { OnOk result (string_bytes text.new ≡ string_bytes text.old ++ start_shape plan.now start.now) }
{
    let x = round_x(plan, start.round)?;
    push_down_line(text, "b", x, 116, bottom_y(plan)?)?;
    push_number_at(text, "a", x, 112, start.group)
}

/// Groups along.
fn push_starts(text: &mut String, plan: &Plan, starts: &[GroupStart]) -> Result<(), NoMemory>
    ensures { OnOk result (string_bytes text.new ≡ string_bytes text.old ++ flat_map (start_shape plan.now) starts.now) }
{
    for start in starts {
        push_start(text, plan, start)?;
    }
    Ok(())
}

/// Lanes, rounds and groups.
#[tactic(auto, unfolding(crate::specs::Axes::axes_text))]
pub(crate) fn push_axes(text: &mut String, plan: &Plan) -> Result<(), NoMemory>
    ensures { OnOk result (string_bytes text.new ≡ string_bytes text.old ++ axes_text plan.now) }
{
    push_lanes(text, plan, plan.lanes.as_slice())?;
    push_axis_words(text, plan)?;
    push_rounds(text, plan, plan.shown.as_slice())?;
    push_starts(text, plan, plan.starts.as_slice())
}

/// The name of a peering in front of its row.
#[tactic(auto, unfolding(crate::specs::Axes::row_name))]
fn push_row_name(
    text: &mut String,
    input: &LabInput,
    plan: &Plan,
    x: usize,
    router: usize,
    peering: usize,
) -> Result<(), NoMemory>
    ensures { OnOk result (string_bytes text.new ≡ string_bytes text.old ++ row_name input.now plan.now x router peering) }
{
    let y = plus(row_y(plan, router, peering)?, 4)?;
    let name = peering_name(input, peering);
    push_text_at(text, "n", x.saturating_sub(8), y, name)
}

/// The names of the peerings that have rows in the lane of a router.
fn push_row_names(
    text: &mut String,
    input: &LabInput,
    plan: &Plan,
    x: usize,
    router: usize,
    lane: &[usize],
) -> Result<(), NoMemory>
    ensures { OnOk result (string_bytes text.new ≡ string_bytes text.old ++ flat_map (row_name input.now plan.now x router) lane.now) }
{
    for peering in lane {
        push_row_name(text, input, plan, x, router, *peering)?;
    }
    Ok(())
}

/// The name of a router, and those of its rows.
#[tactic(auto, unfolding(crate::specs::Axes::lane_names))]
fn push_lane_names(
    text: &mut String,
    input: &LabInput,
    plan: &Plan,
    x: usize,
    router: usize,
    lane: &Lane,
) -> Result<(), NoMemory>
    ensures { OnOk result (string_bytes text.new ≡ string_bytes text.old ++ lane_names input.now plan.now x (router, lane.now)) }
{
    let y = plus(lane_y(plan, router)?, 17)?;
    let name = router_name(input, router);
    push_text_at(text, "r", x.saturating_sub(112), y, name)?;
    push_row_names(text, input, plan, x, router, lane.as_slice())
}

/// The names of routers and of their rows.
fn push_all_names(
    text: &mut String,
    input: &LabInput,
    plan: &Plan,
    x: usize,
    lanes: &[Lane],
) -> Result<(), NoMemory>
    ensures { OnOk result (string_bytes text.new ≡ string_bytes text.old ++ flat_map (lane_names input.now plan.now x) (enumerate_from 0 lanes.now)) }
{
    for (router, lane) in lanes.iter().enumerate() {
        push_lane_names(text, input, plan, x, router, lane)?;
    }
    Ok(())
}

/// All names in front of a sixteen of rounds.
#[tactic(auto, unfolding(crate::specs::Axes::names_before))]
fn push_names_before(
    text: &mut String,
    input: &LabInput,
    plan: &Plan,
    sixteen: usize,
) -> Result<(), NoMemory>
    ensures { OnOk result (string_bytes text.new ≡ string_bytes text.old ++ names_before input.now plan.now sixteen) }
{
    let x = column_x(plan, times(16, sixteen)?)?;
    push_all_names(text, input, plan, x, plan.lanes.as_slice())
}

/// All names, in front of each sixteen of rounds.
#[tactic(auto, unfolding(crate::specs::Axes::names_text))]
pub(crate) fn push_names(text: &mut String, input: &LabInput, plan: &Plan) -> Result<(), NoMemory>
    ensures { OnOk result (string_bytes text.new ≡ string_bytes text.old ++ names_text input.now plan.now) }
{
    for sixteen in 0..name_columns(plan) {
        push_names_before(text, input, plan, sixteen)?;
    }
    Ok(())
}
