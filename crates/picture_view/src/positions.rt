//! Where things stand in the picture, in pixels. A number that doesn't fit is NoMemory.

ghost use Rattle.std.specs.Prelude.{◌≡◌, ◌+◌, ◌*◌, ◌==◌, ◌&&◌, IfOk, [], sum_by, count_by, nat_lt, get_or};
ghost use Rattle.std.specs.List.{find};
ghost use Rattle.std.specs.Option.{option_copied};
ghost use Rattle.picture_view.specs.Plans.{is_left as is_left_lem};
ghost use Rattle.picture_view.specs.Positions.{eighth, column_x, round_x, eighths, point_x, end_x, name_columns, x_of, arrives, is_back, frees};
ghost use Rattle.picture_view.specs.Positions.{graft_x, next_leave_x, lane_height, lane_y, bottom_y, row_y, width_of, height_of};

use crate::plan::{Change, GraftPoint, Lane, Plan, is_left};
use graft_edge::NoMemory;

/// The sum of two numbers.
pub(crate) fn plus(a: usize, b: usize) -> Result<usize, NoMemory>
    ensures { IfOk result (λ sum. sum ≡ a + b) }
{
    a.checked_add(b).ok_or(NoMemory)
}

/// The product of two numbers.
pub(crate) fn times(a: usize, b: usize) -> Result<usize, NoMemory>
    ensures { IfOk result (λ product. product ≡ a * b) }
{
    a.checked_mul(b).ok_or(NoMemory)
}

/// An eighth of the width of a round.
#[tactic(auto, unfolding(crate::specs::Positions::eighth))]
pub(crate) fn eighth(plan: &Plan) -> usize
    ensures { result ≡ eighth plan.now }
{
    let count = plan.shown.len().max(1);
    (160 / count).min(20).max(8)
}

/// Where the round of this number among those that are shown begins.
#[tactic(auto, unfolding(crate::specs::Positions::column_x))]
pub(crate) fn column_x(plan: &Plan, number: usize) -> Result<usize, NoMemory>
    ensures { IfOk result (λ x. x ≡ column_x plan.now number) }
{
    let names = times(128, plus(number / 16, 1)?)?;
    let width = times(8, eighth(plan))?;
    plus(names, times(width, number)?)
}

/// Where a round begins.
#[tactic(auto, unfolding(crate::specs::Positions::round_x))]
pub(crate) fn round_x(plan: &Plan, round: usize) -> Result<usize, NoMemory>
    ensures { IfOk result (λ x. x ≡ round_x plan.now round) }
{
    let number = plan.shown.iter().filter(|shown| **shown < round).count();
    column_x(plan, number)
}

/// Where within its round a change is, in eighths.
fn eighths(change: Change) -> usize
    ensures { result ≡ eighths change }
{
    match change {
        Change::Left | Change::Refused => 1,
        Change::Landed | Change::TurnedBack => 5,
        Change::CameBack | Change::Cleared => 7,
    }
}

/// Where a change is.
#[tactic(auto, unfolding(crate::specs::Positions::point_x))]
pub(crate) fn point_x(plan: &Plan, point: &GraftPoint) -> Result<usize, NoMemory>
    ensures { IfOk result (λ x. x ≡ point_x plan.now point.now) }
{
    let within = times(eighth(plan), eighths(point.change))?;
    plus(round_x(plan, point.round)?, within)
}

/// Where the last round ends.
#[tactic(auto, unfolding(crate::specs::Positions::end_x))]
pub(crate) fn end_x(plan: &Plan) -> Result<usize, NoMemory>
    ensures { IfOk result (λ x. x ≡ end_x plan.now) }
{
    let last = column_x(plan, plan.shown.len().saturating_sub(1))?;
    plus(last, times(8, eighth(plan))?)
}

/// How often names stand in front of rounds.
#[tactic(auto, unfolding(crate::specs::Positions::name_columns))]
pub(crate) fn name_columns(plan: &Plan) -> usize
    ensures { result ≡ name_columns plan.now }
{
    plan.shown.len().saturating_sub(1) / 16 + 1
}

/// Where a change is, or the end of the picture.
fn x_of(plan: &Plan, point: Option<&GraftPoint>) -> Result<usize, NoMemory>
    ensures { IfOk result (λ x. x ≡ x_of plan.now (option_copied point.entry)) }
{
    match point {
        Some(point) => point_x(plan, point),
        None => end_x(plan),
    }
}

fn arrives(change: Change) -> bool
    ensures { result ≡ arrives change }
{
    matches!(change, Change::Landed | Change::TurnedBack)
}

fn is_back(change: Change) -> bool
    ensures { result ≡ is_back change }
{
    matches!(change, Change::CameBack)
}

fn frees(change: Change) -> bool
    ensures { result ≡ frees change }
{
    matches!(change, Change::CameBack | Change::Cleared)
}

/// The change by which the session of a graft arrives at its target.
fn arrival(points: &[GraftPoint], graft: u32) -> Option<&GraftPoint>
    ensures { option_copied result ≡ find (λ p. arrives p.change && (p.graft == graft)) points.now }
{
    points
        .iter()
        .find(|point| arrives(point.change) && point.graft == graft)
}

/// Where the session of a graft arrives at its target.
#[tactic(auto, unfolding(crate::specs::Positions::graft_x))]
pub(crate) fn arrival_x(plan: &Plan, graft: u32) -> Result<usize, NoMemory>
    ensures { IfOk result (λ x. x ≡ graft_x plan.now arrives graft) }
{
    x_of(plan, arrival(plan.points.as_slice(), graft))
}

/// The change by which the session of a graft is back at its source.
fn coming_back(points: &[GraftPoint], graft: u32) -> Option<&GraftPoint>
    ensures { option_copied result ≡ find (λ p. is_back p.change && (p.graft == graft)) points.now }
{
    points
        .iter()
        .find(|point| is_back(point.change) && point.graft == graft)
}

/// Where the session of a graft is back at its source.
#[tactic(auto, unfolding(crate::specs::Positions::graft_x))]
pub(crate) fn return_x(plan: &Plan, graft: u32) -> Result<usize, NoMemory>
    ensures { IfOk result (λ x. x ≡ graft_x plan.now is_back graft) }
{
    x_of(plan, coming_back(plan.points.as_slice(), graft))
}

/// The change by which the source of a graft keeps the place of its session no longer.
fn freeing(points: &[GraftPoint], graft: u32) -> Option<&GraftPoint>
    ensures { option_copied result ≡ find (λ p. frees p.change && (p.graft == graft)) points.now }
{
    points
        .iter()
        .find(|point| frees(point.change) && point.graft == graft)
}

/// Where the source keeps the place of a graft's session no longer.
#[tactic(auto, unfolding(crate::specs::Positions::graft_x))]
pub(crate) fn freed_x(plan: &Plan, graft: u32) -> Result<usize, NoMemory>
    ensures { IfOk result (λ x. x ≡ graft_x plan.now frees graft) }
{
    x_of(plan, freeing(plan.points.as_slice(), graft))
}

/// The change by which the session of a peering next leaves after a round.
fn next_leave(points: &[GraftPoint], peering: usize, round: usize) -> Option<&GraftPoint>
    ensures { option_copied result
        ≡ find (λ p. is_left_lem p.change && ((p.peering == peering) && nat_lt round p.round)) points.now }
{
    points.iter().find(|point| is_left(point.change)
        && point.peering == peering
        && round < point.round)
}

/// Where the session of a peering next leaves after a round.
#[tactic(auto, unfolding(crate::specs::Positions::next_leave_x))]
pub(crate) fn next_leave_x(plan: &Plan, peering: usize, round: usize) -> Result<usize, NoMemory>
    ensures { IfOk result (λ x. x ≡ next_leave_x plan.now peering round) }
{
    x_of(plan, next_leave(plan.points.as_slice(), peering, round))
}

/// The height of a lane.
#[tactic(auto, unfolding(crate::specs::Positions::lane_height))]
pub(crate) fn lane_height(lane: &Lane) -> Result<usize, NoMemory>
    ensures { IfOk result (λ height. height ≡ lane_height lane.now) }
{
    plus(times(16, lane.len())?, 32)
}

/// The height of lanes together.
fn lanes_height(lanes: &[Lane]) -> Result<usize, NoMemory>
    ensures { IfOk result (λ height. height ≡ sum_by lane_height lanes.now) }
{
    let mut height: usize = 0;
    for lane in lanes {
        height = plus(height, lane_height(lane)?)?;
    }
    Ok(height)
}

/// Where the lane of a router begins.
#[tactic(auto, unfolding(crate::specs::Positions::lane_y))]
pub(crate) fn lane_y(plan: &Plan, router: usize) -> Result<usize, NoMemory>
    ensures { IfOk result (λ y. y ≡ lane_y plan.now router) }
{
    let above = router.min(plan.lanes.len());
    plus(136, lanes_height(&plan.lanes.as_slice()[..above])?)
}

/// Where the last lane ends.
#[tactic(auto, unfolding(crate::specs::Positions::bottom_y))]
pub(crate) fn bottom_y(plan: &Plan) -> Result<usize, NoMemory>
    ensures { IfOk result (λ y. y ≡ bottom_y plan.now) }
{
    plus(136, lanes_height(plan.lanes.as_slice())?)
}

/// How many rows of a router's lane stand above the one of a peering.
fn rows_above(plan: &Plan, router: usize, peering: usize) -> usize
    ensures { result ≡ count_by (λ q. nat_lt q peering) (get_or plan.now.lanes router []) }
{
    match plan.lanes.get(router) {
        Some(lane) => lane.iter().filter(|other| **other < peering).count(),
        None => 0,
    }
}

/// The row of a peering in the lane of a router.
#[tactic(auto, unfolding(crate::specs::Positions::row_y))]
pub(crate) fn row_y(plan: &Plan, router: usize, peering: usize) -> Result<usize, NoMemory>
    ensures { IfOk result (λ y. y ≡ row_y plan.now router peering) }
{
    let first = plus(lane_y(plan, router)?, 32)?;
    plus(first, times(16, rows_above(plan, router, peering))?)
}

/// The width of the picture.
#[tactic(auto, unfolding(crate::specs::Positions::width_of))]
pub(crate) fn width_of(plan: &Plan) -> Result<usize, NoMemory>
    ensures { IfOk result (λ width. width ≡ width_of plan.now) }
{
    Ok(plus(end_x(plan)?, 24)?.max(960))
}

/// The height of the picture, where so many grafts were refused.
#[tactic(auto, unfolding(crate::specs::Positions::height_of))]
pub(crate) fn height_of(plan: &Plan, refused: usize) -> Result<usize, NoMemory>
    ensures { IfOk result (λ height. height ≡ height_of plan.now refused) }
{
    let lanes = plus(bottom_y(plan)?, 40)?;
    plus(lanes, times(16, refused)?)
}
