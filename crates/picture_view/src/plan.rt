//! What the picture of a run shows.

ghost use Rattle.std.specs.Prelude.{◌≡◌, ◌++◌, ◌∷◌, ◌==◌, [], IfOk, OnOk, filter};
ghost use Rattle.std.specs.List.{list_any};
ghost use Rattle.timeline_view.specs.Numbers.{graft_in as graft_in_lem};
ghost use Rattle.picture_view.specs.Plans.{point_from, point_of, points_in, points_of, starts_in, starts_of, last_round, is_shown, rounds_shown};
ghost use Rattle.picture_view.specs.Plans.{is_left, leaves_for, comes_to, row_in, lane_of, lanes_of, plan_of};

use graft_edge::{Items, NoMemory};
use graft_steps::GraftEntry;
use lab_report::Lab;
use lab_tables::PeeringInput;
use std::alloc::Global;
use timeline_view::{Event, Happening, graft_in, happenings};

/// What happened to a session in a graft.
#[derive(Clone, Copy, Debug, PartialEq, Eq, Hash)]
pub enum Change {
    /// It left its source.
    Left,
    /// It landed at its target.
    Landed,
    /// The target turned it back.
    TurnedBack,
    /// It was back at its source.
    CameBack,
    /// The source cleared what it kept of it.
    Cleared,
    /// The source refused the graft, and kept it.
    Refused,
}

/// A change of a session in a graft, with its round. The peering and the routers go by their numbers.
#[derive(Clone, Copy, Debug, PartialEq, Eq, Hash)]
pub struct GraftPoint {
    pub round: usize,
    pub change: Change,
    pub graft: u32,
    pub peering: usize,
    pub source: usize,
    pub target: usize,
}

/// Changes of sessions, in the order of the journal.
pub type GraftPoints = Items<GraftPoint>;

/// The round in which the group of this number began.
#[derive(Clone, Copy, Debug, PartialEq, Eq, Hash)]
pub struct GroupStart {
    pub round: usize,
    pub group: usize,
}

pub type GroupStarts = Items<GroupStart>;

/// Rounds, in rising order.
pub type Rounds = Items<usize>;

/// The peerings that have a row in the lane of a router, in rising order.
pub type Lane = Items<usize>;

/// Lanes, in the order of the routers.
pub type Lanes = Items<Lane>;

/// What the picture shows: changes of sessions, beginnings of groups, the rounds that have room in it, and the lanes of the routers.
#[derive(Debug, Drop)]
pub struct Plan {
    pub points: GraftPoints,
    pub starts: GroupStarts,
    pub shown: Rounds,
    pub lanes: Lanes,
}

/// Adds a change in a graft that was ordered.
fn push_point(
    points: &mut GraftPoints,
    round: usize,
    change: Change,
    entry: &GraftEntry,
) -> Result<(), NoMemory>
    ensures { OnOk result (points.new ≡ points.old ++ point_from round change entry.now entry.now.source) }
{
    if let Some(source) = entry.source {
        points.push(GraftPoint {
            round,
            change,
            graft: entry.graft,
            peering: usize::from(entry.peering.0),
            source: usize::from(source.0),
            target: usize::from(entry.target.0),
        })?;
    }
    Ok(())
}

/// Adds a change in a graft, if the log has the graft.
fn push_point_of(
    points: &mut GraftPoints,
    log: &[GraftEntry],
    round: usize,
    change: Change,
    graft: u32,
) -> Result<(), NoMemory>
    ensures { OnOk result (points.new ≡ points.old ++ point_of round change (graft_in_lem log.now graft)) }
{
    match graft_in(log, graft) {
        Some(entry) => push_point(points, round, change, entry),
        None => Ok(()),
    }
}

/// Adds the change that an event is.
fn push_change(
    points: &mut GraftPoints,
    log: &[GraftEntry],
    round: usize,
    event: Event,
) -> Result<(), NoMemory>
    ensures { OnOk result (points.new ≡ points.old ++ points_in round log.now event) }
{
    match event {
        Event::Leave { graft } => push_point_of(points, log, round, Change::Left, graft),
        Event::Land { graft } => push_point_of(points, log, round, Change::Landed, graft),
        Event::TurnBack { graft } => push_point_of(points, log, round, Change::TurnedBack, graft),
        Event::Return { graft } => push_point_of(points, log, round, Change::CameBack, graft),
        Event::Clear { graft } => push_point_of(points, log, round, Change::Cleared, graft),
        Event::Refuse { graft } => push_point_of(points, log, round, Change::Refused, graft),
        _ => Ok(()),
    }
}

/// The changes that these events are.
#[tactic(auto, unfolding(crate::specs::Plans::points_of))]
fn points_of(alloc: Global, log: &[GraftEntry], all: &[Happening]) -> Result<GraftPoints, NoMemory>
    ensures { IfOk result (λ points. points ≡ points_of log.now all.now) }
{
    let mut points = Items::new(alloc);
    for happening in all {
        push_change(&mut points, log, happening.round, happening.event)?;
    }
    Ok(points)
}

/// Adds the beginning of a group, if an event is one.
fn push_start(starts: &mut GroupStarts, round: usize, event: Event) -> Result<(), NoMemory>
    ensures { OnOk result (starts.new ≡ starts.old ++ starts_in round event) }
{
    if let Event::Begin { group } = event {
        starts.push(GroupStart { round, group })?;
    }
    Ok(())
}

/// The beginnings of all groups, of which the first is at work from the beginning.
#[tactic(auto, unfolding(crate::specs::Plans::starts_of))]
fn starts_of(alloc: Global, all: &[Happening]) -> Result<GroupStarts, NoMemory>
    ensures { IfOk result (λ starts. starts ≡ starts_of all.now) }
{
    let mut starts = Items::one(alloc, GroupStart { round: 0, group: 1 })?;
    for happening in all {
        push_start(&mut starts, happening.round, happening.event)?;
    }
    Ok(starts)
}

/// The number of the last round, of the marks of a run.
pub(crate) fn last_round(marks: usize) -> usize
    ensures { result ≡ last_round marks }
{
    marks.saturating_sub(1)
}

/// Whether a session changed in a round.
fn has_point(points: &[GraftPoint], round: usize) -> bool
    ensures { result ≡ list_any (λ p. p.round == round) points.now }
{
    points.iter().any(|point| point.round == round)
}

/// Whether a group began in a round.
fn has_start(starts: &[GroupStart], round: usize) -> bool
    ensures { result ≡ list_any (λ s. s.round == round) starts.now }
{
    starts.iter().any(|start| start.round == round)
}

/// Whether a round has room in the picture.
fn is_shown(points: &[GraftPoint], starts: &[GroupStart], last: usize, round: usize) -> bool
    ensures { result ≡ is_shown points.now starts.now last round }
{
    round == last || has_point(points, round) || has_start(starts, round)
}

/// Adds a round, if it has room in the picture.
fn push_shown(
    rounds: &mut Rounds,
    points: &[GraftPoint],
    starts: &[GroupStart],
    last: usize,
    round: usize,
) -> Result<(), NoMemory>
    ensures { OnOk result (rounds.new ≡ rounds.old ++ filter (is_shown points.now starts.now last) (round ∷ [])) }
{
    if is_shown(points, starts, last, round) {
        rounds.push(round)?;
    }
    Ok(())
}

/// The rounds that have room in the picture.
#[tactic(auto, unfolding(crate::specs::Plans::rounds_shown))]
fn rounds_shown(
    alloc: Global,
    points: &[GraftPoint],
    starts: &[GroupStart],
    marks: usize,
) -> Result<Rounds, NoMemory>
    ensures { IfOk result (λ rounds. rounds ≡ rounds_shown points.now starts.now marks) }
{
    let last = last_round(marks);
    let mut rounds = Items::new(alloc);
    for round in 0..marks {
        push_shown(&mut rounds, points, starts, last, round)?;
    }
    Ok(rounds)
}

pub(crate) fn is_left(change: Change) -> bool
    ensures { result ≡ is_left change }
{
    matches!(change, Change::Left)
}

/// Whether a change is that a session of the peering left for the router.
fn leaves_for(router: usize, peering: usize, point: &GraftPoint) -> bool
    ensures { result ≡ leaves_for router peering point.now }
{
    is_left(point.change) && point.peering == peering && point.target == router
}

/// Whether a session of the peering left for the router.
fn has_leave_for(points: &[GraftPoint], router: usize, peering: usize) -> bool
    ensures { result ≡ list_any (leaves_for router peering) points.now }
{
    points
        .iter()
        .any(|point| leaves_for(router, peering, point))
}

/// Whether the session of a peering starts at the router or was sent there.
fn comes_to(points: &[GraftPoint], router: usize, index: usize, peering: &PeeringInput) -> bool
    ensures { result ≡ comes_to points.now router (index, peering.now) }
{
    usize::from(peering.at.0) == router || has_leave_for(points, router, index)
}

/// Adds the row of a peering, if it has one in the lane of the router.
fn push_row(
    lane: &mut Lane,
    points: &[GraftPoint],
    router: usize,
    index: usize,
    peering: &PeeringInput,
) -> Result<(), NoMemory>
    ensures { OnOk result (lane.new ≡ lane.old ++ row_in points.now router (index, peering.now)) }
{
    if comes_to(points, router, index, peering) {
        lane.push(index)?;
    }
    Ok(())
}

/// The lane of a router.
#[tactic(auto, unfolding(crate::specs::Plans::lane_of))]
fn lane_of(
    alloc: Global,
    peerings: &[PeeringInput],
    points: &[GraftPoint],
    router: usize,
) -> Result<Lane, NoMemory>
    ensures { IfOk result (λ lane. lane ≡ lane_of peerings.now points.now router) }
{
    let mut lane = Items::new(alloc);
    for (index, peering) in peerings.iter().enumerate() {
        push_row(&mut lane, points, router, index, peering)?;
    }
    Ok(lane)
}

/// The lanes of so many routers.
#[tactic(auto, unfolding(crate::specs::Plans::lanes_of))]
fn lanes_of(
    alloc: Global,
    routers: usize,
    peerings: &[PeeringInput],
    points: &[GraftPoint],
) -> Result<Lanes, NoMemory>
    ensures { IfOk result (λ lanes. lanes ≡ lanes_of routers peerings.now points.now) }
{
    let mut lanes = Items::new(alloc);
    for router in 0..routers {
        let lane = lane_of(alloc, peerings, points, router)?;
        lanes.push(lane)?;
    }
    Ok(lanes)
}

/// What the picture of a run shows.
#[tactic(auto, unfolding(crate::specs::Plans::plan_of, crate::specs::Plans::plan_by))]
pub(crate) fn plan_of(alloc: Global, lab: &Lab) -> Result<Plan, NoMemory>
    ensures { IfOk result (λ plan. plan ≡ plan_of lab.now) }
{
    let all = happenings(alloc, lab)?;
    let points = points_of(alloc, lab.log.as_slice(), all.as_slice())?;
    let starts = starts_of(alloc, all.as_slice())?;
    let shown = rounds_shown(alloc, points.as_slice(), starts.as_slice(), lab.marks.len())?;
    let peerings = lab.input.peerings.as_slice();
    let lanes = lanes_of(alloc, lab.input.routers.len(), peerings, points.as_slice())?;
    Ok(Plan {
        points,
        starts,
        shown,
        lanes,
    })
}
