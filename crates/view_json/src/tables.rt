//! What happened, and what routers did with prefixes, by rounds, as JSON.

ghost use Rattle.std.specs.Prelude.{◌≡◌, ◌++◌, map, slice_get, IfOk, OnOk};
ghost use Rattle.std.specs.List.{flat_map, enumerate_from};
ghost use Rattle.serde_json.specs.View.{view};
ghost use Rattle.timeline_view.specs.Messages.{outlines_of};
ghost use Rattle.timeline_view.specs.Rounds.{in_round};
ghost use Rattle.view_json.specs.Events.{happening_json};
ghost use Rattle.view_json.specs.Timeline.{opening_of, opening_json, events_json, some_counts, counts_json, router_counts, tables_json};

use crate::events::{push_happening, push_put};
use crate::sessions::session_at;
use bgp_story::Line;
use graft_edge::NoMemory;
use lab_report::{Lab, SessionView, router_name};
use lab_tables::{PeeringInput, RouterInput};
use report_json::{push_value, put_text};
use serde_json::{Map, Value, put};
use std::alloc::Global;
use timeline_view::{Happening, Happenings, Outline, by_rounds, decided_at, heard_at, told_at};

// ---- events

/// Adds the OPEN that stands first in a story.
fn push_opening(
    list: &mut Vec<Value>,
    alloc: Global,
    holder: &str,
    remote: &str,
    session: &SessionView,
) -> Result<(), NoMemory>
    ensures { OnOk result (map view list.new.items
        ≡ map view list.old.items ++ opening_of holder.now remote.now (slice_get session.now.story.lines 0)) }
{
    match session.story.lines().get(0) {
        Some(Line::Put(message)) => push_put(list, alloc, 0, holder, remote, message),
        Some(Line::Got(_) | Line::Tick(_)) | None => Ok(()),
    }
}

/// Adds the OPEN with which the session of a peering begins, if it has one.
fn push_peering_opening(
    list: &mut Vec<Value>,
    alloc: Global,
    lab: &Lab,
    index: usize,
    peering: &PeeringInput,
) -> Result<(), NoMemory>
    ensures { OnOk result (map view list.new.items
        ≡ map view list.old.items ++ opening_json lab.now.input lab.now.sessions (index, peering.now)) }
{
    let holder = router_name(&lab.input, peering.at.0);
    let remote = peering.name.as_str();
    match session_at(lab, index) {
        Some(session) => push_opening(list, alloc, holder, remote, session),
        None => Ok(()),
    }
}

/// Adds the OPENs with which the sessions begin.
fn push_openings(list: &mut Vec<Value>, alloc: Global, lab: &Lab) -> Result<(), NoMemory>
    ensures { OnOk result (map view list.new.items ≡ map view list.old.items
        ++ flat_map (opening_json lab.now.input lab.now.sessions) (enumerate_from 0 lab.now.input.peerings)) }
{
    let peerings = lab.input.peerings.as_slice();
    for (index, peering) in peerings.iter().enumerate() {
        push_peering_opening(list, alloc, lab, index, peering)?;
    }
    Ok(())
}

/// Adds what happened in a round.
fn push_round(
    list: &mut Vec<Value>,
    alloc: Global,
    lab: &Lab,
    outlines: &[Outline],
    here: &[Happening],
) -> Result<(), NoMemory>
    requires { outlines.now ≡ outlines_of lab.now }
    ensures { OnOk result (map view list.new.items ≡ map view list.old.items ++ flat_map (happening_json lab.now) here.now) }
{
    for happening in here {
        push_happening(list, alloc, lab, outlines, happening)?;
    }
    Ok(())
}

/// Adds what happened in these rounds.
fn push_each_round(
    list: &mut Vec<Value>,
    alloc: Global,
    lab: &Lab,
    outlines: &[Outline],
    rounds: &[Happenings],
) -> Result<(), NoMemory>
    requires { outlines.now ≡ outlines_of lab.now }
    ensures { OnOk result (map view list.new.items
        ≡ map view list.old.items ++ flat_map (flat_map (happening_json lab.now)) rounds.now) }
{
    for here in rounds {
        push_round(list, alloc, lab, outlines, here.as_slice())?;
    }
    Ok(())
}

/// Adds what happened in all rounds.
fn push_rounds(
    list: &mut Vec<Value>,
    alloc: Global,
    lab: &Lab,
    outlines: &[Outline],
    all: &[Happening],
) -> Result<(), NoMemory>
    requires { outlines.now ≡ outlines_of lab.now }
    ensures { OnOk result (map view list.new.items ≡ map view list.old.items
        ++ flat_map (λ m. flat_map (happening_json lab.now) (in_round m.0 all.now)) (enumerate_from 0 lab.now.marks)) }
{
    let rounds = by_rounds(alloc, lab.marks.len(), all)?;
    push_each_round(list, alloc, lab, outlines, rounds.as_slice())
}

/// The OPENs of all sessions, and what happened in all rounds.
pub(crate) fn events_value(
    alloc: Global,
    lab: &Lab,
    outlines: &[Outline],
    all: &[Happening],
) -> Result<Value, NoMemory>
    requires { outlines.now ≡ outlines_of lab.now }
    ensures { IfOk result (λ v. view v ≡ events_json lab.now all.now) }
{
    let mut list = Vec::new(alloc);
    push_openings(&mut list, alloc, lab)?;
    push_rounds(&mut list, alloc, lab, outlines, all)?;
    Ok(Value::Array(list))
}

// ---- prefixes that were decided, told and heard

/// What a router decided, told and heard in a round.
fn counts_value(
    alloc: Global,
    round: usize,
    name: &str,
    decided: usize,
    told: usize,
    heard: usize,
) -> Result<Value, NoMemory>
    ensures { IfOk result (λ v. view v ≡ some_counts round name.now decided told heard) }
{
    let mut map = Map::new(alloc);
    put(&mut map, alloc, "decided", Value::from(decided))?;
    put(&mut map, alloc, "heard", Value::from(heard))?;
    put(&mut map, alloc, "round", Value::from(round))?;
    put_text(&mut map, alloc, "router", name)?;
    put(&mut map, alloc, "told", Value::from(told))?;
    Ok(Value::Object(map))
}

/// Adds what a router decided, told and heard in a round, if there was something.
fn push_counts(
    list: &mut Vec<Value>,
    alloc: Global,
    round: usize,
    name: &str,
    decided: usize,
    told: usize,
    heard: usize,
) -> Result<(), NoMemory>
    ensures { OnOk result (map view list.new.items ≡ map view list.old.items ++ counts_json round name.now decided told heard) }
{
    if decided == 0 && told == 0 && heard == 0 {
        return Ok(());
    }
    push_value(
        list,
        counts_value(alloc, round, name, decided, told, heard)?,
    )?;
    Ok(())
}

/// Adds what a router did with prefixes in a round.
fn push_router(
    list: &mut Vec<Value>,
    alloc: Global,
    round: usize,
    here: &[Happening],
    index: usize,
    router: &RouterInput,
) -> Result<(), NoMemory>
    ensures { OnOk result (map view list.new.items ≡ map view list.old.items ++ router_counts round here.now (index, router.now)) }
{
    let name = router.name.as_str();
    let decided = decided_at(index, here);
    let told = told_at(index, here);
    let heard = heard_at(index, here);
    push_counts(list, alloc, round, name, decided, told, heard)
}

/// Adds what each router did with prefixes in a round.
fn push_routers(
    list: &mut Vec<Value>,
    alloc: Global,
    round: usize,
    here: &[Happening],
    routers: &[RouterInput],
) -> Result<(), NoMemory>
    ensures { OnOk result (map view list.new.items
        ≡ map view list.old.items ++ flat_map (router_counts round here.now) (enumerate_from 0 routers.now)) }
{
    for (index, router) in routers.iter().enumerate() {
        push_router(list, alloc, round, here, index, router)?;
    }
    Ok(())
}

/// Adds what each router did with prefixes in these rounds.
fn push_each_table(
    list: &mut Vec<Value>,
    alloc: Global,
    rounds: &[Happenings],
    routers: &[RouterInput],
) -> Result<(), NoMemory>
    ensures { OnOk result (map view list.new.items ≡ map view list.old.items
        ++ flat_map (λ m. flat_map (router_counts m.0 m.1) (enumerate_from 0 routers.now)) (enumerate_from 0 rounds.now)) }
{
    for (round, here) in rounds.iter().enumerate() {
        push_routers(list, alloc, round, here.as_slice(), routers)?;
    }
    Ok(())
}

/// Adds what each router did with prefixes in all rounds.
fn push_tables(
    list: &mut Vec<Value>,
    alloc: Global,
    lab: &Lab,
    all: &[Happening],
) -> Result<(), NoMemory>
    ensures { OnOk result (map view list.new.items ≡ map view list.old.items
        ++ flat_map (λ m. flat_map (router_counts m.0 (in_round m.0 all.now)) (enumerate_from 0 lab.now.input.routers)) (enumerate_from 0 lab.now.marks)) }
{
    let routers = lab.input.routers.as_slice();
    let rounds = by_rounds(alloc, lab.marks.len(), all)?;
    push_each_table(list, alloc, rounds.as_slice(), routers)
}

/// What each router did with prefixes in all rounds.
pub(crate) fn tables_value(alloc: Global, lab: &Lab, all: &[Happening]) -> Result<Value, NoMemory>
    ensures { IfOk result (λ v. view v ≡ tables_json lab.now all.now) }
{
    let mut list = Vec::new(alloc);
    push_tables(&mut list, alloc, lab, all)?;
    Ok(Value::Array(list))
}
