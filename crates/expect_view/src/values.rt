//! What an expectation wants, and what the run came to, each as the report writes it.

ghost use Rattle.std.specs.Prelude.{◌≡◌, ◌++◌, find, option_copied, slice_get, OnOk, string_bytes};
ghost use Rattle.bgp_types.specs.Prefixes.{same_prefix};
ghost use Rattle.expect_view.specs.Expect.{stage_of as stage_of_lem, source_of as source_of_lem, stage_value, place_value, session_value};
ghost use Rattle.expect_view.specs.Expect.{source_value, wanted_value, got_value, is_held_by as is_held_by_lem, is_got as is_got_lem, key_text};

use bgp_types::{From, Prefix};
use graft_edge::{NoMemory, PeeringId, RouterId};
use graft_steps::{GraftEntry, GraftStage};
use lab_report::{
    BestEntry, Lab, Place, RouterTable, SessionView, place_at, push_from, push_stage, router_name,
    state_name,
};
use lab_tables::{ExpectedValue, LabInput};
use std::fmt::Write;

/// Returns the key under which a value is wanted.
pub fn key_name(wanted: &ExpectedValue) -> &'static str
    ensures { result.now ≡ key_text wanted.now }
{
    match wanted {
        ExpectedValue::Outcome { .. } => "outcome",
        ExpectedValue::At { .. } => "at",
        ExpectedValue::State { .. } => "state",
        ExpectedValue::Heard { .. } => "heard",
        ExpectedValue::Told { .. } => "told",
        ExpectedValue::Best { .. } => "best",
    }
}

// ---- what is read off a run

/// The entry of a graft in the log.
fn entry_of(log: &[GraftEntry], graft: u32) -> Option<&GraftEntry>
    ensures { option_copied result ≡ find (λ g. g.graft == graft) log.now }
{
    log.iter().find(|entry| entry.graft == graft)
}

/// How far the graft of a number is.
fn stage_of(log: &[GraftEntry], graft: u32) -> Option<&GraftStage>
    ensures { option_copied result ≡ stage_of_lem log.now graft }
{
    match entry_of(log, graft) {
        Some(entry) => Some(&entry.stage),
        None => None,
    }
}

/// The session of a peering.
fn view_of(lab: &Lab, peering: PeeringId) -> Option<&SessionView>
    ensures { option_copied result ≡ slice_get lab.now.sessions peering.0 }
{
    lab.sessions.get(usize::from(peering.0))
}

/// Whether a best route is one to this prefix.
fn is_to(prefix: Prefix, best: &BestEntry) -> bool
    ensures { result ≡ same_prefix prefix best.now.prefix }
{
    prefix == best.prefix
}

/// The best route to a prefix.
fn best_to(best: &[BestEntry], prefix: Prefix) -> Option<&BestEntry>
    ensures { option_copied result ≡ find (λ b. same_prefix prefix b.prefix) best.now }
{
    best.iter().find(|entry| is_to(prefix, entry))
}

/// Where the best route to a prefix comes from.
fn source_in(table: &RouterTable, prefix: Prefix) -> Option<From>
    ensures { result ≡ source_of_lem (Some table.now) prefix }
{
    match best_to(table.best.as_slice(), prefix) {
        Some(best) => Some(best.from),
        None => None,
    }
}

/// Where a router's best route to a prefix comes from.
fn source_of(lab: &Lab, router: RouterId, prefix: Prefix) -> Option<From>
    ensures { result ≡ source_of_lem (slice_get lab.now.tables router.0) prefix }
{
    match lab.tables.get(usize::from(router.0)) {
        Some(table) => source_in(table, prefix),
        None => None,
    }
}

// ---- values

/// Adds how far a graft is.
fn push_stage_value(text: &mut String, stage: Option<&GraftStage>) -> Result<(), NoMemory>
    ensures { OnOk result (string_bytes text.new ≡ string_bytes text.old ++ stage_value (option_copied stage.entry)) }
{
    match stage {
        Some(stage) => push_stage(text, stage)?,
        None => text.push_str("none")?,
    }
    Ok(())
}

/// Adds the router that holds a session, or that it is on its way.
fn push_place_value(
    text: &mut String,
    input: &LabInput,
    place: Option<Place>,
) -> Result<(), NoMemory>
    ensures { OnOk result (string_bytes text.new ≡ string_bytes text.old ++ place_value input.now place) }
{
    match place {
        Some(Place::Held(router)) => text.push_str(router_name(input, router.0))?,
        Some(Place::Moving) => text.push_str("moving")?,
        None => text.push_str("none")?,
    }
    Ok(())
}

/// Adds the state of a session.
fn push_state_value(text: &mut String, view: Option<&SessionView>) -> Result<(), NoMemory>
    ensures { OnOk result
        (string_bytes text.new ≡ string_bytes text.old ++ session_value (λ view. state_text (state_of view.story.lines)) (option_copied view.entry)) }
{
    match view {
        Some(view) => text.push_str(state_name(view.story.state()))?,
        None => text.push_str("none")?,
    }
    Ok(())
}

/// Adds how many prefixes were heard on a session.
fn push_heard_value(text: &mut String, view: Option<&SessionView>) -> Result<(), NoMemory>
    ensures { OnOk result (string_bytes text.new ≡ string_bytes text.old ++ session_value (λ view. decimal view.heard) (option_copied view.entry)) }
{
    match view {
        Some(view) => {
            let heard = view.heard;
            write!(text, "{heard}")?;
        }
        None => text.push_str("none")?,
    }
    Ok(())
}

/// Adds how many prefixes were told on a session.
fn push_told_value(text: &mut String, view: Option<&SessionView>) -> Result<(), NoMemory>
    ensures { OnOk result (string_bytes text.new ≡ string_bytes text.old ++ session_value (λ view. decimal view.told) (option_copied view.entry)) }
{
    match view {
        Some(view) => {
            let told = view.told;
            write!(text, "{told}")?;
        }
        None => text.push_str("none")?,
    }
    Ok(())
}

/// Adds where a best route comes from, or that there is none.
fn push_source_value(
    text: &mut String,
    input: &LabInput,
    from: Option<From>,
) -> Result<(), NoMemory>
    ensures { OnOk result (string_bytes text.new ≡ string_bytes text.old ++ source_value input.now from) }
{
    match from {
        Some(from) => push_from(text, input, from)?,
        None => text.push_str("none")?,
    }
    Ok(())
}

/// Adds the value that is wanted.
pub fn push_wanted(
    text: &mut String,
    input: &LabInput,
    wanted: &ExpectedValue,
) -> Result<(), NoMemory>
    ensures { OnOk result (string_bytes text.new ≡ string_bytes text.old ++ wanted_value input.now wanted.now) }
{
    match wanted {
        ExpectedValue::Outcome { outcome, .. } => text.push_str(outcome.as_str())?,
        ExpectedValue::At { router, .. } => text.push_str(router_name(input, router.0))?,
        ExpectedValue::State { state, .. } => text.push_str(state_name(*state))?,
        ExpectedValue::Heard { count, .. } => write!(text, "{count}")?,
        ExpectedValue::Told { count, .. } => write!(text, "{count}")?,
        ExpectedValue::Best { from, .. } => push_source_value(text, input, *from)?,
    }
    Ok(())
}

/// Adds the value that the run has in its place.
pub fn push_got(text: &mut String, lab: &Lab, wanted: &ExpectedValue) -> Result<(), NoMemory>
    ensures { OnOk result (string_bytes text.new ≡ string_bytes text.old ++ got_value lab.now wanted.now) }
{
    match wanted {
        ExpectedValue::Outcome { graft, .. } => {
            push_stage_value(text, stage_of(lab.log.as_slice(), *graft))
        }
        ExpectedValue::At { peering, .. } => {
            let place = place_at(lab.placement.as_slice(), usize::from(peering.0));
            push_place_value(text, &lab.input, place)
        }
        ExpectedValue::State { peering, .. } => push_state_value(text, view_of(lab, *peering)),
        ExpectedValue::Heard { peering, .. } => push_heard_value(text, view_of(lab, *peering)),
        ExpectedValue::Told { peering, .. } => push_told_value(text, view_of(lab, *peering)),
        ExpectedValue::Best { router, prefix, .. } => {
            push_source_value(text, &lab.input, source_of(lab, *router, *prefix))
        }
    }
}

// ---- whether the run has the value

/// Whether this router holds a session.
fn is_held_by(router: RouterId, place: Option<Place>) -> bool
    ensures { result ≡ is_held_by_lem router.0 place }
{
    match place {
        Some(Place::Held(other)) => other.0 == router.0,
        _ => false,
    }
}

/// Returns whether the run has the value that is wanted, given how both are written. A session that is on its way is at no
/// router, also at none that is called so.
pub(crate) fn is_got(lab: &Lab, wanted: &ExpectedValue, got: &str, value: &str) -> bool
    requires got { got.now ≡ got_value lab.now wanted.now }
    requires value { value.now ≡ wanted_value lab.now.input wanted.now }
    ensures { result ≡ is_got_lem lab.now wanted.now }
{
    match wanted {
        ExpectedValue::At { peering, router } => {
            let place = place_at(lab.placement.as_slice(), usize::from(peering.0));
            is_held_by(*router, place)
        }
        _ => got == value,
    }
}

ghost use Rattle.std.specs.Prelude.{◌==◌, Some, decimal};
ghost use Rattle.bgp_story.specs.States.{state_of};
ghost use Rattle.lab_report.specs.Report.{state_text};
