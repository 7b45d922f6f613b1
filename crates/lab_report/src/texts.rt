//! The words and lines of a report.

ghost use Rattle.std.specs.Prelude.{◌≡◌, ◌++◌, OnOk, string_bytes, codes, decimal, slice_get};
ghost use Rattle.std.specs.List.{flat_map, enumerate_from};
ghost use Rattle.lab_report.specs.Report.{ases_text, part_text, path_text, from_text, router_name, peering_name, best_line, router_lines};
ghost use Rattle.lab_report.specs.Report.{peering_line, named_line, table_lines, place_words, session_words, place_text, state_text, end_words};
ghost use Rattle.lab_report.specs.Report.{end_line, named_text, refusal_text, outcome_text, stage_text, source_text, graft_line};

use crate::lab::{BestEntry, Place, RouterTable, RunEnd, SessionView};
use bgp_types::{AsList, AsPath, From, NoMemory, PathPart, SessionState};
use graft_edge::RouterId;
use graft_steps::{GraftEntry, GraftStage, Outcome, Refusal};
use lab_tables::{LabInput, PeeringInput, RouterInput};
use std::fmt::Write;

/// Returns the name of the router of a number, or a dash.
pub fn router_name(input: &LabInput, index: u8) -> &str
    ensures { result.now ≡ router_name input.now index }
{
    match input.routers.get(usize::from(index)) {
        Some(router) => router.name.as_str(),
        None => "-",
    }
}

/// Returns the name of the peering of a number, or a dash.
pub fn peering_name(input: &LabInput, index: u8) -> &str
    ensures { result.now ≡ peering_name input.now index }
{
    match input.peerings.get(usize::from(index)) {
        Some(peering) => peering.name.as_str(),
        None => "-",
    }
}

/// Further ASes, each behind a comma.
fn push_further_ases(text: &mut String, ases: &[u32]) -> Result<(), NoMemory>
    ensures { OnOk result (string_bytes text.new ≡ string_bytes text.old ++ flat_map (λ a. codes "," ++ decimal a) ases.now) }
{
    for as_number in ases {
        text.push_str(",")?;
        write!(text, "{as_number}")?;
    }
    Ok(())
}

/// ASes joined by commas.
fn push_ases(text: &mut String, ases: &AsList) -> Result<(), NoMemory>
    ensures { OnOk result (string_bytes text.new ≡ string_bytes text.old ++ ases_text ases.now) }
{
    let Some((first, further)) = ases.split_first() else {
        return Ok(());
    };
    write!(text, "{first}")?;
    push_further_ases(text, further)
}

/// A part: a set stands within braces.
fn push_part(text: &mut String, part: &PathPart) -> Result<(), NoMemory>
    ensures { OnOk result (string_bytes text.new ≡ string_bytes text.old ++ part_text part.now) }
{
    match part {
        PathPart::Sequence(ases) => push_ases(text, ases),
        PathPart::Set(ases) => {
            text.push_str("{")?;
            push_ases(text, ases)?;
            text.push_str("}")?;
            Ok(())
        }
    }
}

/// Further parts, each behind a comma.
fn push_further_parts(text: &mut String, parts: &[PathPart]) -> Result<(), NoMemory>
    ensures { OnOk result (string_bytes text.new ≡ string_bytes text.old ++ flat_map (λ p. codes "," ++ part_text p) parts.now) }
{
    for part in parts {
        text.push_str(",")?;
        push_part(text, part)?;
    }
    Ok(())
}

/// Adds a path: a dash where it is empty, else its parts joined by commas.
pub fn push_path(text: &mut String, path: &AsPath) -> Result<(), NoMemory>
    ensures { OnOk result (string_bytes text.new ≡ string_bytes text.old ++ path_text path.now) }
{
    let Some((first, further)) = path.split_first() else {
        text.push_str("-")?;
        return Ok(());
    };
    push_part(text, first)?;
    push_further_parts(text, further)
}

/// Adds where a route comes from.
pub fn push_from(text: &mut String, input: &LabInput, from: From) -> Result<(), NoMemory>
    ensures { OnOk result (string_bytes text.new ≡ string_bytes text.old ++ from_text input.now from) }
{
    match from {
        From::Own => text.push_str("own")?,
        From::Peering(peering) => {
            text.push_str("peering ")?;
            text.push_str(peering_name(input, peering.0))?;
        }
        From::Router(router) => {
            text.push_str("router ")?;
            text.push_str(router_name(input, router.0))?;
        }
    }
    Ok(())
}

/// The line of a best route.
fn push_best(text: &mut String, input: &LabInput, best: &BestEntry) -> Result<(), NoMemory>
    ensures { OnOk result (string_bytes text.new ≡ string_bytes text.old ++ best_line input.now best.now) }
{
    let prefix = best.prefix;
    let pref = best.route.pref;
    write!(text, "best {prefix} ")?;
    push_from(text, input, best.from)?;
    write!(text, " pref {pref} path ")?;
    push_path(text, &best.route.attrs.path)?;
    text.push_str("\n")?;
    Ok(())
}

/// The lines of a router's best routes.
fn push_table(text: &mut String, input: &LabInput, table: &RouterTable) -> Result<(), NoMemory>
    ensures { OnOk result (string_bytes text.new ≡ string_bytes text.old ++ flat_map (best_line input.now) table.now.best) }
{
    for entry in &table.best {
        push_best(text, input, entry)?;
    }
    Ok(())
}

/// The line of a router's name.
fn push_name(text: &mut String, name: &str) -> Result<(), NoMemory>
    ensures { OnOk result (string_bytes text.new ≡ string_bytes text.old ++ named_line name.now) }
{
    text.push_str("router ")?;
    text.push_str(name)?;
    text.push_str("\n")?;
    Ok(())
}

/// The lines of the best routes of the router at an index.
fn push_table_at(
    text: &mut String,
    input: &LabInput,
    tables: &[RouterTable],
    index: usize,
) -> Result<(), NoMemory>
    ensures { OnOk result (string_bytes text.new ≡ string_bytes text.old ++ table_lines input.now (slice_get tables.now index)) }
{
    match tables.get(index) {
        Some(table) => push_table(text, input, table),
        None => Ok(()),
    }
}

/// A router's name, and then its best routes.
fn push_router(
    text: &mut String,
    input: &LabInput,
    tables: &[RouterTable],
    index: usize,
    router: &RouterInput,
) -> Result<(), NoMemory>
    ensures { OnOk result (string_bytes text.new ≡ string_bytes text.old ++ router_lines input.now tables.now (index, router.now)) }
{
    push_name(text, router.name.as_str())?;
    push_table_at(text, input, tables, index)
}

/// The routers, in the order of the input, each with its best routes.
pub fn push_routers(
    text: &mut String,
    input: &LabInput,
    tables: &[RouterTable],
) -> Result<(), NoMemory>
    ensures { OnOk result (string_bytes text.new ≡ string_bytes text.old ++ flat_map (router_lines input.now tables.now) (enumerate_from 0 input.now.routers)) }
{
    let routers = input.routers.as_slice();
    for (index, router) in routers.iter().enumerate() {
        push_router(text, input, tables, index, router)?;
    }
    Ok(())
}

/// Returns the name of a state (RFC 4271, section 8.2.2).
pub fn state_name(state: SessionState) -> &'static str
    ensures { result.now ≡ state_text state }
{
    match state {
        SessionState::OpenSent => "OpenSent",
        SessionState::OpenConfirm => "OpenConfirm",
        SessionState::Established => "Established",
        SessionState::Closed => "Closed",
    }
}

/// Where a session is.
fn push_where(text: &mut String, input: &LabInput, place: Option<Place>) -> Result<(), NoMemory>
    ensures { OnOk result (string_bytes text.new ≡ string_bytes text.old ++ place_text input.now place) }
{
    match place {
        Some(Place::Held(router)) => {
            text.push_str("at ")?;
            text.push_str(router_name(input, router.0))?;
        }
        Some(Place::Moving) => text.push_str("moving")?,
        None => text.push_str("at -")?,
    }
    Ok(())
}

/// Adds a peering's name and where its session is.
pub fn push_place(
    text: &mut String,
    input: &LabInput,
    name: &str,
    place: Option<Place>,
) -> Result<(), NoMemory>
    ensures { OnOk result (string_bytes text.new ≡ string_bytes text.old ++ place_words name.now (place_text input.now place)) }
{
    text.push_str("peering ")?;
    text.push_str(name)?;
    text.push_str(" ")?;
    push_where(text, input, place)
}

/// A session's state, and how many prefixes were heard and told on it.
fn push_session(text: &mut String, view: &SessionView) -> Result<(), NoMemory>
    ensures { OnOk result (string_bytes text.new ≡ string_bytes text.old ++ session_words view.now) }
{
    let heard = view.heard;
    let told = view.told;
    text.push_str(" state ")?;
    text.push_str(state_name(view.story.state()))?;
    write!(text, " heard {heard} told {told}\n")?;
    Ok(())
}

/// The line of a peering that has a session.
fn push_view(
    text: &mut String,
    input: &LabInput,
    name: &str,
    place: Option<Place>,
    view: &SessionView,
) -> Result<(), NoMemory>
    ensures { OnOk result (string_bytes text.new ≡ string_bytes text.old ++ (place_words name.now (place_text input.now place) ++ session_words view.now)) }
{
    push_place(text, input, name, place)?;
    push_session(text, view)
}

/// Returns the place of a session, by the number of its peering.
pub fn place_at(placement: &[Place], index: usize) -> Option<Place>
    ensures { result ≡ slice_get placement.now index }
{
    placement.get(index).copied()
}

/// The line of a peering, where it has a session.
fn push_peering(
    text: &mut String,
    input: &LabInput,
    sessions: &[SessionView],
    placement: &[Place],
    index: usize,
    peering: &PeeringInput,
) -> Result<(), NoMemory>
    ensures { OnOk result (string_bytes text.new ≡ string_bytes text.old ++ peering_line input.now sessions.now placement.now (index, peering.now)) }
{
    let name = peering.name.as_str();
    let at = place_at(placement, index);
    match sessions.get(index) {
        Some(view) => push_view(text, input, name, at, view),
        None => Ok(()),
    }
}

/// The peerings, in the order of the input, each with the place and the tables of its session.
pub fn push_peerings(
    text: &mut String,
    input: &LabInput,
    sessions: &[SessionView],
    placement: &[Place],
) -> Result<(), NoMemory>
    ensures { OnOk result
        (string_bytes text.new ≡ string_bytes text.old ++ flat_map (peering_line input.now sessions.now placement.now) (enumerate_from 0 input.now.peerings)) }
{
    let peerings = input.peerings.as_slice();
    for (index, peering) in peerings.iter().enumerate() {
        push_peering(text, input, sessions, placement, index, peering)?;
    }
    Ok(())
}

/// How the run ended.
fn push_end_words(text: &mut String, input: &LabInput, end: RunEnd) -> Result<(), NoMemory>
    ensures { OnOk result (string_bytes text.new ≡ string_bytes text.old ++ end_words input.now end) }
{
    match end {
        RunEnd::Settled => text.push_str("settled")?,
        RunEnd::Unsettled { step, rounds, .. } => {
            write!(text, "unsettled step {step} rounds {rounds}")?;
        }
        RunEnd::StreamFull { peering, length } => {
            text.push_str("stream-full peering ")?;
            text.push_str(peering_name(input, peering.0))?;
            write!(text, " length {length}")?;
        }
        RunEnd::JournalFull { events } => write!(text, "journal-full events {events}")?,
    }
    Ok(())
}

/// The line of how the run ended.
pub fn push_end(text: &mut String, input: &LabInput, end: RunEnd) -> Result<(), NoMemory>
    ensures { OnOk result (string_bytes text.new ≡ string_bytes text.old ++ end_line input.now end) }
{
    text.push_str("result ")?;
    push_end_words(text, input, end)?;
    text.push_str("\n")?;
    Ok(())
}

/// A name, with a text in brackets.
fn push_named(text: &mut String, name: &str, inner: &str) -> Result<(), NoMemory>
    ensures { OnOk result (string_bytes text.new ≡ string_bytes text.old ++ named_text name.now inner.now) }
{
    text.push_str(name)?;
    text.push_str("(")?;
    text.push_str(inner)?;
    text.push_str(")")?;
    Ok(())
}

/// A name, with a number in brackets.
fn push_counted(text: &mut String, name: &str, count: u32) -> Result<(), NoMemory>
    ensures { OnOk result (string_bytes text.new ≡ string_bytes text.old ++ named_text name.now (decimal count)) }
{
    text.push_str(name)?;
    text.push_str("(")?;
    write!(text, "{count}")?;
    text.push_str(")")?;
    Ok(())
}

/// Adds why a graft was refused.
pub fn push_refusal(text: &mut String, refusal: &Refusal) -> Result<(), NoMemory>
    ensures { OnOk result (string_bytes text.new ≡ string_bytes text.old ++ refusal_text refusal.now) }
{
    match refusal {
        Refusal::SameRouter => {
            text.push_str("SameRouter")?;
            Ok(())
        }
        Refusal::NotEstablished(state) => push_named(text, "NotEstablished", state_name(*state)),
        Refusal::HoldTooShort(hold) => push_counted(text, "HoldTooShort", *hold),
        Refusal::RouterFull(room) => push_counted(text, "RouterFull", *room),
        Refusal::PolicyMissing(name) => push_named(text, "PolicyMissing", name.as_str()),
        Refusal::NoTarget => {
            text.push_str("NoTarget")?;
            Ok(())
        }
    }
}

/// How a graft ended.
fn push_outcome(text: &mut String, outcome: &Outcome) -> Result<(), NoMemory>
    ensures { OnOk result (string_bytes text.new ≡ string_bytes text.old ++ outcome_text outcome.now) }
{
    match outcome {
        Outcome::Accepted => text.push_str("accepted")?,
        Outcome::Refused(refusal) => {
            text.push_str("refused ")?;
            push_refusal(text, refusal)?;
        }
    }
    Ok(())
}

/// Adds how far a graft is.
pub fn push_stage(text: &mut String, stage: &GraftStage) -> Result<(), NoMemory>
    ensures { OnOk result (string_bytes text.new ≡ string_bytes text.old ++ stage_text stage.now) }
{
    match stage {
        GraftStage::Waiting => text.push_str("waiting")?,
        GraftStage::Issued => text.push_str("open")?,
        GraftStage::Ended(outcome) => push_outcome(text, outcome)?,
    }
    Ok(())
}

/// Returns the name of the router at which a graft was ordered, or a dash where it wasn't.
pub fn source_name(input: &LabInput, source: Option<RouterId>) -> &str
    ensures { result.now ≡ source_text input.now source }
{
    match source {
        Some(router) => router_name(input, router.0),
        None => "-",
    }
}

/// Adds the line of a graft.
pub fn push_graft(text: &mut String, input: &LabInput, entry: &GraftEntry) -> Result<(), NoMemory>
    ensures { OnOk result (string_bytes text.new ≡ string_bytes text.old ++ graft_line input.now entry.now) }
{
    let graft = entry.graft;
    write!(text, "graft {graft} ")?;
    text.push_str(peering_name(input, entry.peering.0))?;
    text.push_str(" ")?;
    text.push_str(source_name(input, entry.source))?;
    text.push_str(" ")?;
    text.push_str(router_name(input, entry.target.0))?;
    text.push_str(" ")?;
    push_stage(text, &entry.stage)?;
    text.push_str("\n")?;
    Ok(())
}

/// The grafts, in the order of the log.
pub fn push_log(text: &mut String, input: &LabInput, log: &[GraftEntry]) -> Result<(), NoMemory>
    ensures { OnOk result (string_bytes text.new ≡ string_bytes text.old ++ flat_map (graft_line input.now) log.now) }
{
    for entry in log {
        push_graft(text, input, entry)?;
    }
    Ok(())
}
