//! The routes of a session: its Adj-RIB-In and its Adj-RIB-Out, with what a router's policies make of them.

ghost use Rattle.std.specs.Prelude.{◌≡◌, ◌++◌, ℕ, List, None, Some, fold, IfOk, OnOk, string_bytes};
ghost use Rattle.std.specs.FinMap as map;
ghost use Rattle.std.specs.List.{flat_map};
ghost use Rattle.bgp_story.specs.declared.line.Line.{Line};
ghost use Rattle.bgp_story.specs.Readings.{tell as tell_lem, told as told_lem};
ghost use Rattle.lab_tables.specs.declared.input.LabInput.{LabInput};
ghost use Rattle.lab_tables.specs.declared.input.RouterInput.{RouterInput};
ghost use Rattle.why_view.specs.Sources.{import_rules};
ghost use Rattle.show_view.specs.Routes.{heard_lines};
ghost use Rattle.show_view.specs.Untold.{told_line};

use crate::routes::{AttrsEntry, push_attrs_line, push_import};
use adj_rib::AdjRib;
use bgp_story::{Line, Story};
use bgp_types::{Items, Message, NoMemory, SessionState, TryCopy};
use lab_tables::{LabInput, PeeringInput};
use route_policy::Policy;
use std::alloc::Global;

/// Returns the routes of a table, in ascending order of prefix.
pub fn entries_of(alloc: Global, routes: &AdjRib) -> Result<Items<AttrsEntry>, NoMemory>
    ensures { IfOk result (λ entries. entries ≡ map.entries routes.now) }
{
    let mut entries = Items::new(alloc);
    for prefix in routes.prefixes()?.iter() {
        if let Some(attrs) = routes.get(*prefix) {
            entries.push((*prefix, attrs.copy()?))?;
        }
    }
    Ok(entries)
}

/// Applies a line of a story to the routes that were told.
fn tell(routes: &mut AdjRib, line: &Line) -> Result<(), NoMemory>
    ensures { OnOk result (routes.new ≡ tell_lem routes.old line.now) }
{
    if let Line::Put(Message::UpdateMsg(update)) = line {
        routes.apply(update)?;
    }
    Ok(())
}

/// Returns the routes that lines of a story told.
fn told_in(alloc: Global, lines: &[Line]) -> Result<AdjRib, NoMemory>
    ensures { IfOk result (λ routes. routes ≡ fold tell_lem map.empty lines.now) }
{
    let mut routes = AdjRib::new(alloc);
    for line in lines {
        tell(&mut routes, line)?;
    }
    Ok(routes)
}

/// Returns the routes that a session told: none once it is closed.
pub fn told_on(alloc: Global, story: &Story) -> Result<AdjRib, NoMemory>
    ensures { IfOk result (λ routes. routes ≡ told_lem story.now.lines) }
{
    match story.state() {
        SessionState::Closed => Ok(AdjRib::new(alloc)),
        _ => told_in(alloc, story.lines()),
    }
}

/// Adds the lines of a route that a session heard, which no router holds.
fn push_heard_alone(
    text: &mut String,
    alloc: Global,
    peering: &PeeringInput,
    entry: &AttrsEntry,
) -> Result<(), NoMemory>
    ensures { (input : LabInput) (number : ℕ) (lines : List Line)
        → OnOk result (string_bytes text.new ≡ string_bytes text.old ++ heard_lines input None (number, peering.now) lines entry.now) }
{
    push_attrs_line(text, alloc, "heard", peering.name.as_str(), entry)
}

/// Adds the lines of the routes that a session heard, which no router holds.
pub(crate) fn push_all_heard_alone(
    text: &mut String,
    alloc: Global,
    peering: &PeeringInput,
    entries: &[AttrsEntry],
) -> Result<(), NoMemory>
    ensures { (input : LabInput) (number : ℕ) (lines : List Line)
        → OnOk result (string_bytes text.new ≡ string_bytes text.old ++ flat_map (heard_lines input None (number, peering.now) lines) entries.now) }
{
    for entry in entries {
        push_heard_alone(text, alloc, peering, entry)?;
    }
    Ok(())
}

/// Adds the lines of a route that a session heard, before and after its import policy.
fn push_heard(
    text: &mut String,
    alloc: Global,
    input: &LabInput,
    peering: &PeeringInput,
    policy: &Option<Policy>,
    entry: &AttrsEntry,
) -> Result<(), NoMemory>
    ensures { (router : ℕ × RouterInput) (number : ℕ) (lines : List Line) → policy.now ≡ import_rules router.1 peering.now.«import»
        → OnOk result (string_bytes text.new ≡ string_bytes text.old ++ heard_lines input.now (Some router) (number, peering.now) lines entry.now) }
{
    push_attrs_line(text, alloc, "heard", peering.name.as_str(), entry)?;
    push_import(text, alloc, input, peering, policy, entry)
}

/// Adds the lines of the routes that a session heard, before and after its import policy.
pub(crate) fn push_all_heard(
    text: &mut String,
    alloc: Global,
    input: &LabInput,
    peering: &PeeringInput,
    policy: &Option<Policy>,
    entries: &[AttrsEntry],
) -> Result<(), NoMemory>
    ensures { (router : ℕ × RouterInput) (number : ℕ) (lines : List Line) → policy.now ≡ import_rules router.1 peering.now.«import»
        → OnOk result (string_bytes text.new
        ≡ string_bytes text.old ++ flat_map (heard_lines input.now (Some router) (number, peering.now) lines) entries.now) }
{
    for entry in entries {
        push_heard(text, alloc, input, peering, policy, entry)?;
    }
    Ok(())
}

/// Adds the lines of the routes that were told on a session.
pub(crate) fn push_all_told(
    text: &mut String,
    alloc: Global,
    name: &str,
    entries: &[AttrsEntry],
) -> Result<(), NoMemory>
    ensures { OnOk result (string_bytes text.new ≡ string_bytes text.old ++ flat_map (told_line name.now) entries.now) }
{
    for entry in entries {
        push_attrs_line(text, alloc, "told", name, entry)?;
    }
    Ok(())
}
