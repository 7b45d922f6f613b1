//! The summary of a run.

ghost use Rattle.std.specs.Prelude.{◌≡◌, ◌++◌, IfOk, OnOk, string_bytes, length, count_by, slice_get};
ghost use Rattle.std.specs.List.{flat_map, enumerate_from};
ghost use Rattle.lab_report.specs.Report.{place_words, place_text};
ghost use Rattle.lab_report.specs.Summary.{announced_in_step, prefixes_announced, was_accepted, was_refused, counts_line, outcomes_line};
ghost use Rattle.lab_report.specs.Summary.{sizes_words, short_peering_line, best_count, short_router_line, summary_text};

use crate::lab::{Lab, Place, RouterTable, SessionView};
use crate::texts::{place_at, push_end, push_place};
use bgp_types::PrefixList;
use graft_edge::NoMemory;
use graft_steps::{GraftEntry, GraftStage, Outcome};
use lab_tables::{LabInput, PeeringInput, RouterInput, Step, each_once};
use std::alloc::Global;
use std::fmt::Write;

/// Adds the prefixes that a step announces.
fn push_announced(prefixes: &mut PrefixList, step: &Step) -> Result<(), NoMemory>
    ensures { OnOk result (prefixes.new ≡ prefixes.old ++ announced_in_step step.now) }
{
    match step {
        Step::Announce {
            prefixes: further,
            ..
        } => prefixes.extend(further),
        _ => Ok(()),
    }
}

/// The prefixes that steps announce, each as often as it is announced.
fn announced_in(alloc: Global, steps: &[Step]) -> Result<PrefixList, NoMemory>
    ensures { IfOk result (λ prefixes. prefixes ≡ flat_map announced_in_step steps.now) }
{
    let mut prefixes = PrefixList::new(alloc);
    for step in steps {
        push_announced(&mut prefixes, step)?;
    }
    Ok(prefixes)
}

/// Returns how many prefixes remotes announce by the script, each counted once.
pub fn prefix_count(alloc: Global, input: &LabInput) -> Result<usize, NoMemory>
    ensures { IfOk result (λ count. count ≡ length (prefixes_announced input.now)) }
{
    let announced = announced_in(alloc, &input.steps)?;
    let once = each_once(alloc, &announced)?;
    Ok(once.len())
}

/// The line of how many routers, peerings, prefixes and grafts there are.
fn push_counts(text: &mut String, alloc: Global, lab: &Lab) -> Result<(), NoMemory>
    ensures { OnOk result (string_bytes text.new ≡ string_bytes text.old ++ counts_line lab.now) }
{
    let routers = lab.input.routers.len();
    let peerings = lab.input.peerings.len();
    let prefixes = prefix_count(alloc, &lab.input)?;
    let grafts = lab.log.len();
    write!(text, "routers {routers} peerings {peerings}")?;
    write!(text, " prefixes {prefixes} grafts {grafts}\n")?;
    Ok(())
}

/// Whether a graft was accepted.
fn was_accepted(entry: &GraftEntry) -> bool
    ensures { result ≡ was_accepted entry.now }
{
    match &entry.stage {
        GraftStage::Ended(Outcome::Accepted) => true,
        _ => false,
    }
}

/// Whether a graft was refused.
fn was_refused(entry: &GraftEntry) -> bool
    ensures { result ≡ was_refused entry.now }
{
    match &entry.stage {
        GraftStage::Ended(Outcome::Refused(_)) => true,
        _ => false,
    }
}

/// Returns how many grafts were accepted.
pub fn accepted_in(log: &[GraftEntry]) -> usize
    ensures { result ≡ count_by was_accepted log.now }
{
    log.iter().filter(|entry| was_accepted(*entry)).count()
}

/// Returns how many grafts were refused.
pub fn refused_in(log: &[GraftEntry]) -> usize
    ensures { result ≡ count_by was_refused log.now }
{
    log.iter().filter(|entry| was_refused(*entry)).count()
}

/// The line of how many grafts were accepted and refused.
fn push_outcomes(text: &mut String, log: &[GraftEntry]) -> Result<(), NoMemory>
    ensures { OnOk result (string_bytes text.new ≡ string_bytes text.old ++ outcomes_line log.now) }
{
    let accepted = accepted_in(log);
    let refused = refused_in(log);
    write!(text, "accepted {accepted} refused {refused}\n")?;
    Ok(())
}

/// How many prefixes were heard and told on a session.
fn push_sizes(text: &mut String, view: &SessionView) -> Result<(), NoMemory>
    ensures { OnOk result (string_bytes text.new ≡ string_bytes text.old ++ sizes_words view.now) }
{
    let heard = view.heard;
    let told = view.told;
    write!(text, " heard {heard} told {told}\n")?;
    Ok(())
}

/// The line of a peering that has a session.
fn push_short_view(
    text: &mut String,
    input: &LabInput,
    name: &str,
    place: Option<Place>,
    view: &SessionView,
) -> Result<(), NoMemory>
    ensures { OnOk result (string_bytes text.new ≡ string_bytes text.old ++ (place_words name.now (place_text input.now place) ++ sizes_words view.now)) }
{
    push_place(text, input, name, place)?;
    push_sizes(text, view)
}

/// The line of a peering, where it has a session.
fn push_short_peering(
    text: &mut String,
    input: &LabInput,
    sessions: &[SessionView],
    placement: &[Place],
    index: usize,
    peering: &PeeringInput,
) -> Result<(), NoMemory>
    ensures { OnOk result (string_bytes text.new ≡ string_bytes text.old ++ short_peering_line input.now sessions.now placement.now (index, peering.now)) }
{
    let name = peering.name.as_str();
    let at = place_at(placement, index);
    match sessions.get(index) {
        Some(view) => push_short_view(text, input, name, at, view),
        None => Ok(()),
    }
}

/// The peerings, in the order of the input, each with the place and the sizes of its session.
fn push_short_peerings(
    text: &mut String,
    input: &LabInput,
    sessions: &[SessionView],
    placement: &[Place],
) -> Result<(), NoMemory>
    ensures { OnOk result (string_bytes text.new
        ≡ string_bytes text.old ++ flat_map (short_peering_line input.now sessions.now placement.now) (enumerate_from 0 input.now.peerings)) }
{
    let peerings = input.peerings.as_slice();
    for (index, peering) in peerings.iter().enumerate() {
        push_short_peering(text, input, sessions, placement, index, peering)?;
    }
    Ok(())
}

/// Returns how many best routes the router at an index has.
pub fn best_count(tables: &[RouterTable], index: usize) -> usize
    ensures { result ≡ best_count (slice_get tables.now index) }
{
    match tables.get(index) {
        Some(table) => table.best.len(),
        None => 0,
    }
}

/// Adds the line of a router: how many best routes it has.
pub fn push_short_router(
    text: &mut String,
    tables: &[RouterTable],
    index: usize,
    router: &RouterInput,
) -> Result<(), NoMemory>
    ensures { OnOk result (string_bytes text.new ≡ string_bytes text.old ++ short_router_line tables.now (index, router.now)) }
{
    let best = best_count(tables, index);
    text.push_str("router ")?;
    text.push_str(router.name.as_str())?;
    write!(text, " best {best}\n")?;
    Ok(())
}

/// The routers, in the order of the input, each with the number of its best routes.
fn push_short_routers(
    text: &mut String,
    routers: &[RouterInput],
    tables: &[RouterTable],
) -> Result<(), NoMemory>
    ensures { OnOk result (string_bytes text.new ≡ string_bytes text.old ++ flat_map (short_router_line tables.now) (enumerate_from 0 routers.now)) }
{
    for (index, router) in routers.iter().enumerate() {
        push_short_router(text, tables, index, router)?;
    }
    Ok(())
}

/// The summary of a run: how it ended, how many routers, peerings, prefixes and grafts there are, how many grafts were accepted
/// and refused, where each peering's session is, and how many best routes each router has.
pub fn summary(alloc: Global, lab: &Lab) -> Result<String, NoMemory>
    ensures { IfOk result (λ text. string_bytes text ≡ summary_text lab.now) }
{
    let mut text = String::new(alloc);
    push_end(&mut text, &lab.input, lab.end)?;
    push_counts(&mut text, alloc, lab)?;
    push_outcomes(&mut text, lab.log.as_slice())?;
    push_short_peerings(
        &mut text,
        &lab.input,
        lab.sessions.as_slice(),
        lab.placement.as_slice(),
    )?;
    push_short_routers(
        &mut text,
        lab.input.routers.as_slice(),
        lab.tables.as_slice(),
    )?;
    Ok(text)
}
