//! Whether an input is the laboratory of imported sessions.

ghost use Rattle.std.specs.Prelude.{◌≡◌, ◌≢◌, ◌==◌, [], ◌∷◌, ◌++◌, codes, map, position, None, MatchBool, IfOk};
ghost use Rattle.lab_tables.specs.declared.input.Step.TheVariants.{Settle};
ghost use Rattle.lab_import.specs.Texts.{first_id as first_id_lem, second_id as second_id_lem, peering_name};
ghost use Rattle.lab_import.specs.Inputs.{input_of_import, number_of as number_of_lem, peering_of, router_of, step_of};
ghost use Rattle.lab_import.specs.Inputs.{HasEnds, HasDefaults, HasOpens, HasNothingElse};

use crate::limits::is_of;
use crate::tables::{first_id, second_id};
use graft_edge::NoMemory;
use imported_sessions::{Imported, ImportedPeering, Said};
use lab_input::{LabInput, PeeringInput, RouterInput, Step};
use std::alloc::Global;

/// Whether a router has this name and this identifier, and nothing but room for all sessions.
fn same_router(router: &RouterInput, name: &str, id: u32) -> bool
    ensures { MatchBool result (router.now ≡ router_of name.now id) (router.now ≢ router_of name.now id) }
{
    router.name.as_str() == name
        && router.id == id
        && router.sessions == 32
        && !router.by_bytes
        && router.networks.is_empty()
        && router.policies.is_empty()
}

/// Whether these are the two routers.
fn same_routers(routers: &[RouterInput], imported: &Imported) -> bool
    ensures { let two = router_of (codes "r1") (first_id_lem imported.now) ∷ router_of (codes "r2") (second_id_lem imported.now) ∷ [] in
        MatchBool result (routers.now ≡ two) (routers.now ≢ two) }
{
    let [first, second] = routers else {
        return false;
    };
    same_router(first, "r1", first_id(imported)) && same_router(second, "r2", second_id(imported))
}

/// Whether a peering has this name.
fn same_name(alloc: Global, name: &str, peer: usize) -> Result<bool, NoMemory>
    ensures { IfOk result (λ same. MatchBool same (name.now ≡ peering_name peer) (name.now ≢ peering_name peer)) }
{
    let number = (peer as u64).checked_add(1).ok_or(NoMemory)?;
    let wanted = format!(in alloc; "p{number}")?;
    Ok(name == wanted.as_str())
}

/// Whether the ends of a peering are these.
fn same_ends(peering: &PeeringInput, ends: &ImportedPeering) -> bool
    ensures { MatchBool result (HasEnds peering.now ends.now) (¬ HasEnds peering.now ends.now) }
{
    peering.at.0 == 0
        && peering.remote_as == ends.remote_as
        && peering.remote_address == ends.remote_address
        && peering.local_address == ends.local_address
        && peering.remote_id == ends.remote_id
}

/// Whether a peering has no policies, and the numbers of a peering for which none are given.
fn same_defaults(peering: &PeeringInput) -> bool
    ensures { MatchBool result (HasDefaults peering.now) (¬ HasDefaults peering.now) }
{
    peering.import.is_none()
        && peering.export.is_none()
        && peering.home_seq == 1000
        && peering.remote_seq == 5000
        && !peering.beats
}

/// Whether the sides of a peering say this at first.
fn same_opens(peering: &PeeringInput, opens: &ImportedPeering) -> bool
    ensures { MatchBool result (HasOpens peering.now opens.now) (¬ HasOpens peering.now opens.now) }
{
    peering.hold == opens.hold
        && peering.opening == opens.opening
        && peering.as4 == opens.as4
        && peering.remote_as4 == opens.remote_as4
        && peering.home_hold == opens.home_hold
        && peering.unicast == opens.unicast
}

/// Whether a peering is this one.
fn same_peering(
    alloc: Global,
    peering: &PeeringInput,
    imported: &ImportedPeering,
) -> Result<bool, NoMemory>
    ensures { IfOk result (λ same. MatchBool same (peering.now ≡ peering_of imported.now) (peering.now ≢ peering_of imported.now)) }
{
    let named = same_name(alloc, peering.name.as_str(), imported.peer)?;
    Ok(
        named
            && same_ends(peering, imported)
            && same_defaults(peering)
            && same_opens(peering, imported),
    )
}

/// Whether the peerings are these.
fn same_peerings(
    alloc: Global,
    peerings: &[PeeringInput],
    imported: &[ImportedPeering],
) -> Result<bool, NoMemory>
    ensures { IfOk result (λ same. MatchBool same (peerings.now ≡ map peering_of imported.now) (peerings.now ≢ map peering_of imported.now)) }
{
    if peerings.len() != imported.len() {
        return Ok(false);
    }
    for k in 0..imported.len() {
        if !same_peering(alloc, &peerings[k], &imported[k])? {
            return Ok(false);
        }
    }
    Ok(true)
}

/// Returns the number of a connection's peering, if it has one.
fn position_of(peerings: &[ImportedPeering], peer: usize) -> Option<usize>
    ensures { result ≡ position (λ p. p.peer == peer) peerings.now }
{
    peerings.iter().position(|peering| is_of(peer, peering))
}

/// Returns the number of a connection's peering.
fn number_of(peerings: &[ImportedPeering], peer: usize) -> usize
    ensures { result ≡ number_of_lem peerings.now peer }
{
    position_of(peerings, peer).unwrap_or(0)
}

/// Whether a step says this.
fn same_step(step: &Step, peerings: &[ImportedPeering], said: &Said) -> bool
    ensures { MatchBool result (step.now ≡ step_of peerings.now said.now) (step.now ≢ step_of peerings.now said.now) }
{
    match step {
        Step::Raw { peering, bytes } => {
            usize::from(peering.0) == number_of(peerings, said.peer) && *bytes == said.octets
        }
        _ => false,
    }
}

/// Whether the steps are these.
fn same_steps(steps: &[Step], peerings: &[ImportedPeering], said: &[Said]) -> bool
    ensures { MatchBool result (steps.now ≡ map (step_of peerings.now) said.now) (steps.now ≢ map (step_of peerings.now) said.now) }
{
    if steps.len() != said.len() {
        return false;
    }
    for k in 0..said.len() {
        if !same_step(&steps[k], peerings, &said[k]) {
            return false;
        }
    }
    true
}

/// Whether a step is a settle without numbers.
fn is_plain_settle(step: &Step) -> bool
    ensures { MatchBool result (step.now ≡ Settle None 0) (step.now ≢ Settle None 0) }
{
    matches!(
        step,
        Step::Settle {
            rounds: None,
            least: 0
        }
    )
}

/// Whether the steps are these and a settle.
fn same_script(steps: &[Step], imported: &Imported) -> bool
    ensures { let script = map (step_of imported.now.peerings) imported.now.steps ++ Settle None 0 ∷ [] in
        MatchBool result (steps.now ≡ script) (steps.now ≢ script) }
{
    let Some((last, said)) = steps.split_last() else {
        return false;
    };
    is_plain_settle(last) && same_steps(said, &imported.peerings, &imported.steps)
}

/// Whether an input has no costs, faults, addresses to be traced, and expectations.
fn nothing_else(lab: &LabInput) -> bool
    ensures { MatchBool result (HasNothingElse lab.now) (¬ HasNothingElse lab.now) }
{
    lab.costs.is_empty() && lab.faults.is_empty() && lab.trace.is_empty() && lab.expects.is_empty()
}

/// Whether an input is the laboratory of imported sessions.
pub(crate) fn same_input(
    alloc: Global,
    lab: &LabInput,
    imported: &Imported,
) -> Result<bool, NoMemory>
    ensures { IfOk result (λ same. MatchBool same (lab.now ≡ input_of_import imported.now) (lab.now ≢ input_of_import imported.now)) }
{
    let peerings = same_peerings(alloc, &lab.peerings, &imported.peerings)?;
    Ok(
        peerings
            && lab.home_as == imported.home_as
            && same_routers(&lab.routers, imported)
            && same_script(&lab.steps, imported)
            && nothing_else(lab),
    )
}
