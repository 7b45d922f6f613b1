//! Whether the script alone decides what becomes of its grafts.

ghost use Rattle.std.specs.Prelude.{ℕ, ◌≡◌, ◌≤◌, ◌==◌, ◌&&◌, min, false, Some, IfOk, map, take, length, slice_get, unwrap_or};
ghost use Rattle.std.specs.List.{enumerate_from, list_any, list_all};
ghost use Rattle.graft_model.specs.Setups.{keepalive_interval_of as keepalive_interval_of_lem};
ghost use Rattle.lab_tables.specs.declared.input.LabInput.{LabInput};
ghost use Rattle.lab_tables.specs.declared.input.PeeringInput.{PeeringInput};
ghost use Rattle.lab_tables.specs.Scripts.{is_settle_step};
ghost use Rattle.lab_setup.specs.Accepted.{IsAccepted};
ghost use Rattle.lab_setup.specs.Setups.{setup_of, peering_setup};
ghost use Rattle.even_inputs.specs.Timers.{has_no_timer as has_no_timer_lem, has_no_timer_on as has_no_timer_on_lem, hold_offered as hold_offered_lem};
ghost use Rattle.sure_inputs.specs.Sure.{has_room_for, is_raw_step, has_default_opening as has_default_opening_lem};
ghost use Rattle.sure_inputs.specs.Sure.{is_plain as is_plain_lem, is_sure_step as is_sure_step_lem, is_sure as is_sure_lem};
ghost use Rattle.lab_answers.specs.PlainPeerings.{plain_in};

use crate::said::{opened_by, said_over};
use graft_edge::{Items, NoMemory, PeeringId};
use lab_setup::keepalive_interval_of;
use lab_tables::{LabInput, PeeringInput, RouterInput, Step, default_opening};
use std::alloc::Global;

/// Whether a router has room for this many sessions.
fn has_room(router: &RouterInput, count: usize) -> bool
    ensures { result ≡ has_room_for count router.now }
{
    count <= router.sessions as usize
}

/// Whether each of these routers has room for this many sessions.
fn all_have_room(routers: &[RouterInput], count: usize) -> bool
    ensures { result ≡ list_all (has_room_for count) routers.now }
{
    routers.iter().all(|router| has_room(router, count))
}

/// The hold time that the OPEN at the front of what the remote of a peering says offers, 0 where no sound one stands there.
fn hold_offered(alloc: Global, peering: &PeeringInput, said: &[u8]) -> Result<u16, NoMemory>
    ensures { (input : LabInput) (p : ℕ) → IfOk result (λ hold. hold ≡ hold_offered_lem (peering_setup input (p, peering.now)) said.now) }
{
    match opened_by(alloc, peering, said)? {
        Some(open) => Ok(open.hold),
        None => Ok(0),
    }
}

/// Whether one of the hold times that both sides offer is 0, where the remote offers this one, and the remote says no KEEPALIVE by a timer.
fn needs_no_timer(peering: &PeeringInput, hold: u16) -> bool
    ensures { (input : LabInput) (p : ℕ)
        → result ≡ ((min peering.now.home_hold hold == 0) && (keepalive_interval_of_lem (peering_setup input (p, peering.now)) == 0)) }
{
    peering.home_hold.min(hold) == 0 && keepalive_interval_of(peering) == 0
}

/// Whether no timer runs on the session of a peering: one of the hold times that both sides offer is 0, and the remote says no
/// KEEPALIVE by a timer. The input is one that was accepted, and has the peering at this number.
fn has_no_timer_on(
    alloc: Global,
    input: &LabInput,
    number: PeeringId,
    peering: &PeeringInput,
) -> Result<bool, NoMemory>
    requires accepted { IsAccepted input.now }
    requires there { slice_get input.now.peerings number.0 ≡ Some peering.now }
    ensures { IfOk result (λ answer. answer ≡ has_no_timer_on_lem (setup_of input.now) (number.0, peering_setup input.now (number.0, peering.now))) }
{
    let said = said_over(alloc, input, number)?;
    let hold = hold_offered(alloc, peering, &said)?;
    Ok(needs_no_timer(peering, hold))
}

/// Whether no timer runs on any session. The input is one that was accepted.
fn has_no_timer(alloc: Global, input: &LabInput) -> Result<bool, NoMemory>
    requires { IsAccepted input.now }
    ensures { IfOk result (λ answer. answer ≡ has_no_timer_lem (setup_of input.now)) }
{
    for (i, peering) in input.peerings.iter().enumerate() {
        if !has_no_timer_on(alloc, input, PeeringId(i as u8), peering)? {
            return Ok(false);
        }
    }
    Ok(true)
}

/// Whether a step has the remote of this peering say octets that it names.
fn is_raw_of(peering: PeeringId, step: &Step) -> bool
    ensures { result ≡ is_raw_step peering.0 step.now }
{
    match step {
        Step::Raw { peering: of, .. } => *of == peering,
        _ => false,
    }
}

/// Whether some step has the remote of this peering say octets that it names.
fn any_raw(peering: PeeringId, steps: &[Step]) -> bool
    ensures { result ≡ list_any (is_raw_step peering.0) steps.now }
{
    steps.iter().any(|step| is_raw_of(peering, step))
}

/// Whether the remote of a peering begins with the OPEN of its own values and a KEEPALIVE.
fn has_default_opening(alloc: Global, peering: &PeeringInput) -> Result<bool, NoMemory>
    ensures { IfOk result (λ answer. answer ≡ has_default_opening_lem peering.now) }
{
    let opening = default_opening(
        alloc,
        peering.remote_as,
        peering.hold,
        peering.remote_id,
        peering.remote_as4,
    )?;
    Ok(peering.opening == opening)
}

/// Whether the remote of the peering of this number says its default opening, and else only what announce and withdraw steps have it say.
fn says_plainly(
    alloc: Global,
    number: PeeringId,
    peering: &PeeringInput,
    steps: &[Step],
) -> Result<bool, NoMemory>
    ensures { IfOk result (λ answer. answer ≡ is_plain_lem steps.now number.0 (Some peering.now)) }
{
    Ok(has_default_opening(alloc, peering)? && !any_raw(number, steps))
}

/// Which peerings have a remote that says its default opening, and else only what announce and withdraw steps have it say. There are
/// at most 256 peerings.
fn plain_peerings(
    alloc: Global,
    peerings: &[PeeringInput],
    steps: &[Step],
) -> Result<Items<bool>, NoMemory>
    requires { length peerings.now ≤ 256 }
    ensures { IfOk result (λ plain. plain ≡ plain_in steps.now peerings.now) }
{
    let mut plain = Items::new(alloc);
    for (i, peering) in peerings.iter().enumerate() {
        let answer = says_plainly(alloc, PeeringId(i as u8), peering, steps)?;
        plain.push(answer)?;
    }
    Ok(plain)
}

/// Whether the peering of this number is among those that are plain.
fn is_plain(plain: &[bool], peering: PeeringId) -> bool
    ensures { result ≡ unwrap_or (slice_get plain.now peering.0) false }
{
    match plain.get(usize::from(peering.0)) {
        Some(answer) => *answer,
        None => false,
    }
}

/// Whether a step is sure, where `plain` tells which peerings are plain, and `settled` whether a settle stands before the step.
fn is_sure_step(plain: &[bool], settled: bool, step: &Step) -> bool
    ensures { (input : LabInput) (n : ℕ) → plain.now ≡ plain_in input.steps input.peerings → settled ≡ list_any is_settle_step (take n input.steps)
        → result ≡ is_sure_step_lem input n step.now }
{
    match step {
        Step::Graft { peering, .. } => settled && is_plain(plain, *peering),
        Step::Evacuate { .. } => false,
        _ => true,
    }
}

/// Whether all steps are sure, where `plain` tells which peerings are plain.
fn all_sure(plain: &[bool], steps: &[Step]) -> bool
    ensures { (input : LabInput) → plain.now ≡ plain_in input.steps input.peerings → steps.now ≡ input.steps
        → result ≡ list_all (λ step. is_sure_step_lem input step.0 step.1) (enumerate_from 0 input.steps) }
{
    let mut settled = false;
    for step in steps.iter() {
        if !is_sure_step(plain, settled, step) {
            return false;
        }
        settled = settled || step.is_settle();
    }
    true
}

/// Whether no session has a timer, each router has room for all sessions, no step empties a router, each graft stands behind a
/// settle, and the remotes of the peerings that are moved say their default openings and else only what announce and withdraw steps
/// have them say. The input is one that was accepted.
pub fn sure(alloc: Global, input: &LabInput) -> Result<bool, NoMemory>
    requires { IsAccepted input.now }
    ensures { IfOk result (λ answer. answer ≡ is_sure_lem input.now) }
{
    if !all_have_room(&input.routers, input.peerings.len()) || !has_no_timer(alloc, input)? {
        return Ok(false);
    }
    let plain = plain_peerings(alloc, &input.peerings, &input.steps)?;
    Ok(all_sure(&plain, &input.steps))
}
