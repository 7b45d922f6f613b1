//! Whether routes of one neighbour AS never differ in MED.

ghost use Rattle.std.specs.Prelude.{ℕ, ◌≡◌, ◌≤◌, Some, map, length, slice_get, IfOk, OnOk};
ghost use Rattle.std.specs.List.{flat_map, enumerate_from};
ghost use Rattle.lab_setup.specs.Accepted.{IsAccepted};
ghost use Rattle.lab_setup.specs.Setups.{setup_of, peering_setup};
ghost use Rattle.even_inputs.specs.Announced.{established as established_lem};
ghost use Rattle.even_inputs.specs.Evenness.{own_meds, meds_by, is_even};
ghost use Rattle.lab_answers.specs.Noted.{own_med, NotesMeds};

use crate::meds::Meds;
use crate::policies::imports_of;
use crate::said::{opened_by, said_over};
use bgp_types::{Expected, Prefix, SessionState};
use bgp_wire::as_said;
use graft_edge::{NoMemory, PeeringId};
use lab_tables::{LabInput, PeeringInput};
use std::alloc::Global;

/// How the messages of a remote that says these bytes are read, once its session is established.
fn established(alloc: Global, peering: &PeeringInput, said: &[u8]) -> Result<Expected, NoMemory>
    ensures { (input : LabInput) (p : ℕ) → IfOk result (λ expected. expected ≡ established_lem (peering_setup input (p, peering.now)) said.now) }
{
    let wide = match opened_by(alloc, peering, said)? {
        Some(opened) => peering.as4 && as_said(&opened.caps).is_some(),
        None => false,
    };
    Ok(Expected {
        state: SessionState::Established,
        remote_as: peering.remote_as,
        offered: peering.as4,
        wide,
    })
}

/// Notes the networks of a router.
fn note_networks(meds: &mut Meds, home_as: u32, networks: &[Prefix]) -> Result<(), NoMemory>
    ensures { OnOk result (NotesMeds (map (own_med home_as) networks.now) meds.old meds.new) }
{
    for prefix in networks {
        meds.note_own(home_as, *prefix)?;
    }
    Ok(())
}

/// Notes the networks of all routers.
fn note_routers(meds: &mut Meds, input: &LabInput) -> Result<(), NoMemory>
    ensures { OnOk result (NotesMeds (flat_map (own_meds (setup_of input.now)) (setup_of input.now).routers) meds.old meds.new) }
{
    for router in input.routers.iter() {
        note_networks(meds, input.home_as, &router.networks)?;
    }
    Ok(())
}

/// Notes the routes that the remote of a peering announces over the script. The input is one that was accepted, and has the peering at
/// this number.
fn note_peering(
    alloc: Global,
    meds: &mut Meds,
    input: &LabInput,
    number: PeeringId,
    peering: &PeeringInput,
) -> Result<(), NoMemory>
    requires accepted { IsAccepted input.now }
    requires there { slice_get input.now.peerings number.0 ≡ Some peering.now }
    ensures { OnOk result (NotesMeds (meds_by (setup_of input.now) (number.0, peering_setup input.now (number.0, peering.now))) meds.old meds.new) }
{
    let said = said_over(alloc, input, number)?;
    let expected = established(alloc, peering, &said)?;
    let imports = imports_of(alloc, input, peering)?;
    imports.note_said(alloc, meds, &said, &expected)
}

/// Notes the routes that all remotes announce over the script. The input is one that was accepted, and has at most 256 peerings.
fn note_peerings(alloc: Global, meds: &mut Meds, input: &LabInput) -> Result<(), NoMemory>
    requires accepted { IsAccepted input.now }
    requires few { length input.now.peerings ≤ 256 }
    ensures { OnOk result (NotesMeds (flat_map (meds_by (setup_of input.now)) (enumerate_from 0 (setup_of input.now).peerings)) meds.old meds.new) }
{
    for (i, peering) in input.peerings.iter().enumerate() {
        note_peering(alloc, meds, input, PeeringId(i as u8), peering)?;
    }
    Ok(())
}

/// Whether of the routes to one prefix that routers of the laboratory could have by themselves, two from one neighbour AS always
/// have one MED (RFC 4271, section 9.1.2.2 (c)): own networks, and what the remotes announce over the script, as it is announced and
/// as each router's import policy lets it in. An absent MED is 0. The input is one that was accepted. It takes a time that grows with
/// the octets that remotes say, and with the number of announced prefixes times that of routers.
pub fn even(alloc: Global, input: &LabInput) -> Result<bool, NoMemory>
    requires { IsAccepted input.now }
    ensures { IfOk result (λ answer. answer ≡ is_even (setup_of input.now)) }
{
    let mut meds = Meds::new(alloc);
    note_routers(&mut meds, input)?;
    note_peerings(alloc, &mut meds, input)?;
    Ok(meds.are_even())
}
