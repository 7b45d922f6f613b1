//! What a remote says over a whole script.

ghost use Rattle.std.specs.Prelude.{ℕ, ◌≡◌, ◌<◌, ◌++◌, [], All, Some, IfOk, OnOk, length, slice_get, unwrap_or};
ghost use Rattle.bgp_types.specs.declared.message.Message.TheVariants.{UpdateMsg};
ghost use Rattle.bgp_types.specs.FirstFault.{message_of};
ghost use Rattle.bgp_types.specs.Header.{frame_at};
ghost use Rattle.bgp_types.specs.Writable.{IsWritable};
ghost use Rattle.bgp_story.specs.Legal.{open_in};
ghost use Rattle.lab_tables.specs.declared.input.LabInput.{LabInput};
ghost use Rattle.lab_tables.specs.declared.input.PeeringInput.{PeeringInput};
ghost use Rattle.lab_input.specs.Said.{step_update};
ghost use Rattle.lab_setup.specs.Accepted.{IsAccepted};
ghost use Rattle.lab_setup.specs.Said.{said_over as said_over_lem};
ghost use Rattle.lab_setup.specs.Setups.{setup_of, peering_setup};
ghost use Rattle.one_answer.specs.Settled.{said_in_all};
ghost use Rattle.even_inputs.specs.Announced.{open_at_front};

use bgp_frame::first_frame;
use bgp_types::{Expected, Message, OpenMsg, SessionState};
use bgp_wire::{CodecFault, read_message};
use graft_edge::{NoMemory, Octets, PeeringId, TryCopy};
use lab_setup::{is_wide, said_by};
use lab_tables::{LabInput, PeeringInput, Step};
use std::alloc::Global;

/// Adds what a step says, if it says anything.
fn add_said(said: &mut Octets, bytes: Option<Octets>) -> Result<(), NoMemory>
    ensures { OnOk result (said.new ≡ said.old ++ unwrap_or bytes []) }
{
    match bytes {
        Some(bytes) => said.extend(&bytes),
        None => Ok(()),
    }
}

/// An opening, and behind it what the steps have the remote of a peering say. The UPDATE of each step can be written in this width.
fn with_steps(
    alloc: Global,
    opening: Octets,
    wide: bool,
    peering: PeeringId,
    steps: &[Step],
) -> Result<Octets, NoMemory>
    requires { All (λ step. IsWritable (UpdateMsg (step_update step)) wide) steps.now }
    ensures { IfOk result (λ said. said ≡ opening ++ said_over_lem wide peering.0 steps.now) }
{
    let mut said = opening;
    for step in steps.iter() {
        let bytes = said_by(alloc, wide, peering, step)?;
        add_said(&mut said, bytes)?;
    }
    Ok(said)
}

/// All that the remote of a peering says: its opening, and behind it what the steps have it say. The input is one that was
/// accepted, and has the peering.
pub(crate) fn said_over(
    alloc: Global,
    input: &LabInput,
    peering: PeeringId,
) -> Result<Octets, NoMemory>
    requires accepted { IsAccepted input.now }
    requires there { peering.0 < length input.now.peerings }
    ensures { (p : PeeringInput) → slice_get input.now.peerings peering.0 ≡ Some p
        → IfOk result (λ said. said ≡ said_in_all (setup_of input.now) peering.0 (peering_setup input.now (peering.0, p))) }
{
    let there = &input.peerings[usize::from(peering.0)];
    let wide = is_wide(there);
    let opening = there.opening.copy()?;
    with_steps(alloc, opening, wide, peering, &input.steps)
}

/// The OPEN that a whole frame is, where it is a sound one.
fn open_of(alloc: Global, frame: &[u8], expected: &Expected) -> Result<Option<OpenMsg>, NoMemory>
    requires { frame_at frame.now ≡ Some (frame.now, []) }
    ensures { IfOk result (λ opened. opened ≡ open_in (message_of expected.now frame.now)) }
{
    match read_message(alloc, frame, expected) {
        Ok(Message::OpenMsg(open)) => Ok(Some(open)),
        Ok(_) => Ok(None),
        Err(CodecFault::Wire(_)) => Ok(None),
        Err(CodecFault::NoMemory) => Err(NoMemory),
    }
}

/// The OPEN at the front of what the remote of a peering says, where a sound one stands there (RFC 4271, sections 4.2 and 6.2).
#[tactic(auto, using(crate::proofs::Opened::no_front))]
pub(crate) fn opened_by(
    alloc: Global,
    peering: &PeeringInput,
    said: &[u8],
) -> Result<Option<OpenMsg>, NoMemory>
    ensures { (input : LabInput) (p : ℕ) → IfOk result (λ opened. opened ≡ open_at_front (peering_setup input (p, peering.now)) (frame_at said.now)) }
{
    let expected = Expected {
        state: SessionState::OpenSent,
        remote_as: peering.remote_as,
        offered: peering.as4,
        wide: false,
    };
    match first_frame(said) {
        Ok(Some(front)) => open_of(alloc, &said[..front.len], &expected),
        Ok(None) => Ok(None),
        Err(_fault) => Ok(None),
    }
}
