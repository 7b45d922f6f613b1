//! The steps in which remotes say what is behind their openings.

ghost use Rattle.std.specs.Prelude.{◌≡◌, ◌≤◌, ◌-◌, ◌++◌, ◌∷◌, [], List, length, map, slice_get, IfSome, OnOk};
ghost use Rattle.std.specs.Option.{option_to_list};
ghost use Rattle.imported_sessions.specs.Heard.{said_by};
ghost use Rattle.imported_sessions.specs.Opened.{is_external_in};
ghost use Rattle.imported_sessions.specs.Packed.{AreMoreStepsOf, has_room as has_room_lem};
ghost use Rattle.imported_sessions.specs.declared.imported.Said.{Said as SaidValue};
ghost use Rattle.imported_sessions.specs.Steps.{ArePacked, pieces};

use crate::heard::MOST;
use crate::imported::Said;
use crate::opened::Opened;
use graft_edge::{NoMemory, Octets};
use std::alloc::Global;

/// Whether a message belongs into the last step: it is of the same remote, and there is room.
fn has_room(steps: &[Said], message: &Said) -> bool
    ensures { result ≡ has_room_lem (slice_get steps.now (length steps.now - 1)) message.now }
{
    match steps.last() {
        Some(last) => {
            last.peer == message.peer
                && last.octets.len().saturating_add(message.octets.len()) <= MOST
        }
        None => false,
    }
}

/// Adds a message to the last step if it belongs there, or else as a new step.
fn push_message(steps: &mut Vec<Said>, message: Said) -> Result<(), NoMemory>
    ensures { OnOk result ((all : List SaidValue) → ArePacked all steps.old.items → length message.octets ≤ 4096
        → ArePacked (all ++ message ∷ []) steps.new.items) }
{
    if !has_room(steps, &message) {
        return Ok(steps.push(message)?);
    }
    let last = steps.len() - 1;
    steps[last].octets.extend(&message.octets)
}

/// Whether the remote of a session is of another AS than the home side.
fn is_external(opened: &[Opened], home_as: u32, peer: usize) -> bool
    ensures { result ≡ is_external_in opened.now home_as peer }
{
    match opened.get(peer) {
        Some(session) => session.remote_as != home_as,
        None => false,
    }
}

/// Adds a remote's message, if there is one, to the steps, if the remote is of another AS than the home side.
pub(crate) fn push_external(
    steps: &mut Vec<Said>,
    opened: &[Opened],
    home_as: u32,
    peer: usize,
    message: Option<Octets>,
) -> Result<(), NoMemory>
    requires { IfSome message (λ octets. length octets ≤ 4096) }
    ensures { OnOk result (AreMoreStepsOf opened.now home_as (map (said_by peer) (option_to_list message)) steps.old.items steps.new.items) }
{
    let Some(octets) = message else {
        return Ok(());
    };
    if !is_external(opened, home_as, peer) {
        return Ok(());
    }
    push_message(steps, Said { peer, octets })
}

/// Adds steps with these octets of a remote.
pub(crate) fn push_octets(
    alloc: Global,
    steps: &mut Vec<Said>,
    peer: usize,
    octets: &[u8],
) -> Result<(), NoMemory>
    ensures { OnOk result (steps.new.items ≡ steps.old.items ++ map (λ piece. record { peer = peer; octets = piece }) (pieces octets.now)) }
{
    for piece in octets.chunks(MOST) {
        let octets = Octets::from_slice(alloc, piece)?;
        steps.push(Said { peer, octets })?;
    }
    Ok(())
}
