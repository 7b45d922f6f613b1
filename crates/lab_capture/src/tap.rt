//! What is seen of an entry.

ghost use Rattle.std.specs.Prelude.{ℕ, ◌≡◌, ◌≢◌, IfOk, IfSome, IfNone};
ghost use Rattle.graft_model.specs.Codes.{far_code};
ghost use Rattle.graft_model.specs.Steps.{ByFar};
ghost use Rattle.graft_model.specs.declared.event.FarEvent as events;
ghost use Rattle.graft_actors.specs.Laws.{IsEntryOf};
ghost use Rattle.lab_setup.specs.Setups.{setup_of};
ghost use Rattle.run_auditor.specs.Sound.{AuditorInvariant};
ghost use Rattle.lab_capture.specs.Tapping.{IsShort, IsTapped, code_in};

use crate::ends::packet_at;
use graft_actors::an_entry_is_of_one_event;
use graft_edge::{NoMemory, Octets};
use graft_model::{ActorEvent, Code, FarEvent, codes_are_exact, event_of};
use lab_tables::LabInput;
use ring_net::JournalEntry;
use run_auditor::Auditor;
use std::alloc::Global;

/// Returns the kind and the arguments of an entry.
fn code_of(entry: &JournalEntry) -> Code
    ensures { result ≡ code_in entry.now }
{
    Code {
        kind: entry.kind,
        a: entry.a,
        b: entry.b,
        c: entry.c,
    }
}

/// Returns the event of a far side with this code, if there is one.
fn event_of_far(code: Code) -> Option<FarEvent>
    ensures some { IfSome result (λ event. far_code event ≡ code) }
    ensures none { IfNone result ((event : events.FarEvent) → far_code event ≢ code) }
{
    codes_are_exact();
    let Some(event) = event_of(code) else {
        return None;
    };
    let ActorEvent::OfFar(event) = event else {
        return None;
    };
    Some(event)
}

/// Returns the event of an entry and its peering, if it is an event of a far side of the laboratory.
fn far_event(input: &LabInput, entry: &JournalEntry) -> Option<(usize, FarEvent)>
    ensures some { IfSome result (λ x. IsEntryOf (setup_of input.now) (ByFar x.0 x.1) entry.now) }
    ensures none { IfNone result ((p : ℕ) (event : events.FarEvent) → ¬ IsEntryOf (setup_of input.now) (ByFar p event) entry.now) }
{
    let event = event_of_far(code_of(entry))?;
    let actor = usize::from(entry.actor);
    let routers = input.routers.len();
    if actor < routers {
        return None;
    }
    let peering = actor - routers;
    if peering >= input.peerings.len() {
        return None;
    }
    Some((peering, event))
}

/// Takes an entry, and returns the packet that is tapped at its event, if one is: of the segment that its remote sends, or of
/// the one that reaches its remote.
pub(crate) fn tap(
    alloc: Global,
    input: &LabInput,
    auditor: &mut Auditor,
    entry: &JournalEntry,
) -> Result<Option<Octets>, NoMemory>
    requires sound { AuditorInvariant auditor.old }
    requires setup { auditor.old.known.setup ≡ setup_of input.now }
    ensures tapped { IfOk result (λ packet. IsTapped input.now entry.now auditor.old packet auditor.new) }
    ensures short { IfOk result (λ packet. IfSome packet IsShort) }
{
    an_entry_is_of_one_event();
    let Some((peering, event)) = far_event(input, entry) else {
        auditor.step(entry)?;
        return Ok(None);
    };
    match event {
        FarEvent::Send { .. } => {
            let index = auditor.far_sides()[peering].homeward().len();
            auditor.step(entry)?;
            packet_at(alloc, input, auditor.far_sides()[peering].homeward(), index)
        }
        FarEvent::Reach { index, .. } => {
            let link = auditor.far_sides()[peering].remoteward();
            let packet = packet_at(alloc, input, link, index as usize)?;
            auditor.step(entry)?;
            Ok(packet)
        }
        _ => {
            auditor.step(entry)?;
            Ok(None)
        }
    }
}
