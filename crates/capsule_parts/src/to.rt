//! The parts of a capsule.

ghost use Rattle.std.specs.Prelude.{◌≡◌, ◌+◌, ◌^◌, ◌<◌, ◌≤◌, [], length, IfOk, OnOk};
ghost use Rattle.capsule_parts.specs.Parts.{parts_of};
ghost use Rattle.capsule_parts.specs.Sound.{IsAtRest, IsSound};

use crate::pieces::joined;
use crate::story::part_lines;
use bgp_session::{Capsule, Session};
use bgp_types::{Items, Name, NoMemory, TryCopy};
use capsule_bytes::{CapsuleParts, PartLines};
use std::alloc::Global;

/// Returns a copy of a policy's name.
fn name_copy(name: &Option<Name>) -> Result<Option<Name>, NoMemory>
    ensures { IfOk result (λ copy. copy ≡ name.now) }
{
    match name {
        Some(name) => Ok(Some(name.copy()?)),
        None => Ok(None),
    }
}

/// Returns the story of a session in octets.
fn story_of(alloc: Global, session: &Session) -> Result<PartLines, NoMemory>
    ensures { IfOk result (λ story. story ≡ (parts_of session.now).story) }
{
    part_lines(alloc, session.story().lines(), session.wide())
}

/// Returns the parts of a capsule. Its routes aren't among them, since they are what its story tells. The parts are
/// sound where the session is established and what its story tells, received at most 1,048,576 bytes, and has read all
/// messages that arrived whole: so are those of each capsule that a router sends.
pub fn to_parts(alloc: Global, capsule: &Capsule) -> Result<CapsuleParts, NoMemory>
    ensures parts { IfOk result (λ parts. parts ≡ parts_of capsule.now) }
    ensures sound { OnOk result (IsAtRest capsule.now → IsSound (parts_of capsule.now)) }
{
    let session = capsule.session();
    let config = session.config();
    let mut end = session.end_state()?;
    end.ahead = joined(alloc, end.ahead.as_slice())?;
    end.taken += end.ready.len() as u32;
    let held = std::mem::replace(&mut end.ready, Items::new(alloc));
    Ok(CapsuleParts {
        peering: config.peering,
        remote_as: config.remote_as,
        home_as: config.home_as,
        identifier: config.identifier,
        remote_address: config.remote_address,
        local_address: config.local_address,
        home_hold: config.home_hold,
        offered: config.offered,
        unicast: config.unicast,
        import: name_copy(&config.import)?,
        export: name_copy(&config.export)?,
        end,
        held,
        story: story_of(alloc, session)?,
        late: Items::new(alloc),
    })
}
