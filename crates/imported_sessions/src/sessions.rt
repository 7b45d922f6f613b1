//! Sessions become peerings and steps.

ghost use Rattle.std.specs.Prelude.{◌≡◌, Err, IfOk};
ghost use Rattle.tcp_packets.specs.declared.socket.Socket.{Socket as SocketValue};
ghost use Rattle.imported_sessions.specs.declared.sessions.ImportStop.TheVariants as stops;
ghost use Rattle.imported_sessions.specs.Imports.{AreSmall, IsFirstWithoutOpen, IsImport, SayAll};

use crate::heard::hear;
use crate::home::{home_as, home_id};
use crate::imported::Imported;
use crate::opened::open_all;
use crate::peerings::keep;
use captured_streams::Streams;
use graft_edge::{Items, NoMemory};
use std::alloc::Global;
use tcp_packets::Socket;
use thiserror::Error;

/// Why sessions aren't imported.
#[derive(Clone, Copy, Debug, PartialEq, Eq, Hash, Error)]
pub enum ImportStop {
    /// The first remote that doesn't begin with a sound OPEN.
    #[error("no OPEN")]
    NoOpen(Socket),
    #[error("no memory")]
    NoMemory,
}

impl From<NoMemory> for ImportStop {
    ghost use Rattle.std.specs.Prelude.{◌≡◌};
    ghost use Rattle.imported_sessions.specs.declared.sessions.ImportStop.TheVariants as stops;

    ghost from_gives = { λ _ stop. stop ≡ stops.NoMemory };

    fn from(_error: NoMemory) -> ImportStop {
        ImportStop::NoMemory
    }
}

/// Imports the sessions of a capture. Each remote must begin with a sound OPEN, of whatever AS but 0; else the error is the
/// first one that doesn't. Its opening is that OPEN, and the next message if it is a KEEPALIVE and both have at most 4,096
/// octets. The rest that it says are steps, cut between messages, of at most 4,096 octets: messages of one remote that follow
/// one another in the capture stand in one step as far as they have room. What is behind the last whole message of a
/// remote comes last. Sessions with remotes of the home side's own AS are left out. All is read twice: first for the OPENs,
/// and then, when it is known who is kept, for the steps, so that no message stands alone. The time that it takes grows
/// with the number of octets.
pub fn import_sessions(alloc: Global, streams: &Streams) -> Result<Imported, ImportStop>
    ensures import { IfOk result (IsImport streams.now) }
    ensures says { IfOk result (SayAll streams.now) }
    ensures small { IfOk result AreSmall }
    ensures stop { (remote : SocketValue) → result ≡ Err (stops.NoOpen remote) → IsFirstWithoutOpen streams.now remote }
{
    let first = hear(alloc, streams.peers.len(), &streams.flows, &[], 0)?;
    let opened = open_all(alloc, streams, first.sessions)?;
    let home_as = home_as(alloc, &opened)?;
    let home_id = home_id(&opened);
    let mut heard = hear(alloc, streams.peers.len(), &streams.flows, &opened, home_as)?;
    let kept = keep(
        alloc,
        streams,
        opened,
        home_as,
        &heard.sessions,
        &mut heard.steps,
    )?;
    Ok(Imported {
        home_as,
        home_id,
        peerings: kept.peerings,
        steps: Items::from_vec(heard.steps),
        internal: kept.internal,
        fragments: streams.fragments,
        others: streams.others,
    })
}
