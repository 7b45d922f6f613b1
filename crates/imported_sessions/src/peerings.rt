//! The peerings of a capture.

ghost use Rattle.std.specs.Prelude.{ℕ, ◌≡◌, ◌+◌, ◌++◌, length, filter, map, IfOk, OnOk};
ghost use Rattle.std.specs.List.{flat_map, range_with_len};
ghost use Rattle.captured_streams.specs.declared.streams.Streams.{Streams as StreamsValue};
ghost use Rattle.imported_sessions.specs.Heard.{session_at};
ghost use Rattle.imported_sessions.specs.Imports.{has_unicast as has_unicast_lem, is_unicast as is_unicast_lem, is_wide as is_wide_lem};
ghost use Rattle.imported_sessions.specs.Imports.{peering_with, peerings as peerings_lem};
ghost use Rattle.imported_sessions.specs.Opened.{AreAllOpened, IsOpened};
ghost use Rattle.imported_sessions.specs.Opens.{home_open, is_external};
ghost use Rattle.imported_sessions.specs.Steps.{last_of};

use crate::heard::{Session, rest_of};
use crate::imported::{ImportedPeering, Said};
use crate::opened::{Opened, ends};
use crate::steps::push_octets;
use bgp_types::{Cap, NoMemory, OpenMsg};
use bgp_wire::as_said;
use captured_streams::{Peer, Streams};
use graft_edge::Items;
use std::alloc::Global;

/// The code of the capability of a family of addresses (RFC 4760, section 8).
const MULTIPROTOCOL: u8 = 1;

/// The value of that of IPv4 unicast: AFI 1, SAFI 1.
const IPV4_UNICAST: [u8; 4] = [0, 1, 0, 1];

/// Whether an OPEN has the capability of four-octet AS numbers.
fn is_wide(message: &OpenMsg) -> bool
    ensures { result ≡ is_wide_lem message.now }
{
    as_said(&message.caps).is_some()
}

fn is_unicast(cap: &Cap) -> bool
    ensures { result ≡ is_unicast_lem cap.now }
{
    cap.code == MULTIPROTOCOL && cap.bytes.as_slice() == IPV4_UNICAST.as_slice()
}

/// Whether an OPEN has the capability of IPv4 unicast.
fn has_unicast(message: &OpenMsg) -> bool
    ensures { result ≡ has_unicast_lem message.now }
{
    message.caps.iter().any(is_unicast)
}

/// Returns the peering of a session between these ends.
fn peering(ends: Peer, session: Opened) -> ImportedPeering
    ensures { (s : StreamsValue) (k : ℕ) → IsOpened s k session → result ≡ peering_with s k ends session.remote (home_open s k) }
{
    let as4 = is_wide(session.home.as_ref().unwrap_or(&session.remote));
    let (home_hold, unicast) = match &session.home {
        Some(home) => (home.hold, has_unicast(home)),
        None => (0, false),
    };
    ImportedPeering {
        peer: session.peer,
        remote_as: session.remote_as,
        remote_address: ends.remote.address,
        local_address: ends.home.address,
        remote_id: session.remote.identifier,
        hold: session.remote.hold,
        as4,
        remote_as4: is_wide(&session.remote),
        home_hold,
        unicast,
        opening: session.opening,
    }
}

/// Peerings, and how many sessions were left out.
#[derive(Drop)]
pub(crate) struct Kept {
    pub(crate) peerings: Items<ImportedPeering>,
    pub(crate) internal: u64,
}

/// Returns the peerings with other ASes than the home side's, and adds what is behind the last messages of their remotes to the
/// steps.
pub(crate) fn keep(
    alloc: Global,
    streams: &Streams,
    opened: Items<Opened>,
    home_as: u32,
    sessions: &[Session],
    steps: &mut Vec<Said>,
) -> Result<Kept, NoMemory>
    requires opened { AreAllOpened streams.now opened }
    requires sessions { sessions.now ≡ map (session_at streams.now.flows) (range_with_len 0 (length streams.now.peers)) }
    ensures peerings { IfOk result (λ kept. kept.peerings ≡ peerings_lem streams.now home_as) }
    ensures internal { IfOk result (λ kept. kept.internal + length kept.peerings ≡ length streams.now.peers) }
    ensures steps { OnOk result (steps.new.items ≡ steps.old.items
        ++ flat_map (last_of streams.now.flows) (filter (is_external streams.now home_as) (range_with_len 0 (length streams.now.peers)))) }
{
    let mut kept = Kept {
        peerings: Items::new(alloc),
        internal: 0,
    };
    for session in opened.into_vec() {
        if session.remote_as == home_as {
            kept.internal += 1;
            continue;
        }
        push_octets(alloc, steps, session.peer, rest_of(sessions, session.peer))?;
        kept.peerings
            .push(peering(ends(&streams.peers, session.peer), session))?;
    }
    Ok(kept)
}
