//! What has no room in an input.

ghost use Rattle.std.specs.Prelude.{◌≡◌, ◌==◌, ◌&&◌, nat_lt, nat_le, length, find, option_copied, Some, IfSome, IfNone, OnOk, unwrap_or};
ghost use Rattle.std.specs.BTreeMap.{get, Updates};
ghost use Rattle.std.specs.Ordering.{nat_cmp};
ghost use Rattle.lab_import.specs.Limits.{AllPeeringsFit, IsPeeringBeyond, fits_peering as fits_peering_lem, opening_at};

use bgp_types::is_no_host;
use graft_edge::NoMemory;
use imported_sessions::ImportedPeering;
use lab_input::{MOST_BYTES, MOST_OCTETS};
use std::collections::BTreeMap;

/// The limit of peerings of an input.
const MOST_PEERINGS: usize = 32;

/// The limit of steps of an input, without the settle behind them.
const MOST_STEPS: usize = 4095;

/// The first peering or step of imported sessions that has no room.
#[derive(Clone, Copy, Debug, PartialEq, Eq)]
pub(crate) struct Beyond {
    /// The number of its connection.
    pub(crate) peer: usize,
    /// The place of its first octet in the stream of the remote, counted from 0.
    pub(crate) octet: u64,
}

/// Why there is no text.
#[derive(Clone, Copy, Debug, PartialEq, Eq)]
pub(crate) enum TextStop {
    /// The first peering or step that has no room in an input.
    Beyond(Beyond),
    NoMemory,
}

impl From<NoMemory> for TextStop {
    ghost use Rattle.std.specs.Prelude.{◌≡◌};
    ghost use Rattle.lab_import.specs.declared.limits.TextStop.TheVariants as stops;

    ghost from_gives = { λ _ stop. stop ≡ stops.NoMemory };

    fn from(_error: NoMemory) -> TextStop {
        TextStop::NoMemory
    }
}

/// Whether a peering has room behind `n` others: an input may have one more, and its addresses are those of hosts.
fn fits_peering(n: usize, peering: &ImportedPeering) -> bool
    ensures { result ≡ fits_peering_lem n peering.now }
{
    n < MOST_PEERINGS && !is_no_host(peering.remote_address) && !is_no_host(peering.local_address)
}

/// Returns the first peering that has no room.
pub(crate) fn peering_beyond(peerings: &[ImportedPeering]) -> Option<Beyond>
    ensures some { IfSome result (IsPeeringBeyond peerings.now) }
    ensures none { IfNone result (AllPeeringsFit peerings.now) }
{
    for (n, peering) in peerings.iter().enumerate() {
        if !fits_peering(n, peering) {
            return Some(Beyond {
                peer: peering.peer,
                octet: 0,
            });
        }
    }
    None
}

/// Whether a peering is that of a connection.
pub(crate) fn is_of(peer: usize, peering: &ImportedPeering) -> bool
    ensures { result ≡ (peering.now.peer == peer) }
{
    peering.peer == peer
}

/// Returns the peering of a connection.
fn peering_at(peerings: &[ImportedPeering], peer: usize) -> Option<&ImportedPeering>
    ensures { option_copied result ≡ find (λ p. p.peer == peer) peerings.now }
{
    peerings.iter().find(|peering| is_of(peer, peering))
}

/// Returns how many octets the opening of a connection's peering has.
fn opening_len(peerings: &[ImportedPeering], peer: usize) -> u64
    ensures { result ≡ length (opening_at peerings.now peer) }
{
    match peering_at(peerings, peer) {
        Some(peering) => peering.opening.len() as u64,
        None => 0,
    }
}

/// Returns how many octets a remote has said so far: if none in a step, those of its opening.
pub(crate) fn said_so_far(
    said: &BTreeMap<usize, u64>,
    peerings: &[ImportedPeering],
    peer: usize,
) -> u64
    ensures { result ≡ unwrap_or (get nat_cmp said.now peer) (length (opening_at peerings.now peer)) }
{
    match said.get(&peer) {
        Some(octets) => *octets,
        None => opening_len(peerings, peer),
    }
}

/// Notes how many octets a remote has said.
pub(crate) fn note_said(
    said: &mut BTreeMap<usize, u64>,
    peer: usize,
    octets: u64,
) -> Result<(), NoMemory>
    ensures { OnOk result (Updates nat_cmp said.old said.new peer (Some octets)) }
{
    said.insert(peer, octets)?;
    Ok(())
}

/// Whether a step has room behind `n` others, if its octets end at place `end` of its remote's stream and the text has `len` bytes with it.
pub(crate) fn fits_step(n: usize, end: u64, len: usize) -> bool
    ensures { result ≡ nat_lt n 4095 && nat_le end 1048576 && nat_le len 4194304 }
{
    n < MOST_STEPS && end <= MOST_OCTETS && len <= MOST_BYTES
}
