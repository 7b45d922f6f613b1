//! Packets with the rounds and places of their entries.

ghost use Rattle.std.specs.Prelude.{ℕ, ◌≡◌, ◌+◌, ◌-◌, ◌^◌, ◌<◌, ◌++◌, All, length, map, slice_index, slice_set, IfOk, OnOk};
ghost use Rattle.pcap_form.specs.Written.{AreShort};
ghost use Rattle.lab_capture.specs.Captures.{AreByRound, captured as captured_lem};
ghost use Rattle.lab_capture.specs.Places.{ArePlaces, timed_if};
ghost use Rattle.lab_capture.specs.Tapping.{AllShort};

use graft_edge::{NoMemory, Octets};
use pcap_form::CapturedPacket;
use std::alloc::Global;

/// The greatest number of seconds that a capture can say.
const LAST_SECOND: usize = 4_294_967_295;

/// The greatest number of microseconds below a second.
const LAST_MICROSECOND: usize = 999_999;

/// A packet, with the round of its entry, and how many entries of that round come before it in the journal.
#[derive(Debug, Drop)]
pub struct Timed {
    pub round: usize,
    pub place: usize,
    pub octets: Octets,
}

/// Counts one more entry of a round, and returns how many there were before.
fn count(counts: &mut [usize], round: usize) -> usize
    requires there { round < length counts.old }
    requires room { slice_index counts.old round < 2 ^ 64 - 1 }
    ensures before { result ≡ slice_index counts.old round }
    ensures counts { counts.new ≡ slice_set counts.old round (slice_index counts.old round + 1) }
{
    let before = counts[round];
    counts[round] += 1;
    before
}

/// Returns of each entry how many entries before it have its round, by the rounds of all entries. By round none is counted yet.
fn places_along(
    alloc: Global,
    counts: &mut [usize],
    rounds: &[usize],
) -> Result<Vec<usize>, NoMemory>
    requires there { All (λ round. round < length counts.old) rounds.now }
    requires none { (round : ℕ) → round < length counts.old → slice_index counts.old round ≡ 0 }
    ensures { IfOk result (λ places. ArePlaces rounds.now places.items) }
{
    let mut places = Vec::with_capacity(alloc, rounds.len())?;
    for round in rounds {
        let place = count(counts, *round);
        places.push(place)?;
    }
    Ok(places)
}

/// Returns of each entry how many entries before it have its round, by the rounds of all entries, each of which is below `end`.
pub(crate) fn places_of(alloc: Global, rounds: &[usize], end: usize) -> Result<Vec<usize>, NoMemory>
    requires { All (λ round. round < end) rounds.now }
    ensures { IfOk result (λ places. ArePlaces rounds.now places.items) }
{
    let mut counts = vec![in alloc; 0usize; end]?;
    places_along(alloc, &mut counts, rounds)
}

/// Adds a packet with its round and its place, if there is one.
pub(crate) fn push_timed(
    packets: &mut Vec<Timed>,
    round: usize,
    place: usize,
    packet: Option<Octets>,
) -> Result<(), NoMemory>
    ensures { OnOk result (packets.new.items ≡ packets.old.items ++ timed_if round place packet) }
{
    if let Some(octets) = packet {
        packets.push(Timed {
            round,
            place,
            octets,
        })?;
    }
    Ok(())
}

/// Returns the packets in the order of their rounds; those of one round keep their order.
pub(crate) fn by_round(packets: Vec<Timed>) -> Result<Vec<Timed>, NoMemory>
    requires { AllShort packets.items }
    ensures order { IfOk result (λ sorted. AreByRound packets.items sorted.items) }
    ensures short { IfOk result (λ sorted. AllShort sorted.items) }
{
    let mut packets = packets;
    packets.sort_by_key(|packet| packet.round)?;
    Ok(packets)
}

/// Returns a packet with its time: a second for each round, and a microsecond for each place, as far as there are such numbers.
fn captured_packet(packet: Timed) -> CapturedPacket
    ensures { result ≡ captured_lem packet }
{
    CapturedPacket {
        seconds: packet.round.min(LAST_SECOND) as u32,
        microseconds: packet.place.min(LAST_MICROSECOND) as u32,
        octets: packet.octets,
    }
}

/// Returns the packets with their times.
pub(crate) fn captured(alloc: Global, packets: Vec<Timed>) -> Result<Vec<CapturedPacket>, NoMemory>
    requires { AllShort packets.items }
    ensures packets { IfOk result (λ list. list.items ≡ map captured_lem packets.items) }
    ensures short { IfOk result (λ list. AreShort list.items) }
{
    let mut list = Vec::with_capacity(alloc, packets.len())?;
    for packet in packets {
        list.push(captured_packet(packet))?;
    }
    Ok(list)
}
