//! A capture that is written.

ghost use Rattle.std.specs.Prelude.{◌≡◌, ◌≤◌, ◌++◌, length, IfOk, OnOk};
ghost use Rattle.std.specs.Int.{w16, w32, to_le_bytes};
ghost use Rattle.pcap_form.specs.Captures.{IsCapture};
ghost use Rattle.pcap_form.specs.Written.{AreShort, read_back, written, written_header, written_record};

use crate::packet::CapturedPacket;
use crate::pcap::MICROSECONDS;
use graft_edge::{NoMemory, Octets};
use std::alloc::Global;

/// The greatest length of an IPv4 packet.
const LONGEST: u32 = 65535;

/// The number of the link type of IPv4 packets.
const IPV4: u32 = 228;

fn push_half(octets: &mut Octets, n: u16) -> Result<(), NoMemory>
    ensures { OnOk result (octets.new ≡ octets.old ++ to_le_bytes w16 n) }
{
    octets.extend(&n.to_le_bytes())
}

fn push_word(octets: &mut Octets, n: u32) -> Result<(), NoMemory>
    ensures { OnOk result (octets.new ≡ octets.old ++ to_le_bytes w32 n) }
{
    octets.extend(&n.to_le_bytes())
}

fn header(alloc: Global) -> Result<Octets, NoMemory>
    ensures { IfOk result (λ octets. octets ≡ written_header) }
{
    let mut octets = Octets::new(alloc);
    push_word(&mut octets, MICROSECONDS)?;
    push_half(&mut octets, 2)?;
    push_half(&mut octets, 4)?;
    octets.extend(&[0; 8])?;
    push_word(&mut octets, LONGEST)?;
    push_word(&mut octets, IPV4)?;
    Ok(octets)
}

fn push_record(octets: &mut Octets, packet: &CapturedPacket) -> Result<(), NoMemory>
    requires { length packet.now.octets ≤ 65535 }
    ensures { OnOk result (octets.new ≡ octets.old ++ written_record packet.now) }
{
    let len = packet.octets.len() as u32;
    push_word(octets, packet.seconds)?;
    push_word(octets, packet.microseconds)?;
    push_word(octets, len)?;
    push_word(octets, len)?;
    octets.extend(&packet.octets)?;
    Ok(())
}

/// Writes packets, each of 65,535 octets at most, as a pcap file: version 2.4, with the lowest octet of each
/// number first, times in microseconds and the link type of IPv4 packets (228).
pub fn write_capture(alloc: Global, packets: &[CapturedPacket]) -> Result<Octets, NoMemory>
    requires { AreShort packets.now }
    ensures octets { IfOk result (λ octets. octets ≡ written packets.now) }
    // What is written reads back.
    ensures back { IfOk result (λ octets. IsCapture octets (read_back packets.now)) }
{
    let mut octets = header(alloc)?;
    for packet in packets {
        push_record(&mut octets, packet)?;
    }
    Ok(octets)
}
