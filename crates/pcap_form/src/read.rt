//! A file that is read as a capture.

ghost use Rattle.std.specs.Prelude.{◌≡◌, ◌⊎◌, ℕ, List, Err, IfOk, MatchResult, true, false};
ghost use Rattle.pcap_form.specs.Blocks.{Captured, begins_section as begins_section_lem};
ghost use Rattle.pcap_form.specs.Captures.{IsCapture, IsFormFault};

use crate::blocks::{
    Section, begins_section, fault_in, packet_in, section_fault, section_order, section_size,
    size_of, take_block,
};
use crate::packet::{Packet, Packets};
use crate::pcap::{
    HEADER, RECORD, header_fault, header_link, header_order, record_fault, record_size,
};
use crate::stop::CaptureStop;
use graft_edge::Items;
use std::alloc::Global;

/// Reads a pcap file.
fn read_records(alloc: Global, file: &[u8]) -> Result<Packets<'_>, CaptureStop>
    requires { begins_section_lem file.now ≡ false }
    ensures capture { IfOk result (λ packets. IsCapture file.now packets) }
    ensures fault { (place : ℕ) → result ≡ Err (CaptureStop.Form place) → IsFormFault file.now place }
{
    if let Some(place) = header_fault(file) {
        return Err(CaptureStop::Form(place));
    }
    let (header, mut left) = file.split_at(HEADER);
    let order = header_order(header);
    let link = header_link(header);
    let mut packets = Packets::new(alloc);
    while !left.is_empty() {
        if let Some(place) = record_fault(order, left) {
            return Err(CaptureStop::Form(file.len() - left.len() + place));
        }
        let (record, behind) = left.split_at(record_size(order, left));
        packets.push(Packet::new(link, &record[RECORD..]))?;
        left = behind;
    }
    Ok(packets)
}

/// Reads a pcapng file.
fn read_blocks(alloc: Global, file: &[u8]) -> Result<Packets<'_>, CaptureStop>
    requires { begins_section_lem file.now ≡ true }
    ensures capture { IfOk result (λ packets. IsCapture file.now packets) }
    ensures fault { (place : ℕ) → result ≡ Err (CaptureStop.Form place) → IsFormFault file.now place }
{
    if let Some(place) = section_fault(file) {
        return Err(CaptureStop::Form(place));
    }
    let (first, mut left) = file.split_at(section_size(file));
    let mut section = Section {
        order: section_order(first),
        interfaces: Items::new(alloc),
    };
    let mut packets = Packets::new(alloc);
    while !left.is_empty() {
        if let Some(place) = fault_in(&section, left) {
            return Err(CaptureStop::Form(file.len() - left.len() + place));
        }
        let (block, behind) = left.split_at(size_of(&section, left));
        if let Some(packet) = packet_in(&section, block) {
            packets.push(packet)?;
        }
        take_block(alloc, &mut section, block)?;
        left = behind;
    }
    Ok(packets)
}

/// Reads a capture, pcap or pcapng: its packets in the order of the file, each with the octets that were
/// captured, which stay where they are in the file. If the file isn't a capture, the error is the place of
/// the first field that is cut off or wrong. The time it takes grows with the number of octets.
pub fn read_capture(alloc: Global, file: &[u8]) -> Result<Packets<'_>, CaptureStop>
    ensures capture { IfOk result (λ packets. IsCapture file.now packets) }
    ensures fault { (place : ℕ) → result ≡ Err (CaptureStop.Form place) → IsFormFault file.now place }
    // The packets of a capture are read, unless memory runs out.
    ensures back { (packets : List Captured) → IsCapture file.now packets
        → MatchResult result (λ read. read ≡ packets) (λ stop. stop ≡ CaptureStop.NoMemory) }
    // Another file is refused at its first fault, unless memory runs out.
    ensures refused { (place : ℕ) → IsFormFault file.now place → (result ≡ Err (CaptureStop.Form place)) ⊎ (result ≡ Err CaptureStop.NoMemory) }
{
    if begins_section(file) {
        read_blocks(alloc, file)
    } else {
        read_records(alloc, file)
    }
}
