//! A file is a capture of one list of packets at most, and has one first fault at most.

ghost use Rattle.std.specs.Prelude.{◌≡◌, ℕ, List, take};
ghost use Rattle.pcap_form.specs.Blocks.{Captured};
ghost use Rattle.pcap_form.specs.Captures.{IsCapture, IsFormFault};
ghost use Rattle.pcap_form.specs.Written.{AreShort, read_back, written};
ghost use Rattle.pcap_form.specs.Worked.{worked_pcap, pcap_packets, worked_pcapng, pcapng_packets};

use crate::packet::CapturedPacket;

/// A file has one list of packets at most, a capture has no fault, and another file has one first fault at
/// most.
pub fn a_file_is_read_in_one_way()
    ensures packets { (file : List ℕ) (one other : List Captured) → IsCapture file one → IsCapture file other → one ≡ other }
    ensures sound { (file : List ℕ) (packets : List Captured) (place : ℕ) → IsCapture file packets → ¬ IsFormFault file place }
    ensures fault { (file : List ℕ) (one other : ℕ) → IsFormFault file one → IsFormFault file other → one ≡ other }
{}

/// What is written is a capture of the packets that were written.
pub fn what_is_written_reads_back()
    ensures { (packets : List CapturedPacket) → AreShort packets → IsCapture (written packets) (read_back packets) }
{}

/// A pcap file and a pcapng file of two sections that are worked by hand, and the first of them without
/// its last octet: the length of its record is at fault.
pub fn captures_worked_by_hand()
    ensures pcap { IsCapture worked_pcap pcap_packets }
    ensures pcapng { IsCapture worked_pcapng pcapng_packets }
    ensures fault { IsFormFault (take 41 worked_pcap) 32 }
{}
