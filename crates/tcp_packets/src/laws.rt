//! Laws of the packets that are written.

ghost use Rattle.std.specs.Prelude.{◌≡◌, ◌^◌, ◌<◌, ◌≤◌, ◌++◌, length, take, drop, false, Ok};
ghost use Rattle.pcap_form.specs.declared.link.LinkType.TheVariants.{Ipv4};
ghost use Rattle.tcp_seq.specs.declared.segment.Segment.{Segment};
ghost use Rattle.tcp_packets.specs.declared.socket.Socket.{Socket};
ghost use Rattle.tcp_packets.specs.Reading.{read_packet};
ghost use Rattle.tcp_packets.specs.Writing.{IsInRange, ones_sum, pseudo_header, written_packet};
ghost use Rattle.tcp_packets.specs.Worked.{worked_keepalive, worked_segment, worked_source, worked_target};

/// A receiver finds both checksums of a written packet right: with the checksum in its place, the ones' complement sum is
/// 65,535 (RFC 1071, section 1).
pub fn checksums_are_right()
    ensures ip { (source target : Socket) (s : Segment) → length s.bytes ≤ 65495 → ones_sum (take 20 (written_packet source target s)) ≡ 65535 }
    ensures tcp { (source target : Socket) (s : Segment) → length s.bytes ≤ 65495
        → ones_sum (pseudo_header source target s ++ drop 20 (written_packet source target s)) ≡ 65535 }
{}

/// A written packet is read as the segment that was written, between the same ends.
pub fn what_is_written_is_read()
    ensures { (source target : Socket) (s : Segment) → IsInRange source → IsInRange target → s.seq.0 < 2 ^ 32 → length s.bytes ≤ 65495
        → read_packet (record { link = Ipv4; octets = written_packet source target s })
        ≡ Ok (record { source = source; target = target; opens = false; first = s.seq.0; octets = s.bytes }) }
{}

/// The packet of a KEEPALIVE, worked by hand.
pub fn a_packet_worked_by_hand()
    ensures { written_packet worked_source worked_target worked_segment ≡ worked_keepalive }
{}
