//! What 32-bit numbers say of offsets in a stream, what an endpoint keeps of what arrives, and what the
//! two endpoints of a connection receive.

ghost use Rattle.std.specs.Prelude.{ℕ, ◌≡◌, ◌↔◌, ◌⊎◌, ◌≤◌, ◌<◌, ◌+◌, ◌^◌, List, length, take, Some, slice_get};
ghost use Rattle.std.specs.FinMap as map;
ghost use Rattle.tcp_seq.specs.declared.rules.AckKind.{AckKind};
ghost use Rattle.tcp_seq.specs.Numbers.{number, plus, offset_from};
ghost use Rattle.tcp_seq.specs.Rules.{Acceptable, IsAck, AcceptableOffset, IsOffsetAck, IsInStream};
ghost use Rattle.tcp_seq.specs.Endpoint.{Endpoint, PlacedSegment, Bytes, bytes_in_order, IsReceived, received};
ghost use Rattle.tcp_seq.specs.Endpoint.{received_bytes, fresh_endpoint, IsInStreams, SendsBytes, ReadsBytes};
ghost use Rattle.tcp_seq.specs.Endpoint.{TakesSegment, IsTaken, EmitsNext, EmitsAgain, EmitsSlice, EmitsEmpty};
ghost use Rattle.tcp_seq.specs.Placed.{placed};
ghost use Rattle.tcp_seq.specs.declared.segment.Segment.{Segment};
ghost use Rattle.tcp_seq.specs.Connection.{Connection, fresh_connection, ConnectionStep, ConnectionRun, IsConnection, IsEmittedBy, AreLinked, StaysLinked};

/// The number `n` after an offset's number is the number of the offset `n` further on, and the offset of a
/// later offset's number is the distance of the offsets.
pub fn numbers_by_offsets()
    ensures on { (first offset n : ℕ) → plus (number first offset) n ≡ number first (offset + n) }
    ensures apart { (first offset n : ℕ) → n < 2 ^ 32 → offset_from (number first (offset + n)) (number first offset) ≡ n }
{}

/// A segment has the numbers of the offsets at which it is placed, and of no other offsets in streams of
/// at most 1 MiB or in a window at their end.
pub fn a_segment_has_its_offsets()
    ensures numbers { (seq_first ack_first : ℕ) (g : Segment) → seq_first < 2 ^ 32 → ack_first < 2 ^ 32 → g.seq.0 < 2 ^ 32 → g.ack.0 < 2 ^ 32
        → (g.seq.0 ≡ number seq_first (placed seq_first ack_first g).offset) × (g.ack.0 ≡ number ack_first (placed seq_first ack_first g).ack) }
    ensures one { (seq_first ack_first : ℕ) (g : Segment) (p : PlacedSegment) → seq_first < 2 ^ 32
        → ack_first < 2 ^ 32 → g.seq.0 < 2 ^ 32 → g.ack.0 < 2 ^ 32 → IsInStreams p
        → g.seq.0 ≡ number seq_first p.offset → g.ack.0 ≡ number ack_first p.ack → g.bytes ≡ p.bytes → p ≡ placed seq_first ack_first g }
{}

/// For streams of at most 1 MiB the check by numbers agrees with the check by offsets, however old the
/// segment is.
pub fn acceptance_by_offsets()
    ensures { (first next window offset len : ℕ) → IsInStream next → IsInStream offset → window < 2 ^ 16 → len < 2 ^ 16
        → Acceptable (number first next) window (number first offset) len ↔ AcceptableOffset next window offset len }
{}

/// For streams of at most 1 MiB what an acknowledgement says by numbers is what it says by offsets,
/// however old it is.
pub fn acknowledgement_by_offsets()
    ensures { (kind : AckKind) (first acked emitted ack : ℕ) → acked ≤ emitted → IsInStream emitted → IsInStream ack
        → IsAck kind (number first acked) (number first emitted) (number first ack) ↔ IsOffsetAck kind acked emitted ack }
{}

/// The received length is the greatest n such that all offsets below n have a byte, and the received bytes
/// are theirs.
pub fn received_is_greatest()
    ensures length { (arrived : Bytes) → IsReceived arrived (length (bytes_in_order arrived)) }
    ensures bytes { (arrived : Bytes) (k : ℕ) → k < length (bytes_in_order arrived) → slice_get (bytes_in_order arrived) k ≡ map.get arrived k }
{}

/// For every segment that arrives, an offset that has a byte keeps it, and what was received before is
/// the first part of what is received after.
pub fn an_offset_keeps_its_byte()
    ensures byte { (before after : Endpoint) (segment : PlacedSegment) (offset byte : ℕ)
        → TakesSegment before segment after → map.get before.arrived offset ≡ Some byte → map.get after.arrived offset ≡ Some byte }
    ensures received { (before after : Endpoint) (segment : PlacedSegment)
        → TakesSegment before segment after → received_bytes before ≡ take (received before) (received_bytes after) }
{}

/// A segment that arrives leaves exactly one endpoint.
pub fn a_segment_leaves_one_endpoint()
    ensures some { (before : Endpoint) (segment : PlacedSegment) → IsTaken before segment }
    ensures one { (before a b : Endpoint) (segment : PlacedSegment) → TakesSegment before segment a → TakesSegment before segment b → a ≡ b }
{}

/// The slice that is emitted next, and the one that a retransmission turn emits again, are slices that
/// may be emitted.
pub fn emitted_slices_may_be_emitted()
    ensures next { (before after : Endpoint) (segment : PlacedSegment)
        → before.acked ≤ before.emitted → EmitsNext before segment after → EmitsSlice before segment after }
    ensures again { (before after : Endpoint) (segment : PlacedSegment) → before.emitted ≤ length before.stream
        → before.emitted ≤ before.acked + 15360 → EmitsAgain before segment after → EmitsSlice before segment after }
{}

/// Two endpoints stay linked, whatever one of them does: it sends or reads bytes, emits a segment, or
/// takes a segment that the other emitted, however old. Segments that are lost, delayed or reordered
/// are still slices of their stream, and their offsets are those of streams of at most 1 MiB.
pub fn ends_stay_linked()
    ensures fresh { AreLinked fresh_endpoint fresh_endpoint }
    ensures turned { (x y : Endpoint) → AreLinked x y → AreLinked y x }
    ensures sends { (x after y : Endpoint) (bytes : List ℕ) → AreLinked x y → SendsBytes x bytes after → StaysLinked x after y }
    ensures emits { (x after y : Endpoint) (segment : PlacedSegment)
        → AreLinked x y → EmitsSlice x segment after ⊎ EmitsEmpty x segment after → StaysLinked x after y × IsEmittedBy after segment }
    ensures reads { (x after y : Endpoint) (n : ℕ) → AreLinked x y → ReadsBytes x n after → StaysLinked x after y }
    ensures takes { (x after y : Endpoint) (segment : PlacedSegment)
        → AreLinked x y → IsEmittedBy y segment → TakesSegment x segment after → StaysLinked x after y }
    ensures in_streams { (x y : Endpoint) (segment : PlacedSegment) → AreLinked x y → IsEmittedBy x segment → IsInStreams segment }
{}

/// Two endpoints are joined only by the segments that each of them ever emitted. These arrive in any
/// order, any number of times or never. In every connection that comes about from two fresh endpoints,
/// the bytes that each endpoint received are the first bytes that the other sent, and at most those
/// that the other emitted. At most as many bytes count as acknowledged as the other endpoint received.
pub fn connection_carries_streams()
    ensures fresh { IsConnection fresh_connection }
    ensures step { (before after : Connection) → IsConnection before → ConnectionStep before after → IsConnection after }
    ensures run { (states : List Connection) (last : Connection) → ConnectionRun fresh_connection states last → IsConnection last }
{}
