//! The segments of a session: arriving and emitted.

ghost use Rattle.std.specs.Prelude.{◌≡◌, ◌<◌, ◌≤◌, ◌+◌, ◌^◌, ◌↔◌, ◌⊎◌, length, min, true, IsNone, IsSome, IfNone, IfOk, OnOk};
ghost use Rattle.tcp_seq.specs.declared.segment.Way.TheVariants as ways;
ghost use Rattle.tcp_seq.specs.Endpoint.{Endpoint, PlacedSegment, EmitsNext, EmitsAgain, EmitsAnswer, EmitsSlice, IsInStreams, next_length, again_length};
ghost use Rattle.tcp_end.specs.Emitting.{EmitsPart};
ghost use Rattle.bgp_session.specs.Steps.{SegmentArrives, SessionEmitsIfAny, received_as};
ghost use Rattle.bgp_session.specs.Inner.{SessionInvariant, running, value_of};

use crate::parts::Parts;
use bgp_types::NoMemory;
use tcp_end::Arrival;
use tcp_seq::Segment;

impl Parts {
    /// Takes a segment that arrives.
    pub(crate) fn arrive(&mut self, segment: &Segment) -> Result<Arrival, NoMemory>
        requires keeps { SessionInvariant self.old }
        requires peering { segment.now.peering ≡ self.old.config.peering }
        requires way { segment.now.way ≡ ways.Home }
        requires len { length segment.now.bytes < 2 ^ 16 }
        requires in_streams { IsInStreams (received_as self.old.config segment.now) }
        ensures arrives { IfOk result (λ arrival. SegmentArrives arrival (running self.old) segment.now (running self.new)) }
        ensures keeps { SessionInvariant self.new }
    {
        let _seq = segment.seq.0;
        let _ack = segment.ack.0;
        self.end.arrive(segment)
    }

    /// Emits the next bytes that were never emitted.
    pub(crate) fn next_segment(&mut self) -> Result<Option<Segment>, NoMemory>
        requires { SessionInvariant self.old }
        ensures none { IfOk result (λ answer. IsNone answer ↔ (next_length (value_of self.old).end ≡ 0)) }
        ensures all { IfOk result (λ answer.
            IfNone answer ((value_of self.old).end.emitted ≡ min (length (value_of self.old).end.stream) ((value_of self.old).end.acked + 15360))) }
        ensures step { IfOk result (λ answer. SessionEmitsIfAny EmitsNext (value_of self.old) answer (value_of self.new)) }
        ensures slice { IfOk result (λ answer. SessionEmitsIfAny EmitsSlice (value_of self.old) answer (value_of self.new)) }
        ensures same_turn { OnOk result (self.new.end.acked_at_turn ≡ self.old.end.acked_at_turn) }
        ensures keeps { SessionInvariant self.new }
    {
        self.end.next_segment()
    }

    /// Emits the slice that a caller names, if there may be one.
    pub(crate) fn emit_at(&mut self, from: u32, len: u32) -> Result<Option<Segment>, NoMemory>
        requires { SessionInvariant self.old }
        ensures emits { IfOk result (λ answer. SessionEmitsIfAny (EmitsPart from len) (value_of self.old) answer (value_of self.new)) }
        ensures refused { IfOk result (λ answer.
            IfNone answer ((segment : PlacedSegment) (after : Endpoint) → ¬ EmitsPart from len (value_of self.old).end segment after)) }
        ensures same_turn { OnOk result (self.new.end.acked_at_turn ≡ self.old.end.acked_at_turn) }
        ensures keeps { SessionInvariant self.new }
    {
        self.end.emit_at(from, len)
    }

    /// Makes a retransmission turn.
    pub(crate) fn turn(&mut self) -> Result<Option<Segment>, NoMemory>
        requires { SessionInvariant self.old }
        ensures none { IfOk result
            (λ answer. IsNone answer ↔ ((again_length (value_of self.old).end ≡ 0) ⊎ (self.old.end.acked_at_turn < (value_of self.old).end.acked))) }
        ensures step { IfOk result (λ answer. SessionEmitsIfAny EmitsAgain (value_of self.old) answer (value_of self.new)) }
        ensures slice { IfOk result (λ answer. SessionEmitsIfAny EmitsSlice (value_of self.old) answer (value_of self.new)) }
        ensures within { (value_of self.old).end.emitted ≤ length (value_of self.old).end.stream }
        ensures turned { OnOk result (self.new.end.acked_at_turn ≡ (value_of self.old).end.acked) }
        ensures keeps { SessionInvariant self.new }
    {
        self.end.turn()
    }

    /// Emits the acknowledgement that is owed.
    pub(crate) fn answer(&mut self) -> Option<Segment>
        requires { SessionInvariant self.old }
        ensures some { IsSome result ↔ ((value_of self.old).end.owed ≡ true) }
        ensures step { SessionEmitsIfAny EmitsAnswer (value_of self.old) result (value_of self.new) }
        ensures same_turn { self.new.end.acked_at_turn ≡ self.old.end.acked_at_turn }
        ensures keeps { SessionInvariant self.new }
    {
        self.end.answer()
    }
}
