//! The remote: what it says, and its end of the connection.

ghost use Rattle.std.specs.Prelude.{◌≡◌, ◌<◌, ◌≤◌, ◌+◌, ◌^◌, ◌↔◌, ◌⊎◌, ◌++◌, length, false, IsTrue, IsNone, IfNone, IfOk, OnOk, MatchBool};
ghost use Rattle.tcp_seq.specs.Endpoint.{Endpoint, PlacedSegment, EmitsNext, EmitsAgain, EmitsAnswer, TakesSegment, fresh_endpoint, next_length, again_length, received_bytes};
ghost use Rattle.tcp_seq.specs.Placed.{placed};
ghost use Rattle.tcp_end.specs.Emitting.{EmitsPart};
ghost use Rattle.session_value.specs.Cases.{sending};
ghost use Rattle.graft_actors.specs.Emissions.{reach_of};
ghost use Rattle.remote_end.specs.Remotes.{IsFor, SendingInvariant, EmitsOf};

use graft_edge::{ByteQueue, NoMemory, Octets, PeeringId};
use std::alloc::Global;
use std::marker::Model;
use tcp_end::{End, MOST_BYTES};
use tcp_seq::{Segment, Seq, Way};

/// The most bytes that a remote says.
const MOST_SAID: usize = 1_048_576;

/// A scripted remote: all bytes that it said, and its end of the connection, of which it leaves all input unread.
/// Contracts see its endpoint over whole numbers.
#[derive(Drop)]
pub struct Remote {
    said: ByteQueue,
    end: End,
    // The initial sequence numbers of the remote and of its peer.
    send_first: Seq,
    receive_first: Seq,
}

impl Model for Remote {
    ghost use Rattle.remote_end.specs.Remotes.{RemoteValue, remote_code};

    ghost Value = { RemoteValue };

    ghost coded = { remote_code };

    ghost use Rattle.remote_end.specs.RemoteInner.{remote_of, RemoteInvariant};

    ghost view = { remote_of };

    ghost invariant = { RemoteInvariant };
}

impl Remote {
    /// Returns a remote of this peering that has said its opening, which must have at most 1,048,576 bytes.
    /// `send_first` and `receive_first` are the initial sequence numbers of the remote and of its peer.
    pub fn new(
        alloc: Global,
        peering: PeeringId,
        send_first: Seq,
        receive_first: Seq,
        opening: Octets,
    ) -> Result<Remote, NoMemory>
        requires { length opening ≤ 2 ^ 20 }
        ensures { IfOk result (λ remote. remote ≡ record {
          end = record fresh_endpoint { stream = opening };
          at_turn = 0;
          peering = peering.0;
          send_first = send_first.0;
          receive_first = receive_first.0;
        }) }
    {
        let mut end = End::new(alloc, Way::Home, peering, send_first, receive_first)?;
        match end.send(opening.as_slice()) {
            Ok(()) => Ok(Remote {
                said: ByteQueue::from_octets(opening),
                end,
                send_first,
                receive_first,
            }),
            Err(_) => Err(NoMemory),
        }
    }

    /// Returns whether it may say `len` more bytes.
    pub fn has_room(&self, len: usize) -> bool
        ensures { IsTrue result ↔ (length self.now.end.stream + len ≤ 2 ^ 20) }
    {
        len <= MOST_SAID && self.said.len() <= MOST_SAID - len
    }

    /// Says bytes, which must fit.
    pub fn say(&mut self, bytes: &[u8]) -> Result<(), NoMemory>
        requires { length self.old.end.stream + length bytes.now ≤ 2 ^ 20 }
        ensures { OnOk result (self.new ≡ record self.old { end = sending bytes.now self.old.end }) }
    {
        let len = self.said.len();
        self.said.extend(bytes)?;
        match self.end.send(bytes) {
            Ok(()) => Ok(()),
            Err(_) => {
                self.said.truncate(len);
                Err(NoMemory)
            }
        }
    }

    /// Returns whether a segment is for the remote: of its peering, sent to it, with at most 65,535 bytes, and with
    /// sequence numbers within the streams.
    pub fn is_for(&self, segment: &Segment) -> bool
        ensures { MatchBool result (IsFor self.now segment.now) (¬ IsFor self.now segment.now) }
    {
        segment.peering == self.end.peering()
            && segment.way == Way::Remote
            && segment.bytes.len() <= MOST_BYTES
            && segment.is_in_streams(self.receive_first, self.send_first)
    }

    /// Takes an arriving segment, which must be for the remote.
    pub fn arrive(&mut self, segment: Segment) -> Result<(), NoMemory>
        requires { IsFor self.old segment }
        ensures arrives { OnOk result (TakesSegment self.old.end (placed self.old.receive_first self.old.send_first segment) self.new.end) }
        ensures same { OnOk result (self.new ≡ record self.old { end = self.new.end }) }
    {
        self.end.arrive(&segment)?;
        Ok(())
    }

    /// Makes the retransmission turn of its end: emits the first outstanding slice again, unless something was
    /// acknowledged since the last turn.
    pub fn again(&mut self) -> Result<Option<Segment>, NoMemory>
        ensures none { IfOk result (λ answer. IsNone answer ↔ ((again_length self.old.end ≡ 0) ⊎ (self.old.at_turn < self.old.end.acked))) }
        ensures emits { IfOk result (λ answer. EmitsOf EmitsAgain self.old answer self.new.end) }
        ensures same { OnOk result (self.new ≡ record self.old { end = self.new.end; at_turn = self.old.end.acked }) }
        ensures sound { SendingInvariant self.old.end }
    {
        self.end.turn()
    }

    /// Emits the next slice that was never emitted.
    pub fn next(&mut self) -> Result<Option<Segment>, NoMemory>
        ensures none { IfOk result (λ answer. IsNone answer ↔ (next_length self.old.end ≡ 0)) }
        ensures sound { SendingInvariant self.old.end }
        ensures all { IfOk result (λ answer. IfNone answer (self.old.end.emitted ≡ reach_of self.old.end)) }
        ensures emits { IfOk result (λ answer. EmitsOf EmitsNext self.old answer self.new.end) }
        ensures same { OnOk result (self.new ≡ record self.old { end = self.new.end }) }
    {
        self.end.next_segment()
    }

    /// Emits the slice of `len` bytes from an offset on, which may have been emitted before, or a segment without bytes at
    /// the offset that is emitted next. Returns `None` where the stream and the flight allow no such segment.
    pub fn emit_at(&mut self, from: u32, len: u32) -> Result<Option<Segment>, NoMemory>
        ensures emits { IfOk result (λ answer. EmitsOf (EmitsPart from len) self.old answer self.new.end) }
        ensures refused { IfOk result (λ answer.
            IfNone answer ((segment : PlacedSegment) (after : Endpoint) → ¬ EmitsPart from len self.old.end segment after)) }
        ensures same { OnOk result (self.new ≡ record self.old { end = self.new.end }) }
    {
        self.end.emit_at(from, len)
    }

    /// Emits the acknowledgement that is owed.
    pub fn answer(&mut self) -> Option<Segment>
        ensures none { IsNone result ↔ (self.old.end.owed ≡ false) }
        ensures sound { SendingInvariant self.old.end }
        ensures emits { EmitsOf EmitsAnswer self.old result self.new.end }
        ensures same { self.new ≡ record self.old { end = self.new.end } }
    {
        self.end.answer()
    }

    /// Returns the offset in its stream that it emits next.
    pub fn emitted(&self) -> u32
        ensures { result ≡ self.now.end.emitted }
    {
        self.end.emitted()
    }

    /// Returns the number of bytes of its stream that were acknowledged.
    pub fn acked(&self) -> u32
        ensures { result ≡ self.now.end.acked }
    {
        self.end.acked()
    }

    /// Returns all bytes that it said.
    pub fn said(&self) -> &[u8]
        ensures { result.now ≡ self.now.end.stream }
    {
        self.said.as_slice()
    }

    /// Returns all bytes that it received in order.
    pub fn received(&self) -> &[u8]
        ensures { result.now ≡ received_bytes self.now.end }
    {
        self.end.ready()
    }
}
