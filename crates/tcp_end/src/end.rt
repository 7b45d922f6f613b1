//! The endpoint of a connection.

ghost use Rattle.std.specs.Prelude.{ℕ, ◌≡◌, ◌≢◌, ◌<◌, ◌≤◌, ◌+◌, ◌-◌, ◌^◌, ◌↔◌, ◌⊎◌, ◌++◌, max, length, take, drop, true, false};
ghost use Rattle.std.specs.Prelude.{IsTrue, IsNone, IsSome, IfNone, IfSome, IfOk, OnOk, OnErr, nat_lt, ◌||◌, if◌then◌else◌};
ghost use Rattle.tcp_seq.specs.Numbers.{plus};
ghost use Rattle.tcp_seq.specs.Rules.{IsInStream};
ghost use Rattle.tcp_seq.specs.Endpoint.{Endpoint, SendsBytes, EmitsNext, EmitsAgain, EmitsAnswer, ReadsBytes, fresh_endpoint};
ghost use Rattle.tcp_end.specs.Standing.{EndStands, StepsBy, EndEmitsBy, TakesBy};
ghost use Rattle.tcp_end.specs.Emitting.{CanEmit, IsSlice, IsEmptySlice, EmitsNone, EmitsPart, emitted_at};
ghost use Rattle.tcp_end.specs.Arriving.{IsArrival, ChangesByArrival, TakenIn, SaysAck};
ghost use Rattle.tcp_end.specs.State.{fresh_end, stream_length, unsent, outstanding, got, segment_at, end_next_length, end_again_length, IsSending, IsEndState};

use crate::ahead::{copied, count_from, raise, receive};
use crate::arrival::{Arrival, SendStop};
use graft_edge::{ByteQueue, Items, NoMemory, Octets, PeeringId};
use std::alloc::Global;
use std::marker::Model;
use tcp_reasm::{Reasm, WINDOW};
use tcp_seq::{AckKind, EndState, Segment, Seq, Way, acceptable, ack_kind};

/// The most bytes that may be outstanding.
const FLIGHT: u32 = 15_360;

/// The most bytes of a segment.
const PAYLOAD: u32 = 1_024;

/// The most bytes that a segment may have when it arrives.
pub const MOST_BYTES: usize = 65_535;

/// The most bytes of the stream that is sent.
const STREAM: usize = 1_048_576;

/// One end of a connection. Contracts see its state as it would be handed over, and the endpoint over
/// whole numbers that this state stands for.
#[derive(Debug, Drop)]
pub struct End {
    way: Way,
    peering: PeeringId,
    send_first: Seq,
    acked: u32,
    sent: u32,
    waiting: ByteQueue,
    receive_first: Seq,
    taken: u32,
    ready: ByteQueue,
    ahead: Reasm,
    acked_at_turn: u32,
    owed: bool,
}

impl Model for End {
    ghost use Rattle.tcp_seq.specs.declared.state.EndState.{EndState};

    ghost Value = { EndState };

    ghost use Rattle.tcp_end.specs.Inner.{end_state, EndInvariant};

    ghost view = { end_state };

    ghost invariant = { EndInvariant };
}

/// Whether an acknowledgement is owed after a segment with these bytes was accepted.
fn owes(owed: bool, bytes: &[u8]) -> bool
    ensures { result ≡ owed || nat_lt 0 (length bytes.now) }
{
    owed || !bytes.is_empty()
}

/// Returns what kind of segment was accepted.
fn taken_as(brings: bool, acked: u32) -> Arrival
    ensures { result ≡ (if brings || nat_lt 0 acked then Arrival.Accepted else Arrival.Duplicate) }
{
    if brings || acked > 0 {
        Arrival::Accepted
    } else {
        Arrival::Duplicate
    }
}

impl End {
    /// Returns an endpoint that sends to a side, with the numbers of the first byte that it sends and
    /// of the first byte that it receives.
    pub fn new(
        alloc: Global,
        way: Way,
        peering: PeeringId,
        send_first: Seq,
        receive_first: Seq,
    ) -> Result<End, NoMemory>
        ensures fresh { IfOk result (λ end. end ≡ fresh_end way peering send_first receive_first) }
        ensures stands { IfOk result (λ end. EndStands end fresh_endpoint) }
    {
        Ok(End {
            way,
            peering,
            send_first,
            acked: 0,
            sent: 0,
            waiting: ByteQueue::new(alloc),
            receive_first,
            taken: 0,
            ready: ByteQueue::new(alloc),
            ahead: Reasm::new(alloc, receive_first),
            acked_at_turn: 0,
            owed: false,
        })
    }

    /// Returns the side that it sends to.
    pub fn way(&self) -> Way
        ensures { result ≡ self.now.way }
    {
        self.way
    }

    /// Returns the peering that its connection belongs to.
    pub fn peering(&self) -> PeeringId
        ensures { result ≡ self.now.peering }
    {
        self.peering
    }

    /// Returns the length of the stream that it sends.
    pub fn stream_len(&self) -> u32
        ensures { result ≡ stream_length self.now }
    {
        self.acked + self.waiting.len() as u32
    }

    /// Returns how many bytes of the stream were emitted at least once.
    pub fn emitted(&self) -> u32
        ensures { result ≡ self.now.sent }
    {
        self.sent
    }

    /// Returns how many bytes of the stream were acknowledged.
    pub fn acked(&self) -> u32
        ensures { result ≡ self.now.acked }
    {
        self.acked
    }

    /// Adds bytes to the stream that it sends, which has at most 1,048,576. If that would be exceeded
    /// or memory runs out, nothing changes.
    pub fn send(&mut self, bytes: &[u8]) -> Result<(), SendStop>
        ensures ok { OnOk result (self.new ≡ record self.old { waiting = self.old.waiting ++ bytes.now }) }
        ensures fits { OnOk result (stream_length self.old + length bytes.now ≤ 2 ^ 20) }

        // It is full if and only if the stream would exceed its limit; then the length is reported.
        ensures full { 2 ^ 20 < stream_length self.old + length bytes.now → result ≡ Err (SendStop.Full (stream_length self.old + length bytes.now)) }
        ensures only_full { (n : ℕ) → result ≡ Err (SendStop.Full n) → (n ≡ stream_length self.old + length bytes.now) × (2 ^ 20 < n) }
        ensures err { OnErr result (self.new ≡ self.old) }
        ensures step { OnOk result (StepsBy (λ e e'. SendsBytes e bytes.now e') self.old self.new) }
    {
        let length = self.acked as usize + self.waiting.len() + bytes.len();
        if length > STREAM {
            return Err(SendStop::Full { length });
        }
        Ok(self.waiting.extend(bytes)?)
    }

    /// Removes the last `n` bytes of the stream, none of which was emitted, as if `send` hadn't been called
    /// with them.
    pub fn take_back(&mut self, n: usize)
        requires { n ≤ unsent self.old }
        ensures { self.new ≡ record self.old { waiting = take (length self.old.waiting - n) self.old.waiting } }
    {
        self.waiting.truncate(self.waiting.len() - n);
    }

    /// Returns the segment with `len` bytes from an offset of the stream on.
    fn segment_at(&self, offset: u32, len: u32) -> Result<Segment, NoMemory>
        requires from { self.now.acked ≤ offset }
        requires to { offset + len ≤ stream_length self.now }
        ensures { IfOk result (λ segment. segment ≡ segment_at self.now offset len) }
    {
        let from = (offset - self.acked) as usize;
        let bytes = &self.waiting.as_slice()[from..from + len as usize];
        Ok(Segment {
            peering: self.peering,
            way: self.way,
            seq: self.send_first.plus(offset),
            ack: self.ahead.next(),
            window: WINDOW as u16,
            bytes: Octets::from_slice(self.waiting.allocator(), bytes)?,
        })
    }

    /// Returns how many bytes the next slice has.
    fn next_len(&self) -> u32
        ensures { result ≡ end_next_length self.now }
    {
        let unsent = self.stream_len() - self.sent;
        let room = FLIGHT - (self.sent - self.acked);
        PAYLOAD.min(unsent.min(room))
    }

    /// Emits the next bytes that were never emitted: as many as there are and as fit in the flight of
    /// 15,360 outstanding bytes, at most 1,024. Returns `None` if there are none. If memory runs out,
    /// nothing changes.
    pub fn next_segment(&mut self) -> Result<Option<Segment>, NoMemory>
        ensures none { IfOk result (λ answer. IsNone answer ↔ ((unsent self.old ≡ 0) ⊎ (outstanding self.old ≡ 15360))) }
        ensures slice { IfOk result (λ answer. IfSome answer (λ segment. segment ≡ segment_at self.old self.old.sent (end_next_length self.old))) }
        ensures after { OnOk result (self.new ≡ record self.old { sent = self.old.sent + end_next_length self.old }) }
        ensures err { OnErr result (self.new ≡ self.old) }
        ensures step { IfOk result (λ answer. EndEmitsBy EmitsNext self.old answer self.new) }
    {
        let len = self.next_len();
        if len == 0 {
            return Ok(None);
        }
        let segment = self.segment_at(self.sent, len)?;
        self.sent += len;
        Ok(Some(segment))
    }

    /// Makes a retransmission turn: emits the first 1,024 outstanding bytes again, or all if there are
    /// fewer. Returns `None` if there are none, or if some were acknowledged since the last turn. If
    /// memory runs out, nothing changes.
    pub fn turn(&mut self) -> Result<Option<Segment>, NoMemory>
        ensures none { IfOk result (λ answer. IsNone answer ↔ ((outstanding self.old ≡ 0) ⊎ (self.old.acked_at_turn < self.old.acked))) }
        ensures slice { IfOk result (λ answer. IfSome answer (λ segment. segment ≡ segment_at self.old self.old.acked (end_again_length self.old))) }
        ensures after { OnOk result (self.new ≡ record self.old { acked_at_turn = self.old.acked }) }
        ensures err { OnErr result (self.new ≡ self.old) }
        ensures step { IfOk result (λ answer. EndEmitsBy EmitsAgain self.old answer self.new) }
    {
        let len = PAYLOAD.min(self.sent - self.acked);
        if len == 0 || self.acked_at_turn < self.acked {
            self.acked_at_turn = self.acked;
            return Ok(None);
        }
        Ok(Some(self.segment_at(self.acked, len)?))
    }

    /// Returns the acknowledgement that is owed, if one is: a segment without bytes, at the number that
    /// is sent next. It allocates nothing.
    pub fn answer(&mut self) -> Option<Segment>
        ensures some { IsSome result ↔ (self.old.owed ≡ true) }
        ensures empty { IfSome result (λ segment. segment ≡ segment_at self.old self.old.sent 0) }
        ensures after { self.new ≡ record self.old { owed = false } }
        ensures step { EndEmitsBy EmitsAnswer self.old result self.new }
    {
        if !self.owed {
            return None;
        }
        Some(self.emit_empty())
    }

    /// Emits the slice without bytes, at the offset that is emitted next. It allocates nothing.
    fn emit_empty(&mut self) -> Segment
        ensures empty { result ≡ segment_at self.old self.old.sent 0 }
        ensures after { self.new ≡ record self.old { owed = false } }
    {
        self.owed = false;
        Segment {
            peering: self.peering,
            way: self.way,
            seq: self.send_first.plus(self.sent),
            ack: self.ahead.next(),
            window: WINDOW as u16,
            bytes: Octets::new(self.waiting.allocator()),
        }
    }

    /// Emits a slice with bytes. If memory runs out, nothing changes.
    fn emit_slice(&mut self, from: u32, len: u32) -> Result<Segment, NoMemory>
        requires acked { self.old.acked ≤ from }
        requires within { from + len ≤ stream_length self.old }
        requires flight { from + len ≤ self.old.acked + 15360 }
        ensures slice { IfOk result (λ segment. segment ≡ segment_at self.old from len) }
        ensures after { OnOk result (self.new ≡ record self.old { sent = max self.old.sent (from + len) }) }
        ensures err { OnErr result (self.new ≡ self.old) }
    {
        let segment = self.segment_at(from, len)?;
        self.sent = self.sent.max(from + len);
        Ok(segment)
    }

    /// Whether it is the slice without bytes.
    fn is_empty_slice(&self, from: u32, len: u32) -> bool
        ensures { IsTrue result ↔ IsEmptySlice self.now from len }
    {
        from == self.sent && len == 0
    }

    /// Whether it is a slice with bytes that may be emitted.
    fn is_slice(&self, from: u32, len: u32) -> bool
        ensures { IsTrue result ↔ IsSlice self.now from len }
    {
        (self.acked..=self.sent).contains(&from)
            && (1..=PAYLOAD).contains(&len)
            && from + len <= self.stream_len().min(self.acked + FLIGHT)
    }

    /// Emits the slice of `len` bytes from an offset on, which may have been emitted before. One with
    /// bytes begins at an offset from the acknowledged to the emitted one, has at most 1,024 bytes, and
    /// ends within the stream and within the flight of 15,360 outstanding bytes. One without bytes
    /// stands at the offset that is emitted next, and no acknowledgement is owed after it. Returns
    /// `None` for any other offset and length, and then nothing changes. If memory runs out, nothing
    /// changes either.
    pub fn emit_at(&mut self, from: u32, len: u32) -> Result<Option<Segment>, NoMemory>
        ensures some { IfOk result (λ answer. IsSome answer ↔ CanEmit self.old from len) }
        ensures slice { IfOk result (λ answer. IfSome answer (λ segment. segment ≡ segment_at self.old from len)) }
        ensures after { IfOk result (λ answer. IfSome answer (λ _. self.new ≡ emitted_at self.old from len)) }
        ensures none { IfOk result (λ answer. IfNone answer (self.new ≡ self.old)) }
        ensures err { OnErr result (self.new ≡ self.old) }
        ensures step { IfOk result (λ answer. EndEmitsBy (EmitsPart from len) self.old answer self.new) }

        // None is the answer only where no endpoint that the end stands for emits such a segment.
        ensures refused { IfOk result (λ answer. IfNone answer (EmitsNone self.old from len)) }
    {
        if self.is_empty_slice(from, len) {
            return Ok(Some(self.emit_empty()));
        }
        if !self.is_slice(from, len) {
            return Ok(None);
        }
        Ok(Some(self.emit_slice(from, len)?))
    }

    /// Returns what an acknowledgement says of the bytes that were emitted.
    fn ack_kind(&self, segment: &Segment) -> AckKind
        ensures { SaysAck result self.now segment.now }
    {
        let una = self.send_first.plus(self.acked);
        ack_kind(una, self.send_first.plus(self.sent), segment.ack)
    }

    /// Accepts an acceptable segment, which newly acknowledges `acked` outstanding bytes. If memory
    /// runs out, nothing changes.
    fn take_in(&mut self, segment: &Segment, acked: u32) -> Result<Arrival, NoMemory>
        requires len { length segment.now.bytes < 2 ^ 16 }
        requires acked { acked ≤ outstanding self.old }
        ensures arrival { IfOk result (λ arrival. TakenIn arrival self.old segment.now acked self.new) }
        ensures at_rest { OnOk result (IsInStream (got self.new) → IsEndState self.new) }
        ensures err { OnErr result (self.new ≡ self.old) }
    {
        let bytes = segment.bytes.as_slice();
        let brings = receive(&mut self.ready, &mut self.ahead, segment.seq, bytes)?;
        self.waiting.drop_front(acked as usize);
        self.acked += acked;
        self.owed = owes(self.owed, bytes);
        Ok(taken_as(brings, acked))
    }

    /// Checks an arriving segment by its numbers, and accepts it or drops it. If memory runs out,
    /// nothing changes.
    fn arrive_by_numbers(&mut self, segment: &Segment) -> Result<Arrival, NoMemory>
        requires { length segment.now.bytes < 2 ^ 16 }
        ensures arrival { IfOk result (λ arrival. IsArrival arrival self.old segment.now) }
        ensures after { IfOk result (λ arrival. ChangesByArrival arrival self.old segment.now self.new) }
        ensures at_rest { OnOk result (IsInStream (got self.new) → IsEndState self.new) }
        ensures err { OnErr result (self.new ≡ self.old) }
    {
        let len = segment.bytes.len() as u32;
        if !acceptable(self.ahead.next(), WINDOW, segment.seq, len) {
            self.owed = true;
            return Ok(Arrival::Outside);
        }
        match self.ack_kind(segment) {
            AckKind::Beyond => {
                self.owed = true;
                Ok(Arrival::Ahead { ack: segment.ack })
            }
            AckKind::New => {
                let una = self.send_first.plus(self.acked);
                self.take_in(segment, segment.ack.offset_from(una))
            }
            AckKind::Old => self.take_in(segment, 0),
        }
    }

    /// Takes a segment that arrives. It has to be of this end's peering, sent to this end's side, with
    /// at most 65,535 bytes. A segment that isn't acceptable, or that acknowledges bytes that weren't
    /// emitted, is dropped. Of any other segment, the bytes in the window of 16,384 bytes from the one
    /// expected next on are kept, where an offset that has a byte keeps it, and a new acknowledgement
    /// counts. An acknowledgement is owed if the segment is dropped or has bytes (RFC 9293, section
    /// 3.10.7.4). If memory runs out, nothing changes.
    pub fn arrive(&mut self, segment: &Segment) -> Result<Arrival, NoMemory>
        requires peering { segment.now.peering ≡ self.old.peering }
        requires way { segment.now.way ≢ self.old.way }
        requires len { length segment.now.bytes < 2 ^ 16 }
        ensures arrival { IfOk result (λ arrival. IsArrival arrival self.old segment.now) }
        ensures after { IfOk result (λ arrival. ChangesByArrival arrival self.old segment.now self.new) }
        ensures err { OnErr result (self.new ≡ self.old) }
        ensures step { OnOk result (TakesBy self.old segment.now self.new) }
    {
        self.arrive_by_numbers(segment)
    }

    /// Returns the bytes that were received in order and not yet read.
    pub fn ready(&self) -> &[u8]
        ensures { result.now ≡ self.now.ready }
    {
        self.ready.as_slice()
    }

    /// Reads the first `n` ready bytes, of which there have to be as many. They are no longer ready.
    pub fn read(&mut self, n: usize)
        requires { n ≤ length self.old.ready }
        ensures after { self.new ≡ record self.old { taken = plus self.old.taken n; ready = drop n self.old.ready } }
        ensures step { StepsBy (λ e e'. ReadsBytes e n e') self.old self.new }
    {
        self.ready.drop_front(n);
        self.taken = self.taken.wrapping_add((n % (1 << 32)) as u32);
    }

    /// Returns a copy of the end's state at rest, as `export` gives it.
    pub fn state(&self) -> Result<EndState, NoMemory>
        ensures { IfOk result (λ state. state ≡ self.now) }
    {
        let alloc = self.waiting.allocator();
        let _first = self.receive_first.0;
        let mut pieces = copied(alloc, self.ahead.pieces())?;
        raise(
            &mut pieces,
            self.ahead.next().offset_from(self.receive_first),
        );
        Ok(EndState {
            way: self.way,
            peering: self.peering,
            send_first: self.send_first,
            acked: self.acked,
            sent: self.sent,
            waiting: Octets::from_slice(alloc, self.waiting.as_slice())?,
            receive_first: self.receive_first,
            taken: self.taken,
            ready: Octets::from_slice(alloc, self.ready.as_slice())?,
            ahead: Items::from_vec(pieces),
            acked_at_turn: self.acked_at_turn,
            owed: self.owed,
        })
    }

    /// Returns the end's state at rest, to be handed over. It allocates nothing.
    pub fn export(self) -> EndState
        ensures same { result ≡ self }
        ensures endpoint { (e : Endpoint) → EndStands self e → EndStands result e }

        // It can be imported, unless more was received than a stream of 1 MiB and its window have.
        ensures sending { IsSending result }
        ensures at_rest { IsInStream (got result) → IsEndState result }
    {
        let base = self.ahead.next().offset_from(self.receive_first);
        let End {
            way,
            peering,
            send_first,
            acked,
            sent,
            waiting,
            receive_first,
            taken,
            ready,
            ahead,
            acked_at_turn,
            owed,
        } = self;
        let mut pieces = ahead.into_pieces().into_vec();
        raise(&mut pieces, base);
        EndState {
            way,
            peering,
            send_first,
            acked,
            sent,
            waiting: waiting.into_octets(),
            receive_first,
            taken,
            ready: ready.into_octets(),
            ahead: Items::from_vec(pieces),
            acked_at_turn,
            owed,
        }
    }

    /// Returns the end that has this state. It allocates nothing. In the state `acked` is at most
    /// `sent`, which is at most the stream's length and at most `acked` plus 15,360. The stream has at
    /// most 1,048,576 bytes, and `acked_at_turn` is at most `acked`. At most 1,114,112 bytes were
    /// received, counting those that were read and those that are ready. Each piece of `ahead` has
    /// bytes, begins above the offset expected next and at or above the end of the piece before it, and
    /// ends at or below the 16,384th offset from the one expected next on.
    pub fn import(state: EndState) -> End
        requires { IsEndState state }
        ensures same { result ≡ state }
        ensures endpoint { (e : Endpoint) → EndStands state e → EndStands result e }
    {
        let EndState {
            way,
            peering,
            send_first,
            acked,
            sent,
            waiting,
            receive_first,
            taken,
            ready,
            ahead,
            acked_at_turn,
            owed,
        } = state;
        let got = taken + ready.len() as u32;
        let mut pieces = ahead.into_vec();
        count_from(&mut pieces, got);
        End {
            way,
            peering,
            send_first,
            acked,
            sent,
            waiting: ByteQueue::from_octets(waiting),
            receive_first,
            taken,
            ready: ByteQueue::from_octets(ready),
            ahead: Reasm::from_pieces(receive_first.plus(got), Items::from_vec(pieces)),
            acked_at_turn,
            owed,
        }
    }
}
