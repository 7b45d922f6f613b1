//! Sessions.

ghost use Rattle.std.specs.Prelude.{ℕ, ◌≡◌, ◌<◌, ◌≤◌, ◌^◌, ◌↔◌, ◌⊎◌, ◌+◌, length, min, true, IsTrue, IsNone, IsSome, IfNone, IfOk, OnOk, MatchBool};
ghost use Rattle.std.specs.Option.{option_map};
ghost use Rattle.bgp_types.specs.declared.message.SessionState.TheVariants as states;
ghost use Rattle.tcp_seq.specs.declared.segment.Way.TheVariants as ways;
ghost use Rattle.tcp_seq.specs.Endpoint.{Endpoint, PlacedSegment, EmitsNext, EmitsAgain, EmitsAnswer, EmitsSlice, IsInStreams, again_length, next_length};
ghost use Rattle.tcp_end.specs.Emitting.{EmitsPart};
ghost use Rattle.bgp_story.specs.Legal.{IsPeering, IsOneWay, is_wide};
ghost use Rattle.session_value.specs.Sessions.{state, hold_time, peering_of, begun};
ghost use Rattle.session_value.specs.Cases.{Changes, PutsUpdate};
ghost use Rattle.session_value.specs.Ties.{IsTied};
ghost use Rattle.bgp_session.specs.Fronts.{CanRead, CantRead};
ghost use Rattle.bgp_session.specs.Steps.{ReadsFrameIfAny, MayPass, SessionTicks, SessionEmitsIfAny, SegmentArrives};
ghost use Rattle.bgp_session.specs.Steps.{identifier_of, offered_length, received_as, remote_open};
ghost use Rattle.bgp_session.specs.Steps.{IsEndFor, PassesIfItMay, with_end};

use crate::answers::{OfferStop, ReadStep, TickStep};
use crate::begin::first_parts;
use crate::moving::FrozenSession;
use crate::parts::Parts;
use adj_rib::AdjRib;
use bgp_story::Story;
use bgp_types::{NoMemory, SessionState, Update};
use session_value::SessionConfig;
use std::alloc::Global;
use std::marker::Model;
use tcp_end::{Arrival, EndState};
use tcp_seq::Segment;

/// A home session, in one box. Contracts see it as one value: its configuration, its story, the routes that it heard
/// and told, and its endpoint over whole numbers, whose stream is what the story put, and which has read what the story
/// got. They also see how much was acknowledged at the last retransmission turn.
///
/// A call that returns `NoMemory` may have done part of its work. The session can then only be dropped.
#[derive(Drop)]
pub struct Session {
    parts: Box<Parts>,
}

impl Model for Session {
    ghost use Rattle.bgp_session.specs.Running.{RunningSession};
    ghost use Rattle.bgp_session.specs.Codes.{coded_running};

    ghost Value = { RunningSession };

    ghost coded = { coded_running };

    ghost use Rattle.bgp_session.specs.Inner.{running, SessionInvariant};

    ghost view = { λ session. running session.parts.value };

    ghost invariant = { λ session. SessionInvariant session.parts.value };
}

impl Session {
    /// Returns a session that has put its OPEN and emitted nothing. The configuration must give an OPEN that a home
    /// side may put, and an AS of the remote: hold time 0 or at least 3 seconds, the address of a host as identifier,
    /// and AS numbers from 1 on (RFC 4271, section 4.2; RFC 7607).
    pub fn begin(alloc: Global, config: SessionConfig) -> Result<Session, NoMemory>
        requires { IsPeering (peering_of config) }
        ensures { IfOk result (λ session. session ≡ record { session = begun config; acked_at_turn = 0 }) }
    {
        let parts = Box::new(alloc, first_parts(alloc, config)?)?;
        Ok(Session { parts })
    }

    /// Takes an arriving segment. It must be of this peering and on its way home, have at most 65,535 bytes, and have
    /// sequence numbers within streams of at most 1 MiB or a window at their end.
    pub fn arrive(&mut self, segment: &Segment) -> Result<Arrival, NoMemory>
        requires peering { segment.now.peering ≡ self.old.session.config.peering }
        requires way { segment.now.way ≡ ways.Home }
        requires len { length segment.now.bytes < 2 ^ 16 }
        requires in_streams { IsInStreams (received_as self.old.session.config segment.now) }
        ensures { IfOk result (λ arrival. SegmentArrives arrival self.old segment.now self.new) }
    {
        self.parts.arrive(segment)
    }

    /// Reads one message, or a faulty header, and answers it (RFC 4271, sections 6 and 8.2.2). Returns `None` if the
    /// session is closed, or if the unread bytes begin with neither a whole message nor a faulty header.
    pub fn read(&mut self) -> Result<Option<ReadStep>, NoMemory>
        ensures { IfOk result (λ step. ReadsFrameIfAny step self.old self.new) }
    {
        self.parts.read()
    }

    /// Puts an UPDATE. It must either withdraw or announce, be writable in the session's width of AS numbers, and
    /// change what was told for each of its prefixes. The session must be established.
    pub fn offer(&mut self, update: Update) -> Result<(), OfferStop>
        requires established { state self.old.session ≡ states.Established }
        requires one_way { IsOneWay update (is_wide (peering_of self.old.session.config) self.old.session.story) }
        requires changes { Changes self.old.session.adj_rib_out update }
        ensures ok { OnOk result (PutsUpdate self.old.session update self.new.session) }

        // The stream is full exactly where it would pass 1,044,480 bytes. Then the error has that length, and nothing
        // changes.
        ensures full { 1044480 < offered_length self.old.session update → result ≡ Err (OfferStop.StreamFull (offered_length self.old.session update)) }
        ensures only_full { (n : ℕ) → result ≡ Err (OfferStop.StreamFull n)
            → (n ≡ offered_length self.old.session update) × (1044480 < n) × (self.new ≡ self.old) }
        ensures same_turn { OnOk result (self.new.acked_at_turn ≡ self.old.acked_at_turn) }
    {
        self.parts.offer(update)
    }

    /// Returns whether a round of this number may pass: the session is in OpenConfirm or Established and has a hold
    /// time, the number is above that of each round that passed, and at most 1,044,461 bytes were put.
    pub fn may_pass(&self, round: u32) -> bool
        ensures { MatchBool result (MayPass self.now.session round) (¬ MayPass self.now.session round) }
    {
        self.parts.may_pass(round)
    }

    /// Lets a round of one second pass (RFC 4271, sections 4.4, 6.5 and 10). It must be one that may pass.
    pub fn tick(&mut self, round: u32) -> Result<TickStep, NoMemory>
        requires { MayPass self.old.session round }
        ensures { IfOk result (λ step. SessionTicks step self.old round self.new) }
    {
        self.parts.tick(round)
    }

    /// Emits the next bytes of the stream that were never emitted: at most 1,024, and no more than the flight of 15,360
    /// bytes leaves room for. Returns `None` if all that may be emitted was emitted.
    pub fn next_segment(&mut self) -> Result<Option<Segment>, NoMemory>
        ensures none { IfOk result (λ answer. IsNone answer ↔ (next_length self.old.session.end ≡ 0)) }
        ensures all { IfOk result
            (λ answer. IfNone answer (self.old.session.end.emitted ≡ min (length self.old.session.end.stream) (self.old.session.end.acked + 15360))) }
        ensures step { IfOk result (λ answer. SessionEmitsIfAny EmitsNext self.old.session answer self.new.session) }
        ensures slice { IfOk result (λ answer. SessionEmitsIfAny EmitsSlice self.old.session answer self.new.session) }
        ensures same_turn { OnOk result (self.new.acked_at_turn ≡ self.old.acked_at_turn) }
    {
        self.parts.next_segment()
    }

    /// Emits the slice of `len` bytes from an offset of the stream on, which may have been emitted before, or a segment
    /// without bytes at the offset that is emitted next. Returns `None` where the stream and the flight allow no such
    /// segment; then nothing changes.
    pub fn emit_at(&mut self, from: u32, len: u32) -> Result<Option<Segment>, NoMemory>
        ensures emits { IfOk result (λ answer. SessionEmitsIfAny (EmitsPart from len) self.old.session answer self.new.session) }
        ensures refused { IfOk result (λ answer.
            IfNone answer ((segment : PlacedSegment) (after : Endpoint) → ¬ EmitsPart from len self.old.session.end segment after)) }
        ensures same_turn { OnOk result (self.new.acked_at_turn ≡ self.old.acked_at_turn) }
    {
        self.parts.emit_at(from, len)
    }

    /// Makes a retransmission turn: emits the first 1,024 outstanding bytes again, or all if there are fewer, unless
    /// some were acknowledged since the last turn.
    pub fn turn(&mut self) -> Result<Option<Segment>, NoMemory>
        ensures none { IfOk result
            (λ answer. IsNone answer ↔ ((again_length self.old.session.end ≡ 0) ⊎ (self.old.acked_at_turn < self.old.session.end.acked))) }
        ensures step { IfOk result (λ answer. SessionEmitsIfAny EmitsAgain self.old.session answer self.new.session) }
        ensures slice { IfOk result (λ answer. SessionEmitsIfAny EmitsSlice self.old.session answer self.new.session) }
        ensures within { self.old.session.end.emitted ≤ length self.old.session.end.stream }
        ensures turned { OnOk result (self.new.acked_at_turn ≡ self.old.session.end.acked) }
    {
        self.parts.turn()
    }

    /// Emits the acknowledgement that is owed: a segment without bytes, at the next sequence number to be emitted. It
    /// takes no memory.
    pub fn answer(&mut self) -> Option<Segment>
        ensures some { IsSome result ↔ (self.old.session.end.owed ≡ true) }
        ensures step { SessionEmitsIfAny EmitsAnswer self.old.session result self.new.session }
        ensures same_turn { self.new.acked_at_turn ≡ self.old.acked_at_turn }
    {
        self.parts.answer()
    }

    /// Returns the state of the session (RFC 4271, section 8.2.2).
    pub fn state(&self) -> SessionState
        ensures { result ≡ state self.now.session }
    {
        self.parts.story.state()
    }

    /// Returns the Adj-RIB-In: the routes that were heard and not withdrawn.
    pub fn heard(&self) -> &AdjRib
        ensures { result.now ≡ self.now.session.adj_rib_in }
    {
        &self.parts.adj_rib_in
    }

    /// Returns the Adj-RIB-Out: the routes that were told and not withdrawn.
    pub fn told(&self) -> &AdjRib
        ensures { result.now ≡ self.now.session.adj_rib_out }
    {
        &self.parts.adj_rib_out
    }

    /// Returns the story, to which the endpoint is tied.
    pub fn story(&self) -> &Story
        ensures story { result.now ≡ record { lines = self.now.session.story; remote_as = self.now.session.config.remote_as } }
        ensures tied { IsTied self.now.session }
    {
        &self.parts.story
    }

    /// Consumes the session, and returns its story. It takes no memory.
    pub fn into_story(self) -> Story
        ensures { result ≡ record { lines = self.session.story; remote_as = self.session.config.remote_as } }
    {
        let Session { parts } = self;
        let Parts { story, .. } = Box::into_inner(parts);
        story
    }

    /// Returns the configuration with which the session began.
    pub fn config(&self) -> &SessionConfig
        ensures { result.now ≡ self.now.session.config }
    {
        &self.parts.config
    }

    /// Returns the number of bytes that were put.
    pub fn put_len(&self) -> u32
        ensures { result ≡ length self.now.session.end.stream }
    {
        self.parts.end.stream_len()
    }

    /// Returns whether all bytes that were put are acknowledged.
    pub fn all_acked(&self) -> bool
        ensures { IsTrue result ↔ (self.now.session.end.acked ≡ length self.now.session.end.stream) }
    {
        self.parts.end.acked() == self.parts.end.stream_len()
    }

    /// Returns whether `read` has something to read.
    pub fn frame_waits(&self) -> bool
        ensures { MatchBool result (CanRead self.now.session) (CantRead self.now.session) }
    {
        self.parts.frame_waits()
    }

    /// Returns whether AS numbers have four octets: both sides offered the capability (RFC 6793, section 4.1).
    pub fn wide(&self) -> bool
        ensures { result ≡ is_wide (peering_of self.now.session.config) self.now.session.story }
    {
        self.parts.wide()
    }

    /// Returns the hold time in seconds, the smaller of the two that the OPENs offer (RFC 4271, section 4.2). 0 means
    /// that there is none, or that the remote's OPEN was not received yet.
    pub fn hold(&self) -> u32
        ensures { result ≡ hold_time self.now.session }
    {
        self.parts.hold()
    }

    /// Returns the BGP Identifier of the remote, once its OPEN was received.
    pub fn remote_identifier(&self) -> Option<u32>
        ensures { result ≡ option_map identifier_of (remote_open self.now.session) }
    {
        self.parts.remote_identifier()
    }

    /// Returns a copy of the state of the session's end, as it would be handed over.
    pub fn end_state(&self) -> Result<EndState, NoMemory>
        ensures end { IfOk result (λ end. IsEndFor self.now.session end) }
        ensures whole { IfOk result (λ end. self.now ≡ with_end self.now.session end) }
    {
        self.parts.end_state()
    }

    /// Sets the session's end, when the session is made again. The end must be of the session's connection, send what
    /// the session has put, and have read what the session has got.
    pub fn set_end(&mut self, end: EndState)
        requires { IsEndFor self.old.session end }
        ensures { self.new ≡ with_end self.old.session end }
    {
        self.parts.set_end(end);
    }

    /// Lets a round pass, when the session is made again. Unlike with `may_pass`, there needs to be room only for what
    /// the round puts. Returns false if the round may not pass, and then nothing changes.
    pub fn pass_again(&mut self, round: u32) -> Result<bool, NoMemory>
        ensures { IfOk result (λ passed. PassesIfItMay passed self.old round self.new) }
    {
        self.parts.pass_again(round)
    }

    /// Freezes an established session: from then on it can only leave. It takes no memory.
    pub fn freeze(self) -> FrozenSession
        requires { state self.session ≡ states.Established }
        ensures { result ≡ self }
    {
        FrozenSession::of(self)
    }
}
