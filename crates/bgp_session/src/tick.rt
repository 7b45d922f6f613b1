//! Rounds that pass while a hold time runs (RFC 4271, sections 4.4, 6.5 and 10).

ghost use Rattle.std.specs.Prelude.{◌≡◌, ◌+◌, ◌-◌, ◌++◌, ◌∷◌, [], false, IfOk, OnOk, OnErr, MatchBool};
ghost use Rattle.std.specs.List.{flat_map};
ghost use Rattle.bgp_types.specs.declared.message.Message.TheVariants as messages;
ghost use Rattle.bgp_types.specs.declared.message.SessionState.TheVariants as states;
ghost use Rattle.bgp_story.specs.declared.line.Line.TheVariants as lines;
ghost use Rattle.bgp_story.specs.Legal.{hold_expired, is_up as is_up_lem};
ghost use Rattle.bgp_story.specs.Readings.{put_in};
ghost use Rattle.bgp_story.specs.States.{answer_lines, state_of};
ghost use Rattle.bgp_session.specs.Steps.{MayPass, PassesIfItMay};
ghost use Rattle.bgp_session.specs.Inner.{AtRound, HasRoomAt, IsNext, PassedBy, SessionInvariant, round_reply, running, value_of};

use crate::answers::TickStep;
use crate::parts::{Parts, written};
use bgp_story::Line;
use bgp_types::{Message, NoMemory, Notice, Octets, SessionState};
use std::alloc::Global;

/// NOTIFICATION error code for Hold Timer Expired (RFC 4271, section 4.5).
const HOLD_EXPIRED: u8 = 4;

/// The limit of the bytes put when a round passes: a KEEPALIVE has 19, and at most 1,044,480 are put in all.
const MOST_PUT: u32 = 1_044_461;

/// Returns whether a hold time may run in a state.
fn is_up(state: SessionState) -> bool
    ensures { result ≡ is_up_lem state }
{
    match state {
        SessionState::OpenConfirm | SessionState::Established => true,
        SessionState::OpenSent | SessionState::Closed => false,
    }
}

/// Returns the NOTIFICATION that says Hold Timer Expired.
fn hold_over(alloc: Global) -> Notice
    ensures { result ≡ hold_expired }
{
    Notice {
        code: HOLD_EXPIRED,
        subcode: 0,
        info: Octets::new(alloc),
    }
}

impl Parts {
    /// Adds a round with its answer to the story, and sends the answer. If memory runs out, nothing changes.
    fn pass_down(&mut self, round: u32, answer: Option<Message>) -> Result<(), NoMemory>
        requires at { AtRound self.old round }
        requires reply { (round_reply self.old round).0 ≡ answer_lines answer }
        ensures ok { OnOk result (self.new ≡ record self.old {
          story = record self.old.story { lines = self.old.story.lines ++ lines.Tick round ∷ answer_lines answer };
          end = record self.old.end { waiting = self.old.end.waiting ++ flat_map (put_in false) (answer_lines answer) };
          left = self.old.left - 1;
          next_round = round + 1;
        }) }
        ensures err { OnErr result (self.new ≡ self.old) }
    {
        let octets = written(self.alloc, &answer)?;
        self.write_down(octets.as_slice(), Line::Tick(round), answer)?;
        self.left = self.left.saturating_sub(1);
        self.next_round = u64::from(round) + 1;
        Ok(())
    }

    /// Puts the NOTIFICATION for an expired hold time, and closes the session.
    fn expire(&mut self, round: u32) -> Result<TickStep, NoMemory>
        requires at { AtRound self.old round }
        requires reply { round_reply self.old round ≡ (lines.Put (messages.NoticeMsg hold_expired) ∷ [], states.Closed) }
        ensures step { IfOk result (λ step. PassedBy step (running self.old) round (running self.new)) }
        ensures keeps { SessionInvariant self.new }
    {
        let heard = self.adj_rib_in.prefixes()?;
        let notice = hold_over(self.alloc);
        self.pass_down(round, Some(Message::NoticeMsg(notice)))?;
        self.drop_routes();
        Ok(TickStep::Expired(heard))
    }

    /// Puts a KEEPALIVE.
    fn send_keepalive(&mut self, round: u32) -> Result<TickStep, NoMemory>
        requires at { AtRound self.old round }
        requires reply { round_reply self.old round ≡ (lines.Put messages.KeepaliveMsg ∷ [], state_of self.old.story.lines) }
        ensures step { IfOk result (λ step. PassedBy step (running self.old) round (running self.new)) }
        ensures keeps { SessionInvariant self.new }
    {
        self.pass_down(round, Some(Message::KeepaliveMsg))?;
        Ok(TickStep::Beat)
    }

    /// Puts nothing.
    fn pass(&mut self, round: u32) -> Result<TickStep, NoMemory>
        requires at { AtRound self.old round }
        requires reply { round_reply self.old round ≡ ([], state_of self.old.story.lines) }
        ensures step { IfOk result (λ step. PassedBy step (running self.old) round (running self.new)) }
        ensures keeps { SessionInvariant self.new }
    {
        self.pass_down(round, None)?;
        Ok(TickStep::Plain)
    }

    /// Returns whether a hold time runs, and the number is above that of each round that passed.
    fn is_next(&self, round: u32) -> bool
        requires { SessionInvariant self.now }
        ensures { MatchBool result (IsNext self.now round) (¬ IsNext self.now round) }
    {
        if !is_up(self.story.state()) {
            return false;
        }
        if self.hold_so_far() == 0 {
            return false;
        }
        u64::from(round) >= self.next_round
    }

    /// Returns whether a round of this number may pass.
    pub(crate) fn may_pass(&self, round: u32) -> bool
        requires { SessionInvariant self.now }
        ensures { MatchBool result (MayPass (value_of self.now) round) (¬ MayPass (value_of self.now) round) }
    {
        if !self.is_next(round) {
            return false;
        }
        self.end.stream_len() <= MOST_PUT
    }

    /// Returns whether there is room for what the round puts.
    fn has_room_at(&self, round: u32) -> bool
        requires keeps { SessionInvariant self.now }
        requires next { IsNext self.now round }
        ensures { MatchBool result (HasRoomAt self.now round) (¬ HasRoomAt self.now round) }
    {
        if self.left == 1 {
            return true;
        }
        let keepalive_interval = self.hold_so_far() / 3;
        if round % keepalive_interval != 0 {
            return true;
        }
        self.end.stream_len() <= MOST_PUT
    }

    /// Lets a round pass, if it may by its number and there is room for what it puts.
    pub(crate) fn pass_again(&mut self, round: u32) -> Result<bool, NoMemory>
        requires { SessionInvariant self.old }
        ensures passes { IfOk result (λ passed. PassesIfItMay passed (running self.old) round (running self.new)) }
        ensures keeps { SessionInvariant self.new }
    {
        if !self.is_next(round) {
            return Ok(false);
        }
        if !self.has_room_at(round) {
            return Ok(false);
        }
        self.tick(round)?;
        Ok(true)
    }

    /// Lets a round pass.
    pub(crate) fn tick(&mut self, round: u32) -> Result<TickStep, NoMemory>
        requires { AtRound self.old round }
        ensures step { IfOk result (λ step. PassedBy step (running self.old) round (running self.new)) }
        ensures keeps { SessionInvariant self.new }
    {
        if self.left == 1 {
            return self.expire(round);
        }
        let keepalive_interval = self.hold_so_far() / 3;
        if round % keepalive_interval == 0 {
            self.send_keepalive(round)
        } else {
            self.pass(round)
        }
    }
}
