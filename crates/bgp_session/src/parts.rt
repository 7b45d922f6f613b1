//! The parts of a session, and how its story and its endpoint change together.

ghost use Rattle.std.specs.Prelude.{◌≡◌, ◌≤◌, ◌+◌, ◌^◌, ◌++◌, ◌∷◌, false, length, OnOk, OnErr, IfOk, IfSome};
ghost use Rattle.std.specs.List.{flat_map};
ghost use Rattle.std.specs.Option.{option_map};
ghost use Rattle.bgp_types.specs.Writable.{IsWritable};
ghost use Rattle.tcp_end.specs.State.{stream_length};
ghost use Rattle.bgp_story.specs.Legal.{expected_next, got_open, hold as hold_lem, is_wide};
ghost use Rattle.bgp_story.specs.Readings.{put_in};
ghost use Rattle.bgp_story.specs.States.{BeginsStory, answer_lines, state_of};
ghost use Rattle.session_value.specs.Sessions.{peering_of};

use adj_rib::AdjRib;
use bgp_story::{Line, Story};
use bgp_types::{Expected, Message, NoMemory, Octets};
use bgp_wire::write_message;
use session_value::SessionConfig;
use std::alloc::Global;
use tcp_end::{End, EndState, SendStop};

/// What the two OPENs settled, once the remote's was received.
#[derive(Clone, Copy, Debug)]
pub(crate) struct Opened {
    /// The BGP Identifier of the remote.
    pub identifier: u32,
    /// The hold time in seconds, the smaller of the two offered. 0 means that there is none.
    pub hold: u16,
    /// Whether AS numbers have four octets.
    pub wide: bool,
}

/// The parts of a session. How much was acknowledged and read is recorded in the story alone.
#[derive(Drop)]
pub(crate) struct Parts {
    pub alloc: Global,
    pub config: SessionConfig,
    pub story: Story,
    pub adj_rib_in: AdjRib,
    pub adj_rib_out: AdjRib,
    pub end: End,
    pub opened: Option<Opened>,
    /// The number of rounds left until the hold time expires.
    pub left: u32,
    /// The least number that the next round may have: above those of all rounds that passed.
    pub next_round: u64,
}

/// Sends octets for which the stream has room. If memory runs out, nothing changes.
pub(crate) fn send(end: &mut End, octets: &[u8]) -> Result<(), NoMemory>
    requires { stream_length end.old + length octets.now ≤ 2 ^ 20 }
    ensures ok { OnOk result (end.new ≡ record end.old { waiting = end.old.waiting ++ octets.now }) }
    ensures err { OnErr result (end.new ≡ end.old) }
{
    match end.send(octets) {
        Ok(()) => Ok(()),
        Err(SendStop::NoMemory) => Err(NoMemory),
        Err(SendStop::Full { .. }) => unreachable!(),
    }
}

/// Returns the octets of an answer, or none without one. They are the same in each width of AS numbers.
pub(crate) fn written(alloc: Global, answer: &Option<Message>) -> Result<Octets, NoMemory>
    requires { IfSome answer.now (λ message. IsWritable message false) }
    ensures { IfOk result (λ octets. octets ≡ flat_map (put_in false) (answer_lines answer.now)) }
{
    match answer {
        Some(message) => write_message(alloc, message, false),
        None => Ok(Octets::new(alloc)),
    }
}

impl Parts {
    ghost use Rattle.bgp_session.specs.Inner.{SessionInvariant, hold_of};
    ghost use Rattle.bgp_session.specs.Inner.{running, value_of};
    ghost use Rattle.bgp_session.specs.Steps.{IsEndFor, identifier_of, with_end};

    /// Sends octets, and adds to the story the line that caused them, with the message that answers it, if there is
    /// one. If memory runs out, nothing changes.
    pub(crate) fn write_down(
        &mut self,
        octets: &[u8],
        line: Line,
        answer: Option<Message>,
    ) -> Result<(), NoMemory>
        requires begins { BeginsStory self.old.story.remote_as (self.old.story.lines ++ line ∷ answer_lines answer) }
        requires room { stream_length self.old.end + length octets.now ≤ 2 ^ 20 }
        requires emitted { self.old.end.sent ≤ stream_length self.old.end }
        ensures ok { OnOk result (self.new ≡ record self.old {
          story = record self.old.story { lines = self.old.story.lines ++ line ∷ answer_lines answer };
          end = record self.old.end { waiting = self.old.end.waiting ++ octets.now };
        }) }
        ensures err { OnErr result (self.new ≡ self.old) }
    {
        send(&mut self.end, octets)?;
        match self.story.add(line, answer) {
            Ok(()) => Ok(()),
            Err(error) => {
                self.end.take_back(octets.len());
                Err(error)
            }
        }
    }

    /// Returns whether AS numbers have four octets.
    pub(crate) fn wide(&self) -> bool
        requires { SessionInvariant self.now }
        ensures { result ≡ is_wide (peering_of self.now.config) self.now.story.lines }
    {
        match self.opened {
            Some(opened) => opened.wide,
            None => false,
        }
    }

    /// Returns the hold time that the OPENs settled, in seconds; 0 before that.
    pub(crate) fn hold_so_far(&self) -> u32
        ensures { result ≡ hold_of self.now.opened }
    {
        match self.opened {
            Some(opened) => u32::from(opened.hold),
            None => 0,
        }
    }

    /// Returns the hold time in seconds.
    pub(crate) fn hold(&self) -> u32
        requires { SessionInvariant self.now }
        ensures { result ≡ hold_lem (peering_of self.now.config) self.now.story.lines }
    {
        self.hold_so_far()
    }

    /// Returns the BGP Identifier of the remote, once its OPEN was received.
    pub(crate) fn remote_identifier(&self) -> Option<u32>
        requires { SessionInvariant self.now }
        ensures { result ≡ option_map identifier_of (got_open (peering_of self.now.config) self.now.story.lines) }
    {
        match self.opened {
            Some(opened) => Some(opened.identifier),
            None => None,
        }
    }

    /// Returns a copy of the state of the end.
    pub(crate) fn end_state(&self) -> Result<EndState, NoMemory>
        requires { SessionInvariant self.now }
        ensures end { IfOk result (λ end. IsEndFor (value_of self.now) end) }
        ensures whole { IfOk result (λ end. running self.now ≡ with_end (value_of self.now) end) }
    {
        self.end.state()
    }

    /// Sets the end.
    pub(crate) fn set_end(&mut self, end: EndState)
        requires keeps { SessionInvariant self.old }
        requires end { IsEndFor (value_of self.old) end }
        ensures value { running self.new ≡ with_end (value_of self.old) end }
        ensures keeps { SessionInvariant self.new }
    {
        self.end = End::import(end);
    }

    /// Returns which messages are expected next.
    #[tactic(auto, using(bgp_story::proofs::Ranges::offers_home))]
    pub(crate) fn expected(&self) -> Expected
        requires { SessionInvariant self.now }
        ensures { result ≡ expected_next (peering_of self.now.config) self.now.story.lines (state_of self.now.story.lines) }
    {
        Expected {
            state: self.story.state(),
            remote_as: self.config.remote_as,
            offered: self.config.offered,
            wide: self.wide(),
        }
    }
}
