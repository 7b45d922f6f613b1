//! The story of a session, kept legal line by line.

ghost use Rattle.std.specs.Prelude.{◌≡◌, ◌++◌, ◌∷◌, [], IfOk, IfErr, OnOk, OnErr};
ghost use Rattle.bgp_types.specs.declared.message.Message.TheVariants as messages;
ghost use Rattle.bgp_story.specs.Legal.{IsPeering};
ghost use Rattle.bgp_story.specs.States.{BeginsStory, state_of, answer_lines, after as after_lem, after_put as after_put_lem, after_got as after_got_lem};
ghost use Rattle.bgp_story.specs.declared.line.Line.TheVariants.{Put, Got, Tick};

use crate::header::is_type;
use crate::line::Line;
use bgp_types::types::{KEEPALIVE, NOTIFICATION};
use bgp_types::{Message, NoMemory, Octets, OpenMsg, SessionState};
use std::alloc::Global;
use std::marker::Model;

/// The lines of a session from its OPEN on, and the AS of the remote, which is needed to read them.
/// They are the beginning of a legal story. The state of the session is kept beside them.
#[derive(Debug, Drop)]
pub struct Story {
    lines: Vec<Line>,
    remote_as: u32,
    state: SessionState,
}

impl Model for Story {
    ghost use Rattle.std.specs.Prelude.{◌≡◌};
    ghost use Rattle.bgp_story.specs.States.{StoryValue, BeginsStory, state_of};

    ghost Value = { StoryValue };

    ghost view = { λ s. record { lines = s.lines.items; remote_as = s.remote_as } };

    ghost invariant = { λ s. (s.state ≡ state_of s.lines.items) × BeginsStory s.remote_as s.lines.items };
}

/// Returns the state after a message was put.
fn after_put(state: SessionState, message: &Message) -> SessionState
    ensures { result ≡ after_put_lem state message.now }
{
    match message {
        Message::NoticeMsg(_) => SessionState::Closed,
        Message::KeepaliveMsg if state == SessionState::OpenSent => SessionState::OpenConfirm,
        _ => state,
    }
}

/// Returns the state after octets were got.
fn after_got(state: SessionState, octets: &[u8]) -> SessionState
    ensures { result ≡ after_got_lem state octets.now }
{
    if is_type(NOTIFICATION, octets) {
        return SessionState::Closed;
    }
    if state == SessionState::OpenConfirm && is_type(KEEPALIVE, octets) {
        return SessionState::Established;
    }
    state
}

/// Adds a line. If memory runs out, the line is returned and nothing changes.
fn add(lines: &mut Vec<Line>, line: Line) -> Result<(), Line>
    ensures ok { OnOk result (lines.new.items ≡ lines.old.items ++ line ∷ []) }
    ensures back { IfErr result (λ back. back ≡ line) }
    ensures err { OnErr result (lines.new.items ≡ lines.old.items) }
{
    match lines.push(line) {
        Ok(()) => Ok(()),
        Err(failed) => Err(failed.value),
    }
}

/// Adds a line and the message that is put in answer to it. If memory runs out, nothing changes.
fn add_both(lines: &mut Vec<Line>, line: Line, answer: Message) -> Result<(), NoMemory>
    ensures ok { OnOk result (lines.new.items ≡ lines.old.items ++ line ∷ Put answer ∷ []) }
    ensures err { OnErr result (lines.new.items ≡ lines.old.items) }
{
    if add(lines, line).is_err() {
        return Err(NoMemory);
    }
    match add(lines, Line::Put(answer)) {
        Ok(()) => Ok(()),
        Err(_) => {
            let _line = lines.pop();
            Err(NoMemory)
        }
    }
}

/// Returns the state after a line, of a session that has this state before it.
pub fn after(state: SessionState, line: &Line) -> SessionState
    ensures { result ≡ after_lem state line.now }
{
    match line {
        Line::Put(message) => after_put(state, message),
        Line::Got(octets) => after_got(state, octets),
        Line::Tick(_) => state,
    }
}

impl Story {
    /// Returns the story that begins with this OPEN, of a session with a remote of this AS. The OPEN
    /// has to be one that a home side can put, with its hold time, its identifier and its AS in range,
    /// and the remote's AS must not be 0 (RFC 4271, section 4.2; RFC 7607). If memory runs out, the
    /// OPEN is lost.
    pub fn begin(alloc: Global, first: OpenMsg, remote_as: u32) -> Result<Story, NoMemory>
        requires { IsPeering (record { first = first; remote_as = remote_as }) }
        ensures { IfOk result (λ story. story ≡ record { lines = Put (messages.OpenMsg first) ∷ []; remote_as = remote_as }) }
    {
        let mut lines = Vec::new(alloc);
        lines.push(Line::Put(Message::OpenMsg(first)))?;
        Ok(Story {
            lines,
            remote_as,
            state: SessionState::OpenSent,
        })
    }

    /// Adds a line after which the session has this state. If memory runs out, nothing changes.
    fn add_line(&mut self, line: Line, state: SessionState) -> Result<(), NoMemory>
        requires begins { BeginsStory self.old.remote_as (self.old.lines ++ line ∷ []) }
        requires state { state ≡ state_of (self.old.lines ++ line ∷ []) }
        ensures ok { OnOk result (self.new ≡ record self.old { lines = self.old.lines ++ line ∷ [] }) }
        ensures err { OnErr result (self.new ≡ self.old) }
    {
        match add(&mut self.lines, line) {
            Ok(()) => {
                self.state = state;
                Ok(())
            }
            Err(_) => Err(NoMemory),
        }
    }

    /// Adds a message that is put. The lines with it have to begin a legal story. If memory runs out,
    /// the message is returned and nothing changes; there is no other failure.
    pub fn put(&mut self, message: Message) -> Result<(), Message>
        requires { BeginsStory self.old.remote_as (self.old.lines ++ Put message ∷ []) }
        ensures ok { OnOk result (self.new ≡ record self.old { lines = self.old.lines ++ Put message ∷ [] }) }
        ensures back { IfErr result (λ back. back ≡ message) }
        ensures err { OnErr result (self.new ≡ self.old) }
    {
        let state = after_put(self.state, &message);
        match add(&mut self.lines, Line::Put(message)) {
            Ok(()) => {
                self.state = state;
                Ok(())
            }
            Err(Line::Put(message)) => Err(message),
            Err(_) => unreachable!(),
        }
    }

    /// Adds octets that are got. The lines with them have to begin a legal story. If memory runs out,
    /// the octets are returned and nothing changes; there is no other failure.
    pub fn got(&mut self, bytes: Octets) -> Result<(), Octets>
        requires { BeginsStory self.old.remote_as (self.old.lines ++ Got bytes ∷ []) }
        ensures ok { OnOk result (self.new ≡ record self.old { lines = self.old.lines ++ Got bytes ∷ [] }) }
        ensures back { IfErr result (λ back. back ≡ bytes) }
        ensures err { OnErr result (self.new ≡ self.old) }
    {
        let state = after_got(self.state, &bytes);
        match add(&mut self.lines, Line::Got(bytes)) {
            Ok(()) => {
                self.state = state;
                Ok(())
            }
            Err(Line::Got(bytes)) => Err(bytes),
            Err(_) => unreachable!(),
        }
    }

    /// Adds a round in which the hold timer ran. The lines with it have to begin a legal story. If
    /// memory runs out, nothing changes; there is no other failure.
    pub fn tick(&mut self, round: u32) -> Result<(), NoMemory>
        requires { BeginsStory self.old.remote_as (self.old.lines ++ Tick round ∷ []) }
        ensures ok { OnOk result (self.new ≡ record self.old { lines = self.old.lines ++ Tick round ∷ [] }) }
        ensures err { OnErr result (self.new ≡ self.old) }
    {
        match add(&mut self.lines, Line::Tick(round)) {
            Ok(()) => Ok(()),
            Err(_) => Err(NoMemory),
        }
    }

    /// Adds a line and, if there is one, the message that is put in answer to it. The lines with both
    /// have to begin a legal story. If memory runs out, nothing changes; there is no other failure.
    pub fn add(&mut self, line: Line, answer: Option<Message>) -> Result<(), NoMemory>
        requires { BeginsStory self.old.remote_as (self.old.lines ++ line ∷ answer_lines answer) }
        ensures ok { OnOk result (self.new ≡ record self.old { lines = self.old.lines ++ line ∷ answer_lines answer }) }
        ensures err { OnErr result (self.new ≡ self.old) }
    {
        let state = after(self.state, &line);
        let Some(answer) = answer else {
            return self.add_line(line, state);
        };
        let state = after_put(state, &answer);
        add_both(&mut self.lines, line, answer)?;
        self.state = state;
        Ok(())
    }

    /// Returns the state of the session.
    pub fn state(&self) -> SessionState
        ensures { result ≡ state_of self.now.lines }
    {
        self.state
    }

    /// Returns the lines in order. They begin a legal story.
    pub fn lines(&self) -> &[Line]
        ensures lines { result.now ≡ self.now.lines }
        ensures legal { BeginsStory self.now.remote_as self.now.lines }
    {
        &self.lines
    }

    /// Returns the AS of the remote.
    pub fn remote_as(&self) -> u32
        ensures { result ≡ self.now.remote_as }
    {
        self.remote_as
    }
}
