//! Reading messages, and answering them (RFC 4271, sections 6 and 8.2.2).

ghost use Rattle.std.specs.Prelude.{◌≡◌, ◌≢◌, ◌≤◌, ◌++◌, ◌∷◌, [], true, false, length, take, drop, Ok, Err, Some, IfOk, OnOk, OnErr, MatchBool};
ghost use Rattle.std.specs.FinMap as map;
ghost use Rattle.std.specs.List.{flat_map};
ghost use Rattle.bgp_types.specs.declared.message.Message.TheVariants as messages;
ghost use Rattle.bgp_types.specs.declared.message.SessionState.TheVariants as states;
ghost use Rattle.bgp_types.specs.Header.{header_fault, frame_at};
ghost use Rattle.tcp_seq.specs.Numbers.{plus};
ghost use Rattle.bgp_story.specs.declared.line.Line.TheVariants as lines;
ghost use Rattle.bgp_story.specs.Legal.{reply_to};
ghost use Rattle.bgp_story.specs.Readings.{put_in};
ghost use Rattle.bgp_story.specs.States.{answer_lines, state_of};
ghost use Rattle.session_value.specs.Sessions.{peering_of};
ghost use Rattle.bgp_session.specs.Fronts.{CanRead, CantRead};
ghost use Rattle.bgp_session.specs.Steps.{ReadsFrameIfAny, ReadsFrame};
ghost use Rattle.bgp_session.specs.Inner.{AtFront, SessionInvariant, running, value_of, read_in_session, opened_by, hold_of};

use crate::answers::ReadStep;
use crate::parts::{Opened, Parts, written};
use bgp_frame::first_frame;
use bgp_story::Line;
use bgp_types::{
    HEADER, HeaderFault, Items, Message, NoMemory, Notice, Octets, OpenMsg, PrefixList,
    SessionState, Update,
};
use bgp_wire::{CodecFault, as_said, header_notice, read_message};

impl Parts {
    /// Returns the first `len` bytes that are ready.
    fn first_ready(&self, len: usize) -> Result<Octets, NoMemory>
        requires { len ≤ length self.now.end.ready }
        ensures { IfOk result (λ bytes. bytes ≡ take len self.now.end.ready) }
    {
        Octets::from_slice(self.alloc, &self.end.ready()[..len])
    }

    /// Adds to the story what was got and its answer, which is sent. If memory runs out, nothing changes.
    fn take_down(&mut self, bytes: Octets, answer: Option<Message>) -> Result<(), NoMemory>
        requires front { AtFront self.old bytes }
        requires reply { (reply_to (read_in_session self.old bytes)).0 ≡ answer_lines answer }
        ensures ok { OnOk result (self.new ≡ record self.old {
          story = record self.old.story { lines = self.old.story.lines ++ lines.Got bytes ∷ answer_lines answer };
          end = record self.old.end {
            waiting = self.old.end.waiting ++ flat_map (put_in false) (answer_lines answer);
            taken = plus self.old.end.taken (length bytes);
            ready = drop (length bytes) self.old.end.ready;
          };
          left = hold_of self.old.opened;
        }) }
        ensures err { OnErr result (self.new ≡ self.old) }
    {
        let octets = written(self.alloc, &answer)?;
        let len = bytes.len();
        self.write_down(octets.as_slice(), Line::Got(bytes), answer)?;
        self.end.read(len);
        self.left = self.hold_so_far();
        Ok(())
    }

    /// Returns what an OPEN of the remote settles.
    #[tactic(auto, using(bgp_story::proofs::Ranges::offers_home))]
    fn opened_with(&self, theirs: &OpenMsg) -> Opened
        requires { SessionInvariant self.now }
        ensures { result ≡ opened_by (peering_of self.now.config).first theirs.now }
    {
        Opened {
            identifier: theirs.identifier,
            hold: self.config.home_hold.min(theirs.hold),
            wide: self.config.offered && as_said(&theirs.caps).is_some(),
        }
    }

    /// Answers an OPEN by a KEEPALIVE.
    fn confirm(&mut self, bytes: Octets, theirs: &OpenMsg) -> Result<ReadStep, NoMemory>
        requires front { AtFront self.old bytes }
        requires reading { read_in_session self.old bytes ≡ Ok (messages.OpenMsg theirs.now) }
        ensures step { IfOk result (λ step. ReadsFrame step (running self.old) (running self.new)) }
        ensures keeps { SessionInvariant self.new }
    {
        let opened = self.opened_with(theirs);
        self.take_down(bytes, Some(Message::KeepaliveMsg))?;
        self.opened = Some(opened);
        self.left = u32::from(opened.hold);
        Ok(ReadStep::Opened)
    }

    /// Takes a KEEPALIVE. It has no answer, and establishes the session if it isn't established yet.
    fn establish(&mut self, bytes: Octets) -> Result<ReadStep, NoMemory>
        requires front { AtFront self.old bytes }
        requires reading { read_in_session self.old bytes ≡ Ok messages.KeepaliveMsg }
        ensures step { IfOk result (λ step. ReadsFrame step (running self.old) (running self.new)) }
        ensures keeps { SessionInvariant self.new }
    {
        let state = self.story.state();
        self.take_down(bytes, None)?;
        if state == SessionState::OpenConfirm {
            Ok(ReadStep::Established)
        } else {
            Ok(ReadStep::Changed(Items::new(self.alloc)))
        }
    }

    /// Takes an UPDATE. It has no answer, and changes the routes that were heard.
    fn hear(&mut self, bytes: Octets, update: &Update) -> Result<ReadStep, NoMemory>
        requires front { AtFront self.old bytes }
        requires reading { read_in_session self.old bytes ≡ Ok (messages.UpdateMsg update.now) }
        ensures step { IfOk result (λ step. ReadsFrame step (running self.old) (running self.new)) }
        ensures keeps { SessionInvariant self.new }
    {
        self.take_down(bytes, None)?;
        Ok(ReadStep::Changed(self.adj_rib_in.apply(update)?))
    }

    /// Removes all routes, those heard and those told.
    pub(crate) fn drop_routes(&mut self)
        ensures { self.new ≡ record self.old { adj_rib_in = map.empty; adj_rib_out = map.empty } }
    {
        self.adj_rib_in.clear();
        self.adj_rib_out.clear();
    }

    /// Takes a NOTIFICATION. It has no answer, and closes the session.
    fn close(&mut self, bytes: Octets) -> Result<ReadStep, NoMemory>
        requires front { AtFront self.old bytes }
        requires reply { reply_to (read_in_session self.old bytes) ≡ ([], states.Closed) }
        ensures step { IfOk result (λ step. ReadsFrame step (running self.old) (running self.new)) }
        ensures keeps { SessionInvariant self.new }
    {
        let heard = self.adj_rib_in.prefixes()?;
        self.take_down(bytes, None)?;
        self.drop_routes();
        Ok(ReadStep::Closed(heard))
    }

    /// Answers a fault by a NOTIFICATION, which closes the session.
    fn refuse(&mut self, bytes: Octets, notice: Notice) -> Result<ReadStep, NoMemory>
        requires front { AtFront self.old bytes }
        requires fault { read_in_session self.old bytes ≡ Err notice }
        ensures step { IfOk result (λ step. ReadsFrame step (running self.old) (running self.new)) }
        ensures keeps { SessionInvariant self.new }
    {
        let heard = self.adj_rib_in.prefixes()?;
        self.take_down(bytes, Some(Message::NoticeMsg(notice)))?;
        self.drop_routes();
        Ok(ReadStep::Closed(heard))
    }

    /// Acts on a message that was read.
    fn take(&mut self, bytes: Octets, message: Message) -> Result<ReadStep, NoMemory>
        requires front { AtFront self.old bytes }
        requires reading { read_in_session self.old bytes ≡ Ok message }
        ensures step { IfOk result (λ step. ReadsFrame step (running self.old) (running self.new)) }
        ensures keeps { SessionInvariant self.new }
    {
        match message {
            Message::OpenMsg(theirs) => self.confirm(bytes, &theirs),
            Message::KeepaliveMsg => self.establish(bytes),
            Message::UpdateMsg(update) => self.hear(bytes, &update),
            Message::NoticeMsg(_) => self.close(bytes),
        }
    }

    /// Reads a whole message of `len` octets, and acts on it.
    fn read_frame(&mut self, len: usize) -> Result<ReadStep, NoMemory>
        requires keeps { SessionInvariant self.old }
        requires unclosed { state_of self.old.story.lines ≢ states.Closed }
        requires within { len ≤ length self.old.end.ready }
        requires whole { frame_at (take len self.old.end.ready) ≡ Some (take len self.old.end.ready, []) }
        ensures step { IfOk result (λ step. ReadsFrame step (running self.old) (running self.new)) }
        ensures keeps { SessionInvariant self.new }
    {
        let bytes = self.first_ready(len)?;
        let expected = self.expected();
        match read_message(self.alloc, bytes.as_slice(), &expected) {
            Ok(message) => self.take(bytes, message),
            Err(CodecFault::Wire(notice)) => self.refuse(bytes, notice),
            Err(CodecFault::NoMemory) => Err(NoMemory),
        }
    }

    /// Answers the faulty header that comes first in what is ready.
    fn refuse_header(&mut self, fault: HeaderFault) -> Result<ReadStep, NoMemory>
        requires keeps { SessionInvariant self.old }
        requires unclosed { state_of self.old.story.lines ≢ states.Closed }
        requires long { 19 ≤ length self.old.end.ready }
        requires fault { header_fault self.old.end.ready ≡ Some fault }
        ensures step { IfOk result (λ step. ReadsFrame step (running self.old) (running self.new)) }
        ensures keeps { SessionInvariant self.new }
    {
        let notice = header_notice(self.alloc, fault)?;
        let bytes = self.first_ready(HEADER)?;
        self.refuse(bytes, notice)
    }

    /// Reads the first message of what is ready, or its faulty header, and answers it.
    pub(crate) fn read(&mut self) -> Result<Option<ReadStep>, NoMemory>
        requires { SessionInvariant self.old }
        ensures step { IfOk result (λ step. ReadsFrameIfAny step (running self.old) (running self.new)) }
        ensures keeps { SessionInvariant self.new }
    {
        if self.story.state() == SessionState::Closed {
            return Ok(None);
        }
        match first_frame(self.end.ready()) {
            Ok(None) => Ok(None),
            Ok(Some(front)) => Ok(Some(self.read_frame(front.len)?)),
            Err(fault) => Ok(Some(self.refuse_header(fault)?)),
        }
    }

    /// Returns whether there is something to read.
    pub(crate) fn frame_waits(&self) -> bool
        requires { SessionInvariant self.now }
        ensures { MatchBool result (CanRead (value_of self.now)) (CantRead (value_of self.now)) }
    {
        if self.story.state() == SessionState::Closed {
            return false;
        }
        match first_frame(self.end.ready()) {
            Ok(None) => false,
            Ok(Some(_front)) => true,
            Err(_fault) => true,
        }
    }
}
