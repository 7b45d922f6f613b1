//! Events of a far side that take no item: segments of the remote, what the link does with segments, and KEEPALIVEs.

ghost use Rattle.std.specs.Prelude.{◌≡◌, ◌<◌, ◌%◌, IsTrue, ◌↔◌, IfOk};
ghost use Rattle.graft_model.specs.declared.event.FarEvent.TheVariants.{Send, Pass, Reach, Lose, Beat};
ghost use Rattle.audit_far.specs.Parts.{FarInvariant, HasRoomToBeat};
ghost use Rattle.audit_far.specs.Decides.{DecidesFar};

use crate::far::AuditedFar;
use crate::link::{give, lose, put};
use audit_ruling::Ruling;
use bgp_types::KEEPALIVE_MESSAGE;
use graft_edge::NoMemory;
use graft_model::FarEvent;
use graft_steps::Item;
use tcp_seq::Way;

/// The most KEEPALIVEs that are said at the interval.
const MOST_KEEPALIVES: u32 = 27_594;

impl AuditedFar {
    /// Sends `len` bytes of the remote's stream from an offset on into the link, or a segment without bytes.
    pub(crate) fn send(&mut self, from: u32, len: u32) -> Result<Ruling, NoMemory>
        requires { FarInvariant self.old }
        ensures { IfOk result (λ ruling. DecidesFar (Send from len) self.old ruling self.new) }
    {
        let Some(segment) = self.remote.emit_at(from, len)? else {
            return Ok(Ruling::Refused);
        };
        put(&mut self.homeward, segment)?;
        Ok(Ruling::Silent)
    }

    /// Delivers the segment at an index of the link to home to a router.
    pub(crate) fn pass(&mut self, index: u32, keep: bool, router: u32) -> Result<Ruling, NoMemory>
        requires { FarInvariant self.old }
        ensures { IfOk result (λ ruling. DecidesFar (Pass index keep router) self.old ruling self.new) }
    {
        if router >= self.routers {
            return Ok(Ruling::Refused);
        }
        let Some(segment) = give(&mut self.homeward, index, keep)? else {
            return Ok(Ruling::Refused);
        };
        Ok(Ruling::Sends {
            to: router as usize,
            item: Item::Seg(segment),
        })
    }

    /// Delivers the segment at an index of the link to the remote.
    pub(crate) fn reach(&mut self, index: u32, keep: bool) -> Result<Ruling, NoMemory>
        requires { FarInvariant self.old }
        ensures { IfOk result (λ ruling. DecidesFar (Reach index keep) self.old ruling self.new) }
    {
        let Some(segment) = give(&mut self.remoteward, index, keep)? else {
            return Ok(Ruling::Refused);
        };
        self.remote.arrive(segment)?;
        Ok(Ruling::Silent)
    }

    /// Loses the segment at an index of the link to one side.
    pub(crate) fn lose(&mut self, way: Way, index: u32) -> Ruling
        requires { FarInvariant self.old }
        ensures { DecidesFar (Lose way index) self.old result self.new }
    {
        match way {
            Way::Home => lose(&mut self.homeward, index),
            Way::Remote => lose(&mut self.remoteward, index),
        }
    }

    /// Returns whether the remote may say a KEEPALIVE in this round: one of its interval, after the last one, and not
    /// too many were said.
    fn may_beat(&self, round: u32) -> bool
        ensures { IsTrue result
            ↔ ((0 < self.now.keepalive_interval) × (round % self.now.keepalive_interval ≡ 0)
            × (self.now.last_keepalive < round) × (self.now.keepalives < 27594)) }
    {
        self.keepalive_interval > 0
            && round % self.keepalive_interval == 0
            && self.last_keepalive < round
            && self.keepalives < MOST_KEEPALIVES
    }

    /// Says a KEEPALIVE in this round. The stream must have room for it, if the remote has a timer and not all its
    /// KEEPALIVEs were said.
    pub(crate) fn beat(&mut self, round: u32) -> Result<Ruling, NoMemory>
        requires sound { FarInvariant self.old }
        requires room { HasRoomToBeat self.old }
        ensures { IfOk result (λ ruling. DecidesFar (Beat round) self.old ruling self.new) }
    {
        if !self.may_beat(round) {
            return Ok(Ruling::Refused);
        }
        self.remote.say(&KEEPALIVE_MESSAGE)?;
        self.keepalives += 1;
        self.last_keepalive = round;
        Ok(Ruling::Silent)
    }

    /// Decides an event that takes no item; one that takes an item is refused.
    pub fn decide(&mut self, event: FarEvent) -> Result<Ruling, NoMemory>
        requires sound { FarInvariant self.old }
        requires room { HasRoomToBeat self.old }
        ensures { IfOk result (λ ruling. DecidesFar event self.old ruling self.new) }
    {
        match event {
            FarEvent::Send { from, len } => self.send(from, len),
            FarEvent::Pass {
                index,
                keep,
                router,
            } => self.pass(index, keep, router),
            FarEvent::Reach { index, keep } => self.reach(index, keep),
            FarEvent::Lose { way, index } => Ok(self.lose(way, index)),
            FarEvent::Beat { round } => self.beat(round),
            FarEvent::Say { .. } | FarEvent::Take { .. } | FarEvent::Point { .. } => {
                Ok(Ruling::Refused)
            }
        }
    }
}
