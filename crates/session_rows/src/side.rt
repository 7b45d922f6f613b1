//! A session and its remote, step by step.

use crate::calls::{Opening, arrive, begin, moved, offer, reach, remote, tick};
use crate::texts::{octets, read_text, segment_text, tick_text};
use anyhow::{Context, Result, bail};
use bgp_session::{OfferStop, Session};
use row_harness::{number, word};
use std::alloc::Global;
use tcp_end::End;

/// The two ends of a connection, without a link between them: what one emits arrives at the other if a line says so.
#[derive(Drop)]
pub struct Side {
    session: Session,
    far: End,
}

impl Side {
    pub fn begin(alloc: Global, words: &[&str]) -> Result<Side> {
        let opening = Opening::read(words, 1)?;
        Ok(Side {
            session: begin(alloc, opening)?,
            far: remote(alloc, opening)?,
        })
    }

    /// Returns the text of all looks.
    pub fn looks(&self, alloc: Global) -> Result<String> {
        let session = &self.session;
        let (state, hold, put) = (session.state(), session.hold(), session.put_len());
        let width = if session.wide() { "wide" } else { "narrow" };
        let acked = session.all_acked();
        let waits = session.frame_waits();
        let remote = session.remote_identifier().unwrap_or(0);
        let (heard, told) = (session.heard().len(), session.told().len());
        let peering = session.config().peering.0;
        let lines = session.story().lines().len();
        Ok(format!(in alloc;
            "{state:?} {width} hold {hold} put {put} acked {acked} waits {waits} remote {remote:X} heard {heard} told {told} peering {peering} lines {lines}"
        )?)
    }

    /// Lets the remote say bytes, which arrive.
    fn say(&mut self, alloc: Global, bytes: &[u8]) -> Result<String> {
        self.far.send(bytes)?;
        let segment = self.far.next_segment()?.context("what is said")?;
        let arrival = arrive(&mut self.session, &segment)?;
        Ok(format!(in alloc; "{arrival:?}")?)
    }

    /// Lets the session emit its next segment, which arrives at the remote.
    fn emit(&mut self, alloc: Global) -> Result<String> {
        let segment = self.session.next_segment()?;
        if let Some(segment) = &segment {
            reach(&mut self.far, segment)?;
        }
        segment_text(alloc, &segment)
    }

    /// Lets the remote acknowledge, which arrives.
    fn acknowledge(&mut self, alloc: Global) -> Result<String> {
        let answer = self.far.answer().context("an answer that is owed")?;
        let arrival = arrive(&mut self.session, &answer)?;
        Ok(format!(in alloc; "{arrival:?}")?)
    }

    fn offer(&mut self, alloc: Global, bytes: &[u8]) -> Result<String> {
        match offer(alloc, &mut self.session, bytes)? {
            Ok(()) => Ok(format!(in alloc; "put")?),
            Err(OfferStop::StreamFull { length }) => Ok(format!(in alloc; "full {length}")?),
            Err(OfferStop::NoMemory) => bail!("no memory"),
        }
    }

    /// Lets the rounds from `first` to `last` pass.
    fn tick(&mut self, alloc: Global, first: u32, last: u32) -> Result<String> {
        let mut text = String::new(alloc);
        for round in first..=last {
            let answer = tick_text(alloc, &tick(&mut self.session, round)?)?;
            text = format!(in alloc; "{text} {answer}")?;
        }
        Ok(format!(in alloc; "{}", text.as_str().trim_start())?)
    }

    /// Moves the session.
    pub fn moved(self) -> Side {
        let Side { session, far } = self;
        Side {
            session: moved(session),
            far,
        }
    }

    /// Does what a row says.
    pub fn act(&mut self, alloc: Global, words: &[&str]) -> Result<String> {
        match word(words, 0) {
            "look" => self.looks(alloc),
            "say" => self.say(alloc, octets(alloc, words, 1)?.as_slice()),
            "read" => read_text(alloc, &self.session.read()?),
            "emit" => self.emit(alloc),
            "turn" => segment_text(alloc, &self.session.turn()?),
            "answer" => segment_text(alloc, &self.session.answer()),
            "acknowledge" => self.acknowledge(alloc),
            "tick" => self.tick(alloc, number(words, 1)?, number(words, 2)?),
            "offer" => self.offer(alloc, octets(alloc, words, 1)?.as_slice()),
            _ => bail!("no such command"),
        }
    }
}
