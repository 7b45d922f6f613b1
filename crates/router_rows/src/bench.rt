//! Three routers side by side, and the remotes of their peerings.

use crate::laboratory::{router_0, router_1, router_2};
use crate::sessions::remote;
use crate::stations::Station;
use crate::texts::{best_text, item_text, rest_text, session_text, stuck_text};
use crate::words::{item_of, octets};
use anyhow::{Context, Result, bail};
use bgp_session::Capsule;
use graft_edge::{NoMemory, PeeringId};
use graft_steps::Item;
use row_harness::{Table, number, small, word};
use std::alloc::Global;
use tcp_end::End;
use tcp_seq::Segment;

/// The actor number of the first far side.
const FIRST_FAR: usize = 3;

/// The limit of items that are carried at once.
const MOST: u32 = 2_000;

/// The routers, and the remotes.
#[derive(Drop)]
pub struct Bench {
    stations: Vec<Station>,
    remotes: Vec<End>,
}

/// Lets a segment arrive at the remote, if it is for it.
fn reach(remote: &mut End, segment: &Segment) -> Result<(), NoMemory> {
    if segment.peering != remote.peering() {
        return Ok(());
    }
    if segment.way == remote.way() {
        return Ok(());
    }
    if segment.bytes.len() >= 65_536 {
        return Ok(());
    }
    remote.arrive(segment)?;
    Ok(())
}

/// Returns UPDATE `n` of the remote of a peering: 3,998 octets that announce a /24 with its AS as path, its address as
/// next hop, and an unknown transitive attribute of 3,949 octets, the first two of which are the number.
fn long_update(alloc: Global, peering: u8, n: u32) -> Result<Vec<u8>> {
    let number = [(n / 256 % 256) as u8, (n % 256) as u8];
    let remote = peering % 8;
    let mut update = hex::decode(
        alloc,
        "FFFFFFFFFFFFFFFFFFFFFFFFFFFFFFFF0F9E0200000F83400101004002040201FD",
    )?;
    update.extend_from_slice(&[0xE9 + remote, 0x40, 3, 4, 192, 0, 2, 1 + 4 * remote])?;
    update.extend_from_slice(&[0xD0, 0xC8, 0x0F, 0x6D])?;
    update.extend_from_slice(&number)?;
    update.resize(3_994, 0)?;
    update.extend_from_slice(&[24, 20])?;
    update.extend_from_slice(&number)?;
    Ok(update)
}

impl Bench {
    /// Returns the laboratory at its beginning. No remote has said anything.
    pub fn begin(alloc: Global) -> Result<Bench, NoMemory> {
        let mut stations = Vec::new(alloc);
        stations.push(Station::new(alloc, 0, router_0(alloc)?)?)?;
        stations.push(Station::new(alloc, 1, router_1(alloc)?)?)?;
        stations.push(Station::new(alloc, 2, router_2(alloc)?)?)?;
        let mut remotes = Vec::new(alloc);
        for peering in 0..5u8 {
            remotes.push(remote(alloc, peering)?)?;
        }
        Ok(Bench { stations, remotes })
    }

    /// Returns the router whose number is at an index of a row.
    fn station(&mut self, words: &[&str], index: usize) -> Result<&mut Station> {
        let n = number(words, index)?;
        self.stations.get_mut(n as usize).context("a router")
    }

    /// Returns the remote of the peering whose number is at an index of a row.
    fn remote(&mut self, words: &[&str], index: usize) -> Result<&mut End> {
        let n = number(words, index)?;
        self.remotes.get_mut(n as usize).context("a peering")
    }

    /// Lets a router take a segment that the far side of a peering sends: `.. ROUTER PEERING`.
    fn arrive(&mut self, words: &[&str], segment: Segment) -> Result<()> {
        let far = FIRST_FAR + small(words, 2)? as usize;
        let station = self.station(words, 1)?;
        station.take(far, Item::Seg(segment))?;
        Ok(())
    }

    /// Lets the remote of a peering say bytes, and all its segments arrive at a router: `.. ROUTER PEERING`.
    fn send(&mut self, words: &[&str], bytes: &[u8]) -> Result<()> {
        self.remote(words, 2)?.send(bytes)?;
        for _n in 0..MOST {
            let Some(segment) = self.remote(words, 2)?.next_segment()? else {
                return Ok(());
            };
            self.arrive(words, segment)?;
        }
        Ok(())
    }

    /// Lets the remote of a peering say bytes, which arrive at a router: `say ROUTER PEERING OCTETS ..`.
    fn say(&mut self, alloc: Global, words: &[&str]) -> Result<String> {
        let bytes = octets(alloc, words, 3)?;
        self.send(words, bytes.as_slice())?;
        self.station(words, 1)?.news(alloc)
    }

    /// Lets the remote's acknowledgement arrive at a router, if one is owed: `answer ROUTER PEERING`.
    fn answer_of_remote(&mut self, alloc: Global, words: &[&str]) -> Result<String> {
        if let Some(segment) = self.remote(words, 2)?.answer() {
            self.arrive(words, segment)?;
        }
        self.station(words, 1)?.news(alloc)
    }

    /// Lets the remote of a peering send again what isn't acknowledged: `again ROUTER PEERING`. The first try may only
    /// note an acknowledgement.
    fn again(&mut self, alloc: Global, words: &[&str]) -> Result<String> {
        for _n in 0..2u32 {
            if let Some(segment) = self.remote(words, 2)?.turn()? {
                self.arrive(words, segment)?;
                break;
            }
        }
        self.station(words, 1)?.news(alloc)
    }

    /// Returns what a router sent to a far side, and lets its segments reach the remote: `reach ROUTER PEERING`.
    fn reach(&mut self, alloc: Global, words: &[&str]) -> Result<String> {
        let far = FIRST_FAR + small(words, 2)? as usize;
        let mut text = String::new(alloc);
        for _n in 0..MOST {
            let Some(item) = self.station(words, 1)?.take_sent(far) else {
                break;
            };
            if !text.is_empty() {
                text.push_str(", ")?;
            }
            text.push_str(item_text(alloc, &item)?.as_str())?;
            if let Item::Seg(segment) = &item {
                reach(self.remote(words, 2)?, segment)?;
            }
        }
        if text.is_empty() {
            text.push_str("nothing")?;
        }
        Ok(text)
    }

    /// Lets a router take all that another one sent it: `pass ROUTER ROUTER`.
    fn pass(&mut self, alloc: Global, words: &[&str]) -> Result<String> {
        let from = number(words, 1)? as usize;
        let to = number(words, 2)? as usize;
        for _n in 0..MOST {
            let Some(item) = self.station(words, 1)?.take_sent(to) else {
                break;
            };
            self.station(words, 2)?.take(from, item)?;
        }
        self.station(words, 2)?.news(alloc)
    }

    /// Lets some router take the next item that a router sent an actor, as if from some actor: `carry ROUTER ACTOR
    /// ROUTER ACTOR`.
    fn carry(&mut self, alloc: Global, words: &[&str]) -> Result<String> {
        let item = self.next_sent(words)?.context("an item")?;
        let from = number(words, 4)? as usize;
        self.station(words, 3)?.take(from, item)?;
        self.station(words, 3)?.news(alloc)
    }

    /// Returns the next item that a router sent an actor: `.. ROUTER ACTOR`.
    fn next_sent(&mut self, words: &[&str]) -> Result<Option<Item<Capsule>>> {
        let to = number(words, 2)? as usize;
        Ok(self.station(words, 1)?.take_sent(to))
    }

    /// Returns the next item that a router sent an actor, as a text.
    fn sent(&mut self, alloc: Global, words: &[&str]) -> Result<String> {
        match self.next_sent(words)? {
            Some(item) => item_text(alloc, &item),
            None => Ok(format!(in alloc; "nothing")?),
        }
    }

    /// Returns what the remote of a peering received, from an offset on: `received PEERING OFFSET`.
    fn received(&mut self, alloc: Global, words: &[&str]) -> Result<String> {
        let offset = number(words, 2)? as usize;
        let remote = self.remote(words, 1)?;
        let bytes = remote.ready();
        let behind = bytes.get(offset..).context("a place")?;
        Ok(hex::encode_upper(alloc, behind)?)
    }

    /// Lets a router take the item of a row: `take ROUTER ACTOR ITEM ..`.
    fn take(&mut self, alloc: Global, words: &[&str]) -> Result<String> {
        let from = number(words, 2)? as usize;
        let item = item_of(alloc, words)?;
        let station = self.station(words, 1)?;
        station.take(from, item)?;
        station.news(alloc)
    }

    /// Lets a router make one turn or several: `turn ROUTER`, or `turn ROUTER COUNT`.
    fn turn(&mut self, alloc: Global, words: &[&str]) -> Result<String> {
        let turns = if words.len() > 2 {
            number(words, 2)?
        } else {
            1
        };
        let station = self.station(words, 1)?;
        for _n in 0..turns {
            station.turn()?;
        }
        station.news(alloc)
    }

    /// Lets the remote of a peering say bytes, and a router take them and make a turn. What the router sent to the far
    /// side arrives there: `.. ROUTER PEERING`.
    fn send_and_turn(&mut self, alloc: Global, words: &[&str], bytes: &[u8]) -> Result<()> {
        self.send(words, bytes)?;
        self.station(words, 1)?.turn()?;
        self.reach(alloc, words)?;
        Ok(())
    }

    /// Returns which session of a router is stuck, and skips the events so far: `.. ROUTER`.
    fn stuck_now(&mut self, alloc: Global, words: &[&str]) -> Result<String> {
        let station = self.station(words, 1)?;
        station.news(alloc)?;
        stuck_text(alloc, &station.router.stuck()?)
    }

    /// Lets the remote of a peering say the UPDATEs from one number to another, each of which a router takes and tells:
    /// `flood ROUTER PEERING FIRST END`. The answer is which session is stuck then.
    fn flood(&mut self, alloc: Global, words: &[&str]) -> Result<String> {
        let peering = small(words, 2)?;
        for n in number(words, 3)?..number(words, 4)? {
            let update = long_update(alloc, peering, n)?;
            self.send_and_turn(alloc, words, update.as_slice())?;
        }
        self.stuck_now(alloc, words)
    }

    /// Lets a router make `COUNT` turns, before each of which the remote of a peering says a KEEPALIVE: `keep ROUTER
    /// PEERING COUNT`. The answer is which session is stuck then.
    fn keep(&mut self, alloc: Global, words: &[&str]) -> Result<String> {
        let keepalive = hex::decode(alloc, "FFFFFFFFFFFFFFFFFFFFFFFFFFFFFFFF001304")?;
        for _n in 0..number(words, 3)? {
            self.send_and_turn(alloc, words, keepalive.as_slice())?;
        }
        self.stuck_now(alloc, words)
    }

    /// Calls a router at a mark, and returns the outcome and its events.
    fn between(&mut self, alloc: Global, words: &[&str]) -> Result<String> {
        let station = self.station(words, 1)?;
        let made = station.between()?;
        let news = station.news(alloc)?;
        Ok(format!(in alloc; "{made}, {news}")?)
    }

    /// Returns the answer to a row that looks at a router.
    fn look(&mut self, alloc: Global, words: &[&str]) -> Result<String> {
        let station = self.station(words, 1)?;
        match word(words, 0) {
            "best" => best_text(alloc, station.router.rib()),
            "session" => {
                let peering = PeeringId(small(words, 2)?);
                session_text(alloc, station.router.session(peering))
            }
            "rest" => rest_text(alloc, &station.router.rest()),
            "stuck" => stuck_text(alloc, &station.router.stuck()?),
            _ => bail!("a call"),
        }
    }
}

impl Table for Bench {
    fn answer(&mut self, alloc: Global, words: &[&str]) -> Result<String> {
        match word(words, 0) {
            "begin" => {
                *self = Bench::begin(alloc)?;
                Ok(format!(in alloc; "nothing")?)
            }
            "turn" => self.turn(alloc, words),
            "between" => self.between(alloc, words),
            "say" => self.say(alloc, words),
            "answer" => self.answer_of_remote(alloc, words),
            "again" => self.again(alloc, words),
            "flood" => self.flood(alloc, words),
            "keep" => self.keep(alloc, words),
            "reach" => self.reach(alloc, words),
            "received" => self.received(alloc, words),
            "pass" => self.pass(alloc, words),
            "carry" => self.carry(alloc, words),
            "sent" => self.sent(alloc, words),
            "take" => self.take(alloc, words),
            _ => self.look(alloc, words),
        }
    }
}
