//! A far side and a home side's end, over links with many faults.

use crate::laboratory::far_side;
use far_side::Far;
use graft_edge::{NoMemory, PeeringId};
use graft_steps::Item;
use link_bag::{Fault, FaultKind};
use ring_net::Post;
use row_harness::Random;
use std::alloc::Global;
use tcp_end::{End, SendStop};
use tcp_seq::{Segment, Seq, Way};

/// The limit of rounds for a plan.
const MOST_ROUNDS: u32 = 400;

/// Returns a fault of a segment, or none.
fn fault(random: &mut Random, way: Way, segment: u32) -> Option<Fault> {
    let kind = match random.below(8) {
        0 => FaultKind::Lose,
        1 => FaultKind::Repeat,
        2 => FaultKind::Hold,
        3 => FaultKind::Stray,
        _ => return None,
    };
    Some(Fault {
        peering: PeeringId(0),
        way,
        segment,
        kind,
        after: random.below(6) + 1,
    })
}

/// Returns faults for about half of the first 40 segments each way.
fn faults(alloc: Global, seed: u32) -> Result<Vec<Fault>, NoMemory> {
    let mut random = Random::new(seed);
    let mut faults = Vec::new(alloc);
    for segment in 1..41u32 {
        if let Some(fault) = fault(&mut random, Way::Home, segment) {
            faults.push(fault)?;
        }
        if let Some(fault) = fault(&mut random, Way::Remote, segment) {
            faults.push(fault)?;
        }
    }
    Ok(faults)
}

/// A far side and the home side's end of its connection.
#[derive(Drop)]
struct Pair {
    far: Far,
    post: Post<Item<u8>>,
    home: End,
}

impl Pair {
    /// Returns a pair whose remote has said 4,100 bytes, and whose home side has sent as many.
    fn new(alloc: Global, faults: &[Fault], bytes: &[u8]) -> Result<Pair, NoMemory> {
        let mut far = far_side(alloc, faults)?;
        let mut post = Post::begin(alloc, 3, 0, &[0, 1, 2])?;
        far.take(5, Item::SayOrder { step: 2 }, &mut post)?;
        let mut home = End::new(alloc, Way::Remote, PeeringId(0), Seq(1000), Seq(5000))?;
        match home.send(bytes) {
            Ok(()) | Err(SendStop::Full { .. }) => Ok(Pair { far, post, home }),
            Err(SendStop::NoMemory) => Err(NoMemory),
        }
    }

    /// Lets the far side take a segment of the home side, if there is one.
    fn send(&mut self, segment: Option<Segment>) -> Result<(), NoMemory> {
        match segment {
            Some(segment) => self.far.take(0, Item::Seg(segment), &mut self.post),
            None => Ok(()),
        }
    }

    /// Lets a segment of the far side arrive at home.
    fn arrive(&mut self, segment: &Segment) -> Result<(), NoMemory> {
        let fits = segment.peering == self.home.peering()
            && segment.way != self.home.way()
            && segment.bytes.len() < 65_536;
        if fits {
            self.home.arrive(segment)?;
        }
        Ok(())
    }

    /// Lets the home side take what has arrived, at most 100 segments.
    fn take_all(&mut self) -> Result<(), NoMemory> {
        for _ in 0..100u32 {
            match self.post.take_sent(0) {
                Some((_stamp, Item::Seg(segment))) => self.arrive(&segment)?,
                _ => break,
            }
        }
        Ok(())
    }

    /// Makes the home side's turn, and then the far side's.
    fn round(&mut self) -> Result<(), NoMemory> {
        self.take_all()?;
        let again = self.home.turn()?;
        self.send(again)?;
        for _ in 0..16u32 {
            let next = self.home.next_segment()?;
            self.send(next)?;
        }
        let answer = self.home.answer();
        self.send(answer)?;
        self.far.turn(&mut self.post)
    }

    /// Returns whether each side has received all that the other one said, and has all of its own acknowledged.
    fn is_through(&self, bytes: &[u8]) -> bool {
        !self.far.rest().unacked
            && self.home.acked() as usize == bytes.len()
            && self.far.received() == bytes
            && self.home.ready() == self.far.said()
    }

    /// Makes rounds until both streams are through. Returns whether they came through.
    fn comes_through(&mut self, bytes: &[u8]) -> Result<bool, NoMemory> {
        for _ in 0..MOST_ROUNDS {
            if self.is_through(bytes) {
                return Ok(true);
            }
            self.round()?;
        }
        Ok(false)
    }
}

/// Returns for how many plans of faults, from seed 0 on, both streams come through.
pub fn plans_that_come_through(alloc: Global, plans: u32) -> Result<u32, NoMemory> {
    let bytes = vec![in alloc; 3u8; 20_000]?;
    let mut through = 0u32;
    for seed in 0..plans {
        let faults = faults(alloc, seed)?;
        let mut pair = Pair::new(alloc, faults.as_slice(), bytes.as_slice())?;
        if pair.comes_through(bytes.as_slice())? {
            through = through.saturating_add(1);
        }
    }
    Ok(through)
}
