//! A link that loses, repeats and reorders the segments put on it.

use graft_edge::{NoMemory, TryCopy};
use row_harness::Random;
use std::alloc::Global;
use tcp_seq::Segment;

/// The number of segments for which a link has room.
const ROOM: usize = 40;

/// The number of first segments among which the next one is chosen.
const REACH: usize = 8;

#[derive(Debug, Drop)]
pub struct Link {
    segments: Vec<Segment>,
}

impl Link {
    pub fn new(alloc: Global) -> Link {
        Link {
            segments: Vec::new(alloc),
        }
    }

    /// Puts a segment on the link once, twice or, one time in eight, not at all.
    pub fn put(&mut self, segment: Option<Segment>, random: &mut Random) -> Result<(), NoMemory> {
        let Some(segment) = segment else {
            return Ok(());
        };
        let chance = random.below(8);
        if chance == 0 || self.segments.len() >= ROOM {
            return Ok(());
        }
        if chance == 1 {
            self.segments.push(segment.copy()?)?;
        }
        self.segments.push(segment)?;
        Ok(())
    }

    /// Removes and returns one of the first segments.
    pub fn next(&mut self, random: &mut Random) -> Option<Segment> {
        let first = self.segments.len().min(REACH);
        let index = random.below(first as u32) as usize;
        if index < self.segments.len() {
            Some(self.segments.remove(index))
        } else {
            None
        }
    }
}
