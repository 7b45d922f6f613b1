//! The segments that a link holds.

ghost use Rattle.std.specs.Prelude.{◌≡◌, ◌<◌, ◌↔◌, ◌++◌, ◌∷◌, [], length, IsTrue, Some, OnOk, IfOk, OnErr, IfErr, slice_get};
ghost use Rattle.std.specs.List.{remove};

use graft_edge::{NoMemory, TryCopy};
use std::alloc::Global;
use std::marker::Model;
use tcp_seq::Segment;

/// The segments that a link holds, in the order in which they were put. Contracts see their list.
#[derive(Debug, Drop)]
pub struct Bag {
    segments: Vec<Segment>,
}

impl Model for Bag {
    ghost use Rattle.std.specs.Prelude.{List};
    ghost use Rattle.tcp_seq.specs.declared.segment.Segment.{Segment};

    ghost Value = { List Segment };

    ghost view = { λ bag. bag.segments.items };
}

impl Bag {
    /// Returns a bag of no segments.
    pub fn new(alloc: Global) -> Bag
        ensures { result ≡ [] }
    {
        Bag {
            segments: Vec::new(alloc),
        }
    }

    /// Returns the number of segments.
    pub fn len(&self) -> usize
        ensures { result ≡ length self.now }
    {
        self.segments.len()
    }

    /// Whether there are no segments.
    pub fn is_empty(&self) -> bool
        ensures { IsTrue result ↔ (self.now ≡ []) }
    {
        self.segments.is_empty()
    }

    /// Returns the segments, to look at.
    pub fn as_slice(&self) -> &[Segment]
        ensures { result.now ≡ self.now }
    {
        self.segments.as_slice()
    }

    /// Adds a segment at the end. If memory runs out, the segment is returned and nothing changes;
    /// there is no other failure.
    pub fn put(&mut self, segment: Segment) -> Result<(), Segment>
        ensures ok { OnOk result (self.new ≡ self.old ++ segment ∷ []) }
        ensures back { IfErr result (λ refused. refused ≡ segment) }
        ensures err { OnErr result (self.new ≡ self.old) }
    {
        match self.segments.push(segment) {
            Ok(()) => Ok(()),
            Err(refused) => Err(refused.value),
        }
    }

    /// Returns a copy of the segment at an index, counted from 0 and below the bag's length. The bag
    /// stays as it is.
    pub fn deliver(&mut self, index: usize) -> Result<Segment, NoMemory>
        requires { index < length self.old }
        ensures copy { IfOk result (λ segment. slice_get self.old index ≡ Some segment) }
        ensures kept { self.new ≡ self.old }
    {
        self.segments[index].copy()
    }

    /// Removes and returns the segment at an index, counted from 0 and below the bag's length. The
    /// others keep their order.
    pub fn remove(&mut self, index: usize) -> Segment
        requires { index < length self.old }
        ensures segment { slice_get self.old index ≡ Some result }
        ensures others { self.new ≡ remove self.old index }
    {
        self.segments.remove(index)
    }
}
