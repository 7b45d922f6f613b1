//! The plan of what happens to each segment.

ghost use Rattle.std.specs.Prelude.{◌≡◌, ℕ, IfOk};
ghost use Rattle.graft_edge.specs.declared.ids.PeeringId.{PeeringId};
ghost use Rattle.tcp_seq.specs.declared.segment.Way.{Way};
ghost use Rattle.link_bag.specs.Fates.{fate_by};

use graft_edge::{NoMemory, PeeringId};
use std::alloc::Global;
use std::collections::HashMap;
use tcp_seq::Way;

/// What a fault does to its segment.
#[derive(Clone, Copy, Debug, PartialEq, Eq, Hash)]
pub enum FaultKind {
    Lose,
    Repeat,
    Hold,
    Stray,
}

/// A planned fault of one segment. The segments of a peering that go to one side are counted from 1, in
/// the order in which they are put into the bag of that peering and side. `after` counts turns of the
/// far side; it isn't used for a lost segment.
#[derive(Clone, Copy, Debug, PartialEq, Eq, Hash)]
pub struct Fault {
    pub peering: PeeringId,
    pub way: Way,
    pub segment: u32,
    pub kind: FaultKind,
    pub after: u32,
}

/// What happens to a segment. "Now" is the far side's first delivery after it was put, and every
/// `after` is counted from then, in turns of the far side.
#[derive(Clone, Copy, Debug, PartialEq, Eq, Hash)]
pub enum Fate {
    /// It is delivered now.
    Pass,
    /// It is dropped now.
    Lose,
    /// It is delivered now, and again later.
    Repeat { after: u32 },
    /// It is delivered only later.
    Hold { after: u32 },
    /// It is delivered now, and later a copy goes to the router that the link pointed at when it was
    /// put.
    Stray { after: u32 },
}

impl Fault {
    /// Returns what it does to its segment.
    fn fate(&self) -> Fate
        ensures { result ≡ fate_by self.now }
    {
        match self.kind {
            FaultKind::Lose => Fate::Lose,
            FaultKind::Repeat => Fate::Repeat { after: self.after },
            FaultKind::Hold => Fate::Hold { after: self.after },
            FaultKind::Stray => Fate::Stray { after: self.after },
        }
    }
}

/// A segment by its peering, its side and its number.
#[derive(Clone, Copy, Debug, PartialEq, Eq, Hash)]
struct SegmentId {
    peering: PeeringId,
    way: Way,
    segment: u32,
}

/// The fates of all segments. A look-up takes the same time for any number of faults.
#[derive(Drop)]
pub struct Plan {
    fates: HashMap<SegmentId, Fate>,
}

impl Plan {
    ghost use Rattle.link_bag.specs.Planned.{fate_of, fate_in};

    /// Returns the plan of these faults. If two are for the same segment, the first counts.
    pub fn new(alloc: Global, faults: &[Fault]) -> Result<Plan, NoMemory>
        ensures { IfOk result (λ plan. (peering : PeeringId) (way : Way) (segment : ℕ)
            → fate_in plan peering way segment ≡ fate_of faults.now peering way segment) }
    {
        let mut fates = HashMap::new(alloc);
        let mut left = faults.len();
        while left > 0 {
            left -= 1;
            let fault = &faults[left];
            let id = SegmentId {
                peering: fault.peering,
                way: fault.way,
                segment: fault.segment,
            };
            fates.insert(id, fault.fate())?;
        }
        Ok(Plan { fates })
    }

    /// Returns what happens to the segment of this number, counted from 1, that goes to this side.
    pub fn fate(&self, peering: PeeringId, way: Way, segment: u32) -> Fate
        ensures { result ≡ fate_in self.now peering way segment }
    {
        let id = SegmentId {
            peering,
            way,
            segment,
        };
        self.fates.get(&id).copied().unwrap_or(Fate::Pass)
    }
}
