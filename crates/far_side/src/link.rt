//! A link in one direction: the segments that it holds, and what the plan does to each of them.

ghost use Rattle.std.specs.Prelude.{ℕ, ◌≡◌, ◌<◌, ◌+◌, ◌++◌, ◌∷◌, [], true, false, length, Some, IfOk, OnOk, slice_get};
ghost use Rattle.link_bag.specs.Planned.{fate_in};
ghost use Rattle.tcp_seq.specs.Placed.{placed};

use graft_edge::{NoMemory, PeeringId, RouterId};
use link_bag::{Bag, Fate, Plan};
use std::alloc::Global;
use std::marker::Model;
use tcp_seq::{Segment, Seq, Way};

/// What the plan does to a segment that is in a link.
#[derive(Clone, Copy, Debug, PartialEq, Eq)]
pub struct InLink {
    pub fate: Fate,
    /// The number of turns of the far side that have passed since its first delivery was due.
    pub turns: u32,
    /// The router that the link pointed at when the segment was put.
    pub pointed: RouterId,
}

/// What happens to a segment in one turn.
#[derive(Clone, Copy, Debug, PartialEq, Eq)]
pub enum Act {
    /// Nothing: it is held back.
    Stays,
    /// It is delivered, and kept in the link if it is to be delivered again.
    Delivered { keep: bool },
    /// A late copy goes to the router that the link pointed at when it was put.
    Copied,
    /// It is lost.
    Lost,
}

impl InLink {
    ghost use Rattle.std.specs.Prelude.{◌≡◌, IfSome};
    ghost use Rattle.far_side.specs.Links.{act_in, older as older_lem};

    /// Returns what happens to the segment in this turn.
    pub fn act(&self) -> Act
        ensures { result ≡ act_in self.now }
    {
        match self.fate {
            Fate::Pass => Act::Delivered { keep: false },
            Fate::Lose => Act::Lost,
            Fate::Repeat { after } => repeated(after, self.turns, Act::Delivered { keep: false }),
            Fate::Hold { after } => held(after, self.turns),
            Fate::Stray { after } => repeated(after, self.turns, Act::Copied),
        }
    }

    /// Returns the same segment one turn later, or `None` after 2^32 - 1 turns.
    fn older(&self) -> Option<InLink>
        ensures { IfSome result (λ older. older ≡ older_lem self.now) }
    {
        let turns = self.turns.checked_add(1)?;
        Some(InLink {
            fate: self.fate,
            turns,
            pointed: self.pointed,
        })
    }
}

ghost use Rattle.std.specs.Prelude.{nat_le, if◌then◌else◌, ◌==◌};

/// Returns what happens to a segment that is delivered at once, and then once more.
fn repeated(after: u32, turns: u32, last: Act) -> Act
    ensures { result ≡ (if nat_le after turns then last else if turns == 0 then Act.Delivered true else Act.Stays) }
{
    if after <= turns {
        last
    } else if turns == 0 {
        Act::Delivered { keep: true }
    } else {
        Act::Stays
    }
}

/// Returns what happens to a segment that is held back.
fn held(after: u32, turns: u32) -> Act
    ensures { result ≡ (if nat_le after turns then Act.Delivered false else Act.Stays) }
{
    if turns >= after {
        Act::Delivered { keep: false }
    } else {
        Act::Stays
    }
}

/// The segments on their way to one side of a peering, in the order in which they were put, with what the plan does to
/// each. Contracts see the segments by their offsets in the streams.
#[derive(Drop)]
pub struct Link {
    way: Way,
    peering: PeeringId,
    seq_first: Seq,
    ack_first: Seq,
    bag: Bag,
    plans: Vec<InLink>,
    put: u32,
}

impl Model for Link {
    ghost use Rattle.far_side.specs.Links.{LinkValue};

    ghost Value = { LinkValue };

    ghost use Rattle.far_side.specs.LinkInner.{link_of, LinkInvariant};

    ghost view = { link_of };

    ghost invariant = { LinkInvariant };
}

impl Link {
    ghost use Rattle.std.specs.Prelude.{ℕ, ◌≡◌, ◌<◌, ◌+◌, ◌^◌, ◌++◌, ◌∷◌, [], false, length, Some, IfOk, OnOk, IfSome, slice_get};
    ghost use Rattle.far_side.specs.declared.link.InLink.{InLink};
    ghost use Rattle.far_side.specs.Links.{IsOn, put_now, aged, given, removed};

    /// Returns an empty link. Its segments carry the stream with initial sequence number `seq_first`, and acknowledge
    /// the one with initial sequence number `ack_first`.
    pub fn new(alloc: Global, way: Way, peering: PeeringId, seq_first: Seq, ack_first: Seq) -> Link
        ensures { result ≡ record {
          way = way;
          peering = peering.0;
          seq_first = seq_first.0;
          ack_first = ack_first.0;
          segments = [];
          plans = [];
          put = 0;
        } }
    {
        Link {
            way,
            peering,
            seq_first,
            ack_first,
            bag: Bag::new(alloc),
            plans: Vec::new(alloc),
            put: 0,
        }
    }

    /// Returns the number of segments, fewer than 2^32.
    pub fn len(&self) -> usize
        ensures segments { result ≡ length self.now.segments }
        ensures plans { result ≡ length self.now.plans }
        ensures few { result < 2 ^ 32 }
    {
        self.bag.len()
    }

    /// Puts a segment at the end of the link, which points at router `pointed` now. Segments are counted from 1, and by
    /// that number the plan says what happens to each. Returns `NoMemory` at 2^32 segments: no memory holds the journal
    /// entries of so many segments.
    pub fn put(&mut self, segment: Segment, plan: &Plan, pointed: RouterId) -> Result<(), NoMemory>
        requires { IsOn self.old segment }
        ensures { OnOk result (self.new ≡ record self.old {
          segments = self.old.segments ++ placed self.old.seq_first self.old.ack_first segment ∷ [];
          plans = self.old.plans ++ put_now (fate_in plan.now (record { 0 = self.old.peering }) self.old.way (self.old.put + 1)) pointed.0 ∷ [];
          put = self.old.put + 1;
        }) }
    {
        let Some(number) = self.put.checked_add(1) else {
            return Err(NoMemory);
        };
        if self.bag.len() >= u32::MAX as usize {
            return Err(NoMemory);
        }
        let fate = plan.fate(self.peering, self.way, number);
        self.plans.push(InLink {
            fate,
            turns: 0,
            pointed,
        })?;
        let Ok(()) = self.bag.put(segment) else {
            self.plans.pop();
            return Err(NoMemory);
        };
        self.put = number;
        Ok(())
    }

    /// Returns what the plan does to the segment at an index, which must be below the number of segments.
    pub fn plan(&self, index: u32) -> InLink
        requires { index < length self.now.plans }
        ensures { slice_get self.now.plans index ≡ Some result }
    {
        self.plans[index as usize]
    }

    /// Keeps the segment at an index for another turn. The index must be below the number of segments. Returns the index
    /// of the next segment, or `NoMemory` after 2^32 - 1 turns.
    pub fn keep(&mut self, index: u32) -> Result<u32, NoMemory>
        requires { index < length self.old.plans }
        ensures next { IfOk result (λ next. next ≡ index + 1) }
        ensures kept { OnOk result ((x : InLink) → slice_get self.old.plans index ≡ Some x → self.new ≡ aged index x self.old) }
    {
        let plan = self.plans[index as usize];
        let Some(older) = plan.older() else {
            return Err(NoMemory);
        };
        self.plans[index as usize] = older;
        Ok(index + 1)
    }

    /// Returns the segment at an index, which must be below the number of segments. If it is kept, a copy is returned,
    /// and otherwise it leaves the link.
    pub fn give(&mut self, index: u32, keep: bool) -> Result<Segment, NoMemory>
        requires { index < length self.old.plans }
        ensures segment { IfOk result (λ g. slice_get self.old.segments index ≡ Some (placed self.old.seq_first self.old.ack_first g)) }
        ensures own { IfOk result (IsOn self.old) }
        ensures left { OnOk result (self.new ≡ given keep index self.old) }
    {
        if keep {
            self.bag.deliver(index as usize)
        } else {
            Ok(self.remove(index))
        }
    }

    /// Removes and returns the segment at an index, which must be below the number of segments.
    pub fn remove(&mut self, index: u32) -> Segment
        requires { index < length self.old.plans }
        ensures segment { slice_get self.old.segments index ≡ Some (placed self.old.seq_first self.old.ack_first result) }
        ensures own { IsOn self.old result }
        ensures others { self.new ≡ removed index self.old }
    {
        self.plans.remove(index as usize);
        self.bag.remove(index as usize)
    }
}
