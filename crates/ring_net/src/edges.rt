//! Reads both ends of every edge at a mark, when all cells are in one thread.

ghost use Rattle.std.specs.Prelude.{◌≡◌, ◌≢◌, ◌≤◌, ◌<◌, ◌+◌, ◌++◌, ℕ, None, Some, length, slice_index_or, slice_get};
ghost use Rattle.rtrb.specs.Ring.{IsPair, ProducerLooked, ConsumerLooked};
ghost use Rattle.ring_net.specs.Nets.{Level, LookedOut, LookedIn, out_end, in_end};
ghost use Rattle.ring_net.specs.Reads.{ReadsEnds, LooksOut, LooksIn, ReadsEdge};

use crate::actor::Actor;
use crate::cell::Cell;
use crate::ends::Ends;
use crate::entry::Stamped;
use rtrb::{Consumer, Producer};

/// Reads both ends of a ring.
fn read_ends<T: Drop>(out: &mut Producer<T>, into: &mut Consumer<T>)
    requires { IsPair out.old into.old }
    ensures level { Level out.new into.new }
    ensures looked { ProducerLooked out.old out.new × ConsumerLooked into.old into.new }
{
    out.slots_beside(into);
    into.slots_beside(out);
}

/// Reads both ends of a ring, if they are there.
fn read_both<I: Drop>(
    out: &mut Option<Producer<Stamped<I>>>,
    into: &mut Option<Consumer<Stamped<I>>>,
)
    requires { (p : _) (c : _) → out.old ≡ Some p → into.old ≡ Some c → IsPair p c }
    ensures { ReadsEnds out.old into.old out.new into.new }
{
    let Some(from) = out else {
        return;
    };
    let Some(to) = into else {
        return;
    };
    read_ends(from, to);
}

ghost use Rattle.ring_net.specs.Cells.{ring_to, ring_from};

/// Reads both ends of the ring between two peers, at their indices.
fn read_slots<I: Drop>(
    rings: &mut Ends<Producer<Stamped<I>>>,
    a: usize,
    ins: &mut Ends<Consumer<Stamped<I>>>,
    b: usize,
)
    requires { (p : _) (c : _) → slice_index_or rings.old.slots.items b None ≡ Some p → slice_index_or ins.old.slots.items a None ≡ Some c → IsPair p c }
    ensures ends { ReadsEnds (slice_index_or rings.old.slots.items b None) (slice_index_or ins.old.slots.items a None)
        (slice_index_or rings.new.slots.items b None) (slice_index_or ins.new.slots.items a None) }
    ensures rings { (x : ℕ) → x ≢ b → slice_index_or rings.new.slots.items x None ≡ slice_index_or rings.old.slots.items x None }
    ensures ins { (x : ℕ) → x ≢ a → slice_index_or ins.new.slots.items x None ≡ slice_index_or ins.old.slots.items x None }
{
    if b < rings.slots.len() && a < ins.slots.len() {
        read_both(&mut rings.slots[b], &mut ins.slots[a]);
    }
}

/// Reads both ends of the edge from one cell, of number `a`, to another, of number `b`.
fn read_cells<A: Actor>(from: &mut Cell<A>, a: usize, to: &mut Cell<A>, b: usize)
    requires { (p : _) (c : _) → ring_to from.old b ≡ Some p → ring_from to.old a ≡ Some c → IsPair p c }
    ensures ends { ReadsEnds (ring_to from.old b) (ring_from to.old a) (ring_to from.new b) (ring_from to.new a) }
    ensures from { LooksOut b from.old from.new }
    ensures to { LooksIn a to.old to.new }
{
    read_slots(&mut from.rings, a, &mut to.ins, b);
}

/// Reads both ends of the edge from the cell `a` to the cell `b` in a list of cells.
fn read_edge<A: Actor>(cells: &mut [Cell<A>], a: usize, b: usize)
    requires apart { a ≢ b }
    requires from { a < length cells.old }
    requires to { b < length cells.old }
    requires paired { (p : _) (c : _) → out_end cells.old a b ≡ Some p → in_end cells.old a b ≡ Some c → IsPair p c }
    ensures { ReadsEdge a b cells.old cells.new }
{
    if a < b {
        let (front, back) = cells.split_at_mut(b);
        read_cells(&mut front[a], a, &mut back[0], b);
    } else {
        let (front, back) = cells.split_at_mut(a);
        read_cells(&mut back[0], a, &mut front[b], b);
    }
}

ghost use Rattle.ring_net.specs.Nets.{Linked, LevelAt};
ghost use Rattle.ring_net.specs.Reads.{Looked};

/// Reads both ends of every edge.
pub(crate) fn read_all<A: Actor>(cells: &mut [Cell<A>], edges: &[(u16, u16)])
    requires { Linked cells.old edges.now }
    ensures looked { Looked cells.old cells.new }
    ensures level { (a b : ℕ) → LevelAt cells.new a b }
{
    for (from, to) in edges {
        read_edge(cells, usize::from(*from), usize::from(*to));
    }
}
