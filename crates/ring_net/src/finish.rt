//! What remains of a net: its actors and journals, and the items in flight.

ghost use Rattle.std.specs.Prelude.{◌≡◌, ◌≢◌, ◌<◌, ◌++◌, ℕ, None, length, map, slice_get, slice_index_or, OnOk, IfOk};
ghost use Rattle.rtrb.specs.Ring.{known_items};
ghost use Rattle.ring_net.specs.Posts.{box_items, entries_in, waits};
ghost use Rattle.ring_net.specs.Ends.{ring_known};
ghost use Rattle.ring_net.specs.Cells.{ring_from};
ghost use Rattle.ring_net.specs.Nets.{IsNet, in_end, waits_of, view_of};
ghost use Rattle.ring_net.specs.Fresh.{EdgesOnce};
ghost use Rattle.ring_net.specs.Left.{items_left, actors_of, journals_of, DrainsChannel, WithoutRing, WithoutBox};

use crate::actor::Actor;
use crate::cell::Cell;
use crate::entry::Stamped;
use crate::parts::{Actors, Journal, Left, Lefts};
use graft_edge::{Items, NoMemory};
use rtrb::Consumer;
use std::alloc::Global;
use std::collections::VecDeque;

/// Removes from a cell the end of the ring from the actor `a`, and returns it.
fn take_ring<A: Actor>(cell: &mut Cell<A>, a: usize) -> Option<Consumer<Stamped<A::Item>>>
    ensures ring { result ≡ ring_from cell.old a }
    ensures rest { WithoutRing a cell.old cell.new }
{
    cell.ins.take(a)
}

/// Removes from a cell the outbox for the actor `b`, and returns it.
fn take_box<A: Actor>(cell: &mut Cell<A>, b: usize) -> Option<VecDeque<Stamped<A::Item>>>
    ensures items { box_items result ≡ waits cell.old.post b }
    ensures rest { WithoutBox b cell.old cell.new }
{
    if b < cell.post.boxes.len() {
        cell.post.boxes[b].take()
    } else {
        None
    }
}

/// Appends the items that are known to be in a ring, if there is a ring.
fn empty_ring<I: Drop>(
    ring: Option<Consumer<Stamped<I>>>,
    items: &mut Items<I>,
) -> Result<(), NoMemory>
    ensures { OnOk result (items.new ≡ items.old ++ map (λ x. x.item) (ring_known ring)) }
{
    let Some(into) = ring else {
        return Ok(());
    };
    empty(into, items)
}

/// Appends the items that are known to be in a ring.
fn empty<I: Drop>(mut into: Consumer<Stamped<I>>, items: &mut Items<I>) -> Result<(), NoMemory>
    ensures { OnOk result (items.new ≡ items.old ++ map (λ x. x.item) (known_items into)) }
{
    let count = into.cached_slots();
    for _ in 0..count {
        let Stamped { stamp: _, item } = into.pop_known();
        items.push(item)?;
    }
    Ok(())
}

/// Appends the items that wait in an outbox.
fn empty_box<I: Drop>(
    outbox: Option<VecDeque<Stamped<I>>>,
    items: &mut Items<I>,
) -> Result<(), NoMemory>
    ensures { OnOk result (items.new ≡ items.old ++ map (λ x. x.item) (box_items outbox)) }
{
    let Some(queue) = outbox else {
        return Ok(());
    };
    for mail in queue {
        let Stamped { stamp: _, item } = mail;
        items.push(item)?;
    }
    Ok(())
}

/// Removes and returns the items in flight from the actor `a` to the actor `b`, those of the ring
/// first.
fn drain<A: Actor>(
    alloc: Global,
    cells: &mut [Cell<A>],
    a: usize,
    b: usize,
) -> Result<Items<A::Item>, NoMemory>
    requires from { a < length cells.old }
    requires to { b < length cells.old }
    ensures items { IfOk result (λ items. items ≡ map (λ x. x.item) (ring_known (in_end cells.old a b) ++ waits_of (slice_get cells.old a) b)) }
    ensures rest { DrainsChannel a b cells.old cells.new }
{
    let ring = take_ring(&mut cells[b], a);
    let outbox = take_box(&mut cells[a], b);
    let mut items = Items::new(alloc);
    empty_ring(ring, &mut items)?;
    empty_box(outbox, &mut items)?;
    Ok(items)
}

/// Removes and returns the items in flight, edge by edge.
pub(crate) fn drain_all<A: Actor>(
    alloc: Global,
    cells: &mut [Cell<A>],
    edges: &[(u16, u16)],
) -> Result<Lefts<A::Item>, NoMemory>
    requires net { IsNet cells.old edges.now }
    requires once { EdgesOnce edges.now }
    ensures left { IfOk result (λ left. left ≡ items_left (view_of cells.old edges.now) edges.now) }
    ensures actors { actors_of cells.new ≡ actors_of cells.old }
    ensures journals { journals_of cells.new ≡ journals_of cells.old }
{
    let mut left = Items::new(alloc);
    for (from, to) in edges {
        let items = drain(alloc, cells, usize::from(*from), usize::from(*to))?;
        left.push(Left {
            from: *from,
            to: *to,
            items,
        })?;
    }
    Ok(left)
}

/// Returns the actors and the journals of cells.
pub(crate) fn split<A: Actor>(
    alloc: Global,
    cells: Vec<Cell<A>>,
) -> Result<(Actors<A>, Items<Journal>), NoMemory>
    ensures actors { IfOk result (λ split. split.0 ≡ actors_of cells.items) }
    ensures journals { IfOk result (λ split. split.1 ≡ journals_of cells.items) }
{
    let mut actors = Items::new(alloc);
    let mut journals = Items::new(alloc);
    for cell in cells {
        let Cell { actor, post, .. } = cell;
        actors.push(actor)?;
        journals.push(post.into_journal())?;
    }
    Ok((actors, journals))
}
