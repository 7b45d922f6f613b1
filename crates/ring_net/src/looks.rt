//! What is read from the cells of a net without changing them.

ghost use Rattle.std.specs.Prelude.{◌≡◌, ◌≤◌, ◌<◌, ◌+◌, ◌-◌, ◌^◌, ℕ, None, length, map, min, sum_by, slice_get, slice_index_or, IfOk};
ghost use Rattle.ring_net.specs.Posts.{clock_of, entries_in, waits, box_items};
ghost use Rattle.ring_net.specs.Cells.{ring_from};
ghost use Rattle.ring_net.specs.Ends.{ring_known};
ghost use Rattle.ring_net.specs.Nets.{in_end, waits_of};

use crate::actor::Actor;
use crate::cell::Cell;
use crate::entry::Stamped;
use crate::parts::Mark;
use graft_edge::{Items, NoMemory};
use rtrb::Consumer;
use std::alloc::Global;
use std::collections::VecDeque;

/// Returns the length of each journal, in a list that is allocated at its size.
pub(crate) fn lengths<A: Actor>(alloc: Global, cells: &[Cell<A>]) -> Result<Mark, NoMemory>
    ensures { IfOk result (λ mark. mark ≡ map (λ c. length (entries_in c.post)) cells.now) }
{
    let mut mark = Vec::with_capacity(alloc, cells.len())?;
    for cell in cells {
        mark.push(cell.post.entries().len() as u64)?;
    }
    Ok(Items::from_vec(mark))
}

/// Returns the number of entries. The count stops at 2^64 - 1.
pub(crate) fn entry_count<A: Actor>(cells: &[Cell<A>]) -> u64
    ensures { result ≡ min (sum_by (λ c. length (entries_in c.post)) cells.now) (2 ^ 64 - 1) }
{
    let mut count = 0u64;
    for cell in cells {
        count = count.saturating_add(cell.post.entries().len() as u64);
    }
    count
}

/// Returns how many items are known to be in a ring.
fn known_count<I: Drop>(ring: &Option<Consumer<Stamped<I>>>) -> usize
    ensures count { result ≡ length (ring_known ring.now) }
    ensures bound { result < 2 ^ 63 }
{
    match ring {
        Some(into) => into.cached_slots(),
        None => 0,
    }
}

/// Returns how many items wait in an outbox.
fn box_count<I: Drop>(outbox: &Option<VecDeque<Stamped<I>>>) -> usize
    ensures count { result ≡ length (box_items outbox.now) }
    ensures bound { result < 2 ^ 63 }
{
    match outbox {
        Some(queue) => queue.len(),
        None => 0,
    }
}

/// Returns how many items are in the ring from the actor `a` to this cell.
fn ring_len<A: Actor>(cell: &Cell<A>, a: usize) -> usize
    ensures count { result ≡ length (ring_known (ring_from cell.now a)) }
    ensures bound { result < 2 ^ 63 }
{
    if a < cell.ins.slots.len() {
        known_count(&cell.ins.slots[a])
    } else {
        0
    }
}

/// Returns how many items of this cell wait for the actor `b`.
fn wait_len<A: Actor>(cell: &Cell<A>, b: usize) -> usize
    ensures count { result ≡ length (waits cell.now.post b) }
    ensures bound { result < 2 ^ 63 }
{
    if b < cell.post.boxes.len() {
        box_count(&cell.post.boxes[b])
    } else {
        0
    }
}

/// Returns how many items are in the ring from `a` to `b`.
fn ring_count<A: Actor>(cells: &[Cell<A>], a: usize, b: usize) -> usize
    ensures count { result ≡ length (ring_known (in_end cells.now a b)) }
    ensures bound { result < 2 ^ 63 }
{
    match cells.get(b) {
        Some(cell) => ring_len(cell, a),
        None => 0,
    }
}

/// Returns how many items of `a` wait for `b`.
fn wait_count<A: Actor>(cells: &[Cell<A>], a: usize, b: usize) -> usize
    ensures count { result ≡ length (waits_of (slice_get cells.now a) b) }
    ensures bound { result < 2 ^ 63 }
{
    match cells.get(a) {
        Some(cell) => wait_len(cell, b),
        None => 0,
    }
}

/// Returns how many items are in flight from `a` to `b`.
pub(crate) fn channel_count<A: Actor>(cells: &[Cell<A>], a: usize, b: usize) -> usize
    ensures { result ≡ length (ring_known (in_end cells.now a b)) + length (waits_of (slice_get cells.now a) b) }
{
    ring_count(cells, a, b) + wait_count(cells, a, b)
}

/// Returns how many items are in the rings that lead to a cell. The count stops at 2^64 - 1.
fn arrived_count<A: Actor>(cell: &Cell<A>) -> u64 {
    let mut count = 0u64;
    for from in cell.ins.peers.as_slice() {
        count = count.saturating_add(ring_len(cell, *from) as u64);
    }
    count
}

/// Returns the load of a cell: how many entries its journal has beyond the first `marked`, and how many
/// items are in the rings that lead to it. The load stops at 2^64 - 1.
fn load_of<A: Actor>(cell: &Cell<A>, marked: u64) -> u64 {
    let noted = (cell.post.entries().len() as u64).saturating_sub(marked);
    noted.saturating_add(arrived_count(cell))
}

/// Returns the load of each cell since this mark.
pub(crate) fn loads<A: Actor>(
    alloc: Global,
    cells: &[Cell<A>],
    mark: &[u64],
) -> Result<Vec<u64>, NoMemory>
    ensures { IfOk result (λ loads. length loads.items ≡ length cells.now) }
{
    let mut loads = Vec::with_capacity(alloc, cells.len())?;
    for (k, cell) in cells.iter().enumerate() {
        let marked = mark.get(k).copied().unwrap_or(0);
        loads.push(load_of(cell, marked))?;
    }
    Ok(loads)
}

/// Returns the greatest clock.
pub(crate) fn greatest_clock<A: Actor>(cells: &[Cell<A>]) -> u64
    requires { 0 < length cells.now }
    ensures bound { (k : ℕ) (d : Cell A A.Item) → k < length cells.now → clock_of (slice_index_or cells.now k d).post ≤ result }
    ensures is { (k : ℕ) × (k < length cells.now) × ((d : Cell A A.Item) → clock_of (slice_index_or cells.now k d).post ≡ result) }
{
    let mut greatest = cells[0].post.clock;
    for cell in cells {
        greatest = greatest.max(cell.post.clock);
    }
    greatest
}

ghost use Rattle.ring_net.specs.declared.cell.Cell.{Cell};
