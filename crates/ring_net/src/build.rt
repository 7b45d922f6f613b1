//! The cells of a net before its first phase.

ghost use Rattle.std.specs.Prelude.{◌≡◌, ◌≢◌, ◌≤◌, ◌<◌, ◌==◌, ◌++◌, ◌∷◌, [], ℕ, None, Some, true, false};
ghost use Rattle.std.specs.Prelude.{if◌then◌else◌, length, map, slice_index_or, OnOk, IfOk};
ghost use Rattle.ring_net.specs.Posts.{actor_of, clock_of, entries_in, has_edge, waits};
ghost use Rattle.ring_net.specs.Fresh.{IsBlank, AllBlank, AddsOut, AddsIn, Connects, Fresh};
ghost use Rattle.ring_net.specs.Nets.{Linked, IsOneRing, Known};
ghost use Rattle.rtrb.specs.Ring.{known_items};

use crate::actor::Actor;
use crate::cell::Cell;
use crate::ends::Ends;
use crate::entry::Stamped;
use crate::parts::Actors;
use crate::post::{Post, open_box};
use graft_edge::NoMemory;
use rtrb::{Consumer, Producer, RingBuffer};
use std::alloc::Global;

/// The number of items that a ring has room for.
const ROOM: usize = 256;

/// Returns the cell of an actor, without an edge.
fn begin_cell<A: Actor>(alloc: Global, actor: A, number: u16) -> Result<Cell<A>, NoMemory>
    ensures actor { IfOk result (λ c. c.actor ≡ actor) }
    ensures blank { IfOk result (λ c. IsBlank number c) }
{
    Ok(Cell {
        actor,
        post: Post::begin(alloc, number, 0, &[])?,
        rings: Ends::new(alloc),
        ins: Ends::new(alloc),
        has_failed: false,
    })
}

/// Returns the cells of these actors, without edges.
fn begin_cells<A: Actor>(alloc: Global, actors: Vec<A>) -> Result<Vec<Cell<A>>, NoMemory>
    requires { length actors.items ≤ 65536 }
    ensures actors { IfOk result (λ cells. map (λ c. c.actor) cells.items ≡ actors.items) }
    ensures blank { IfOk result (λ cells. AllBlank cells.items) }
{
    let mut cells = Vec::new(alloc);
    let mut number = 0u32;
    for actor in actors {
        let cell = begin_cell(alloc, actor, number as u16)?;
        cells.push(cell)?;
        number += 1;
    }
    Ok(cells)
}

/// Adds to a cell an outbox and the sending end of a ring to the actor `b`.
fn add_out<A: Actor>(
    alloc: Global,
    cell: &mut Cell<A>,
    b: usize,
    out: Producer<Stamped<A::Item>>,
) -> Result<(), NoMemory>
    ensures { OnOk result (AddsOut b out cell.old cell.new) }
{
    open_box(alloc, &mut cell.post.boxes, b)?;
    cell.rings.put(b, out)
}

/// Adds to a cell the receiving end of a ring from the actor `a`.
fn add_in<A: Actor>(
    cell: &mut Cell<A>,
    a: usize,
    into: Consumer<Stamped<A::Item>>,
) -> Result<(), NoMemory>
    ensures { OnOk result (AddsIn a into cell.old cell.new) }
{
    cell.ins.put(a, into)
}

/// Creates the ring of the edge from the actor `a` to the actor `b`.
fn connect<A: Actor>(
    alloc: Global,
    cells: &mut [Cell<A>],
    a: usize,
    b: usize,
) -> Result<(), NoMemory>
    requires apart { a ≢ b }
    requires from { a < length cells.old }
    requires to { b < length cells.old }
    ensures { OnOk result (Connects a b cells.old cells.new) }
{
    let (out, into) = RingBuffer::new(alloc, ROOM)?;
    add_out(alloc, &mut cells[a], b, out)?;
    add_in(&mut cells[b], a, into)?;
    Ok(())
}

ghost use Rattle.ring_net.specs.Fresh.{AreEdges};

/// Creates the rings of all edges.
fn connect_all<A: Actor>(
    alloc: Global,
    cells: &mut [Cell<A>],
    edges: &[(u16, u16)],
) -> Result<(), NoMemory>
    requires edges { AreEdges (length cells.old) edges.now }
    requires fresh { AllBlank cells.old }
    ensures fresh { OnOk result (Fresh cells.new edges.now) }
    ensures actors { OnOk result (map (λ c. c.actor) cells.new ≡ map (λ c. c.actor) cells.old) }
{
    for (from, to) in edges {
        connect(alloc, cells, usize::from(*from), usize::from(*to))?;
    }
    Ok(())
}

/// Returns the cells of these actors, with the rings of these edges.
pub(crate) fn fresh_cells<A: Actor>(
    alloc: Global,
    actors: Actors<A>,
    edges: &[(u16, u16)],
) -> Result<Vec<Cell<A>>, NoMemory>
    requires count { length actors ≤ 65536 }
    requires edges { AreEdges (length actors) edges.now }
    ensures fresh { IfOk result (λ cells. Fresh cells.items edges.now) }
    ensures actors { IfOk result (λ cells. map (λ c. c.actor) cells.items ≡ actors) }
{
    let mut cells = begin_cells(alloc, actors.into_vec())?;
    connect_all(alloc, cells.as_mut_slice(), edges)?;
    Ok(cells)
}
