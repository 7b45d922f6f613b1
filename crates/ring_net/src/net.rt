//! The net: cells and the edges between them, which make their turns in phases.

ghost use Rattle.std.specs.Prelude.{◌≡◌, ◌≤◌, ◌<◌, ◌+◌, ◌++◌, ℕ, false, length, map, slice_index_or, slice_get, IfOk, OnOk};
ghost use Rattle.ring_net.specs.Posts.{entries_in};
ghost use Rattle.std.specs.List.{list_any};
ghost use Rattle.ring_net.specs.declared.cell.Cell.{Cell};
ghost use Rattle.ring_net.specs.Cells.{CellTurned};
ghost use Rattle.ring_net.specs.Deals.{IsDeal, SwapsBelow, swapped};
ghost use Rattle.ring_net.specs.Phases.{NetPhase, InOrder};
ghost use Rattle.ring_net.specs.Fresh.{EdgesOnce};
ghost use Rattle.ring_net.specs.Journals.{ClocksRise-prop};
ghost use Rattle.std.proofs.Props.{props};
ghost use Rattle.ring_net.specs.Nets.{IsNet, view_of};

use crate::actor::Actor;
use crate::build::fresh_cells;
use crate::cell::{Cell, turn};
use crate::clocks::{level_all, pause_all};
use crate::deal::{Deal, deal_cells};
use crate::edges::read_all;
use crate::finish::{drain_all, split};
use crate::looks::{channel_count, entry_count, lengths};
use crate::parts::{Actors, Journals, Marks, Parts};
use graft_edge::{Gate, Items, NoMemory};
use std::alloc::Global;
use std::thread;
use std::thread::Threads;

/// Passes the gate with the number of the cell's actor, and then lets the cell make one turn.
fn pass_and_turn<G: Gate, A: Actor>(gate: &G, cell: &mut Cell<A>)
    ensures { CellTurned A.part A.makes A.took A.turned cell.old cell.new }
{
    gate.pass(usize::from(cell.post.actor));
    turn(cell);
}

/// Lets each cell make one turn, in threads that own a chunk of cells each. The gate is passed once at
/// the start of each turn.
fn turn_chunks<R: Threads + Sync, G: Gate, A: Actor + Send>(
    rt: &R,
    cells: &mut [Cell<A>],
    workers: usize,
    gate: &G,
)
where
    A::Item: Send,
    requires { 0 < workers }
    ensures { (k : ℕ) (d : Cell A A.Item) → k < length cells.old
        → CellTurned A.part A.makes A.took A.turned (slice_index_or cells.old k d) (slice_index_or cells.new k d) }
{
    thread::for_each_mut(
        rt,
        cells,
        workers,
        &|_k: usize, cell: &mut Cell<A>|
            ensures { CellTurned A.part A.makes A.took A.turned cell.entry.now cell.exit.now }
        { pass_and_turn(gate, cell) },
    );
}

/// Lets the two cells at each of these pairs of indices change places, in order.
fn swap_all<A: Actor>(cells: &mut [Cell<A>], swaps: &[(usize, usize)])
    requires { SwapsBelow (length cells.old) swaps.now }
    ensures { cells.new ≡ swapped cells.old swaps.now }
{
    for (a, b) in swaps {
        cells.swap(*a, *b);
    }
}

/// Deals the cells to the workers, lets each cell make one turn, and puts the cells back in their order.
fn turn_all<R: Threads + Sync, G: Gate, A: Actor + Send>(
    rt: &R,
    cells: &mut [Cell<A>],
    deal: Deal,
    gate: &G,
)
where
    A::Item: Send,
    requires { IsDeal (length cells.old) deal }
    ensures { (k : ℕ) (d : Cell A A.Item) → k < length cells.old
        → CellTurned A.part A.makes A.took A.turned (slice_index_or cells.old k d) (slice_index_or cells.new k d) }
{
    let Deal { workers, mut swaps } = deal;
    swap_all(cells, swaps.as_slice());
    turn_chunks(rt, cells, workers, gate);
    swaps.reverse();
    swap_all(cells, swaps.as_slice());
}

/// Whether a cell ran out of memory.
fn any_failed<A: Actor>(cells: &[Cell<A>]) -> bool
    ensures { result ≡ list_any (λ c. c.has_failed) cells.now }
{
    cells.iter().any(|cell| cell.has_failed)
}

/// Makes one phase, and then reads both ends of every edge.
fn phase_all<R: Threads + Sync, G: Gate, A: Actor + Send>(
    rt: &R,
    cells: &mut [Cell<A>],
    edges: &[(u16, u16)],
    deal: Deal,
    gate: &G,
) -> Result<(), NoMemory>
where
    A::Item: Send,
    requires deal { IsDeal (length cells.old) deal }
    requires net { IsNet cells.old edges.now }
    requires order { InOrder (view_of cells.old edges.now) }
    ensures net { IsNet cells.new edges.now }
    ensures order { OnOk result (InOrder (view_of cells.new edges.now)) }
    ensures phase { OnOk result (NetPhase A.part A.makes A.took A.turned (view_of cells.old edges.now) (view_of cells.new edges.now)) }
{
    turn_all(rt, cells, deal, gate);
    read_all(cells, edges);
    if any_failed(cells) {
        return Err(NoMemory);
    }
    Ok(())
}

/// Actors that send items to one another. Each edge from one actor to another is a ring with room for
/// 256 items and, in front of it, an outbox. Each actor has a journal and a clock of its own. Between
/// two phases, and at a mark, all of it is in one thread.
#[derive(Drop)]
pub struct Net<A: Actor> {
    cells: Vec<Cell<A>>,
    edges: Vec<(u16, u16)>,
    marks: Marks,
    has_failed: bool,
    ghost sound: { IsNet cells.items edges.items },
    ghost some: { 0 < length cells.items },
    ghost once: { EdgesOnce edges.items },
    ghost ordered: { has_failed ≡ false → InOrder (view_of cells.items edges.items) } by { Prim.hlevel (props, ClocksRise-prop) },
}

impl<A: Actor> Net<A> {
    ghost use Rattle.std.specs.Prelude.{◌≡◌, ◌≤◌, ◌<◌, ◌+◌, ◌++◌, ◌∷◌, [], ℕ, true, false, length, map, OnOk, OnErr, IsErr, IfOk, slice_get, Some};
    ghost use Rattle.ring_net.specs.Shown.{view, marks, edge_list, has_failed};
    ghost use Rattle.ring_net.specs.Phases.{IsNewNet, InOrder, Marked, CountsAll, Levelled, Between, NetPhase};
    ghost use Rattle.ring_net.specs.Fresh.{AreEdges};
    ghost use Rattle.ring_net.specs.Left.{HasJournals, items_left};

    /// Returns the net of these actors, numbered from 0, with an edge for each pair of a sender and a
    /// receiver. There have to be at least one actor and at most 65,536. Each edge has to join two
    /// different ones of these actors, and no edge may occur twice. The net's memory grows with the
    /// square of the number of actors. The marks begin with one in which every length is 0. If memory
    /// runs out, the actors are lost.
    pub fn build(alloc: Global, actors: Actors<A>, edges: &[(u16, u16)]) -> Result<Net<A>, NoMemory>
        requires count { (1 ≤ length actors) × (length actors ≤ 65536) }
        requires edges { AreEdges (length actors) edges.now }
        ensures new { IfOk result (λ net. IsNewNet actors edges.now (view net)) }
        ensures marks { IfOk result (λ net. Marked (view net) [] (marks net)) }
        ensures edges { IfOk result (λ net. edge_list net ≡ edges.now) }
        ensures failed { IfOk result (λ net. has_failed net ≡ false) }
    {
        let cells = fresh_cells(alloc, actors, edges)?;
        let mut marks = Items::new(alloc);
        marks.push(lengths(alloc, cells.as_slice())?)?;
        Ok(Net {
            cells,
            edges: Vec::from_slice(alloc, edges)?,
            marks,
            has_failed: false,
        })
    }

    /// Makes a phase: each actor takes the items in the rings that lead to it, at most 256 from each,
    /// in ascending order of the senders' numbers, and then makes one turn, which may push items into
    /// the rings that lead from it. There are 1 to 8 workers: each is a thread that owns some of the
    /// actors. Actors are dealt to workers by what they did since one of the last marks and by what has
    /// come to them, so that each worker has about as much to do. Where little was done since the mark
    /// before the last one and little has come, there are fewer workers. One worker lets the actors act
    /// in the order of their numbers. The gate is passed once at the start of each actor's part. If
    /// memory runs out, nothing more is promised about the actors, and every later phase returns
    /// `NoMemory` too.
    pub fn phase<R: Threads + Sync, G: Gate>(
        &mut self,
        rt: &R,
        workers: usize,
        gate: &G,
    ) -> Result<(), NoMemory>
    where
        A: Send,
        A::Item: Send,
        requires { (1 ≤ workers) × (workers ≤ 8) }
        ensures phase { OnOk result (NetPhase A.part A.makes A.took A.turned (view self.old) (view self.new)) }
        ensures failed { OnErr result (has_failed self.new ≡ true) }
        ensures stays { has_failed self.old ≡ true → IsErr result }
        ensures marks { marks self.new ≡ marks self.old }
        ensures edges { edge_list self.new ≡ edge_list self.old }
    {
        if self.has_failed {
            return Err(NoMemory);
        }
        let deal = deal_cells(
            *self.cells.allocator(),
            self.cells.as_slice(),
            self.marks.as_slice(),
            workers,
        );
        let turned = phase_all(
            rt,
            self.cells.as_mut_slice(),
            self.edges.as_slice(),
            deal,
            gate,
        );
        self.has_failed = turned.is_err();
        turned
    }

    /// Appends the length of each journal to the marks. If memory runs out, nothing changes.
    pub fn mark(&mut self) -> Result<(), NoMemory>
        ensures marks { OnOk result (Marked (view self.old) (marks self.old) (marks self.new)) }
        ensures err { OnErr result (marks self.new ≡ marks self.old) }
        ensures view { view self.new ≡ view self.old }
        ensures same { (edge_list self.new ≡ edge_list self.old) × (has_failed self.new ≡ has_failed self.old) }
    {
        let mark = lengths(*self.cells.allocator(), self.cells.as_slice())?;
        self.marks.push(mark)
    }

    /// Sets every clock to the greatest one.
    pub fn level(&mut self)
        ensures level { Levelled (view self.old) (view self.new) }
        ensures order { has_failed self.old ≡ false → InOrder (view self.new) }
        ensures marks { marks self.new ≡ marks self.old }
        ensures same { (edge_list self.new ≡ edge_list self.old) × (has_failed self.new ≡ has_failed self.old) }
    {
        level_all(self.cells.as_mut_slice());
    }

    /// Levels the clocks, lets the actor of number `k` do what it does at a mark, and levels the clocks
    /// again. Returns whether the actor made an event. `k` has to be below the number of actors. If
    /// memory runs out, the net fails from then on.
    pub fn between(&mut self, k: usize) -> Result<bool, NoMemory>
        requires { k < length (view self.old).actors }
        ensures between { IfOk result (Between A.part A.makes A.paused k (view self.old) (view self.new)) }
        ensures order { OnOk result (has_failed self.old ≡ false → InOrder (view self.new)) }
        ensures failed { OnErr result (has_failed self.new ≡ true) }
        ensures marks { marks self.new ≡ marks self.old }
        ensures same { edge_list self.new ≡ edge_list self.old }
        ensures stays { OnOk result (has_failed self.new ≡ has_failed self.old) }
    {
        match pause_all(self.cells.as_mut_slice(), k) {
            Ok(answer) => Ok(answer),
            Err(NoMemory) => {
                self.has_failed = true;
                Err(NoMemory)
            }
        }
    }

    /// Returns how many items are in flight from one actor to another; 0 if no edge leads there.
    pub fn in_flight(&self, from: usize, to: usize) -> usize
        ensures { result ≡ length ((view self.now).channel from to) }
    {
        channel_count(self.cells.as_slice(), from, to)
    }

    /// Returns the number of entries in all journals. The count stops at 2^64 - 1.
    pub fn events(&self) -> u64
        ensures { CountsAll (view self.now) result }
    {
        entry_count(self.cells.as_slice())
    }

    /// Returns the actor of number `k`, which has to be below the number of actors.
    pub fn actor(&self, k: usize) -> &A
        requires { k < length (view self.now).actors }
        ensures { slice_get (view self.now).actors k ≡ Some result.now }
    {
        &self.cells[k].actor
    }

    /// Returns what remains of the net: the actors, their journals and the marks, and for each edge the
    /// items that are left in its channel, those of the ring first. A net that has failed returns
    /// `NoMemory`. If memory runs out, the net is lost.
    pub fn finish(self) -> Result<Parts<A>, NoMemory>
        ensures actors { IfOk result (λ parts. parts.actors ≡ (view self).actors) }
        ensures journals { IfOk result (λ parts. HasJournals (view self) parts.journals) }
        ensures marks { IfOk result (λ parts. parts.marks ≡ marks self) }
        ensures left { IfOk result (λ parts. parts.left ≡ items_left (view self) (edge_list self)) }
        ensures failed { has_failed self ≡ true → IsErr result }
    {
        let Net {
            mut cells,
            edges,
            marks,
            has_failed,
        } = self;
        if has_failed {
            return Err(NoMemory);
        }
        let alloc = *cells.allocator();
        let left = drain_all(alloc, cells.as_mut_slice(), edges.as_slice())?;
        let (actors, journals) = split(alloc, cells)?;
        Ok(Parts {
            actors,
            journals: Journals::from_items(journals),
            marks,
            left,
        })
    }
}
