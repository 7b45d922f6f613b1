//! Levelling of clocks, and what an actor does at a mark.

ghost use Rattle.std.specs.Prelude.{◌≡◌, ◌≢◌, ◌≤◌, ◌<◌, ◌+◌, ℕ, List, length, map, slice_index_or, slice_set, OnOk, IfOk};
ghost use Rattle.ring_net.specs.Posts.{clock_of, SameEdges, Pauses};
ghost use Rattle.ring_net.specs.Cells.{with_clock};
ghost use Rattle.ring_net.specs.Clocks.{LevelsAll, PausesAt, PausesCell, KeepsEnds};
ghost use Rattle.ring_net.specs.Nets.{IsNet, view_of};
ghost use Rattle.ring_net.specs.Phases.{InOrder, Levelled, Between};

use crate::actor::Actor;
use crate::cell::Cell;
use crate::looks::greatest_clock;
use graft_edge::NoMemory;

/// Sets every clock to this value.
fn set_clocks<A: Actor>(cells: &mut [Cell<A>], clock: u64)
    ensures { cells.new ≡ map (with_clock clock) cells.old }
{
    for cell in cells.iter_mut() {
        cell.post.clock = clock;
    }
}

/// Sets every clock to the greatest one.
fn level_clocks<A: Actor>(cells: &mut [Cell<A>])
    requires { 0 < length cells.old }
    ensures { LevelsAll cells.old cells.new }
{
    let clock = greatest_clock(cells);
    set_clocks(cells, clock);
}

/// Lets the actor of a cell do what it does at a mark.
fn pause<A: Actor>(cell: &mut Cell<A>) -> Result<bool, NoMemory>
    ensures cell { PausesCell cell.old cell.new }
    ensures pauses { IfOk result (Pauses A.part A.makes A.paused cell.old.actor cell.old.post cell.new.actor cell.new.post) }
{
    cell.actor.between(&mut cell.post)
}

/// Lets the actor of the cell of this number do what it does at a mark, between two levellings of the
/// clocks.
fn pause_at<A: Actor>(cells: &mut [Cell<A>], k: usize) -> Result<bool, NoMemory>
    requires { k < length cells.old }
    ensures kept { KeepsEnds cells.old cells.new }
    ensures pauses { IfOk result (PausesAt A.part A.makes A.paused k cells.old cells.new) }
{
    level_clocks(cells);
    let answer = pause(&mut cells[k])?;
    level_clocks(cells);
    Ok(answer)
}

/// Sets every clock of a net's cells to the greatest one.
pub(crate) fn level_all<A: Actor>(cells: &mut [Cell<A>])
    requires { 0 < length cells.old }
    ensures net { (edges : List (ℕ × ℕ)) → IsNet cells.old edges → IsNet cells.new edges }
    ensures order { (edges : List (ℕ × ℕ)) → InOrder (view_of cells.old edges) → InOrder (view_of cells.new edges) }
    ensures level { (edges : List (ℕ × ℕ)) → Levelled (view_of cells.old edges) (view_of cells.new edges) }
{
    level_clocks(cells);
}

/// Levels the clocks of a net's cells, lets the actor of this number do what it does at a mark, and
/// levels the clocks again.
pub(crate) fn pause_all<A: Actor>(cells: &mut [Cell<A>], k: usize) -> Result<bool, NoMemory>
    requires { k < length cells.old }
    ensures net { (edges : List (ℕ × ℕ)) → IsNet cells.old edges → IsNet cells.new edges }
    ensures order { OnOk result ((edges : List (ℕ × ℕ)) → IsNet cells.old edges → InOrder (view_of cells.old edges) → InOrder (view_of cells.new edges)) }
    ensures pauses { IfOk result (λ answer. (edges : List (ℕ × ℕ)) → IsNet cells.old edges
        → Between A.part A.makes A.paused k (view_of cells.old edges) (view_of cells.new edges) answer) }
{
    let answer = pause_at(cells, k)?;
    Ok(answer)
}
