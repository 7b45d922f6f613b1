//! The deal of cells to workers. In a phase each worker has a chunk of the cells. Before it cells change
//! places, so that the actors that have much to do come to different workers.

ghost use Rattle.std.specs.Prelude.{◌≡◌, ◌≤◌, ◌<◌, ℕ, length, slice_index_or, IfOk, OnOk, IfSome};
ghost use Rattle.std.specs.List.{All};
ghost use Rattle.ring_net.specs.declared.deal.Hand.{Hand};
ghost use Rattle.ring_net.specs.Deals.{SwapsBelow, IsDeal};

use crate::actor::Actor;
use crate::cell::Cell;
use crate::looks::loads;
use crate::parts::Mark;
use graft_edge::NoMemory;
use std::alloc::Global;

/// Pairs of indices: in their order, the two cells at each pair change places.
pub(crate) type Swaps = Vec<(usize, usize)>;

/// How many entries of the last round and waiting items each worker has to get at least, for the start of
/// its thread to be worth its time: it takes about as long as the work of 64.
const WORTH: u64 = 256;

/// The number of last rounds whose loads say in which order actors are dealt.
const ROUNDS: usize = 8;

/// What a worker has been dealt: the first index of its chunk that is still free, the end of the chunk,
/// and the load of the actors before.
#[derive(Drop)]
struct Hand {
    next: usize,
    end: usize,
    load: u64,
}

/// Returns what each worker has before `count` cells are dealt. The last ones may have no room.
fn hands(alloc: Global, count: usize, workers: usize) -> Result<Vec<Hand>, NoMemory>
    requires { 0 < workers }
    ensures { IfOk result (λ hands. All (λ hand. hand.end ≤ count) hands.items) }
{
    let size = count.div_ceil(workers);
    let mut hands = Vec::new(alloc);
    let mut next = 0;
    for _ in 0..workers {
        let end = next + size.min(count - next);
        hands.push(Hand { next, end, load: 0 })?;
        next = end;
    }
    Ok(hands)
}

/// Returns the index of the first worker that has the least load of those with room.
fn lightest(hands: &[Hand]) -> Option<usize>
    ensures { IfSome result (λ k. (k < length hands.now) × ((d : Hand) → (slice_index_or hands.now k d).next < (slice_index_or hands.now k d).end)) }
{
    let mut least = u64::MAX;
    let mut lightest = None;
    for (index, hand) in hands.iter().enumerate() {
        if hand.next < hand.end && hand.load < least {
            least = hand.load;
            lightest = Some(index);
        }
    }
    lightest
}

/// Deals an actor of this load to the worker that has the least load, and returns the index that its cell
/// is to have.
fn next_place(hands: &mut [Hand], load: u64) -> Option<usize>
    ensures place { (count : ℕ) → All (λ hand. hand.end ≤ count) hands.old → IfSome result (λ place. place < count) }
    ensures hands { (count : ℕ) → All (λ hand. hand.end ≤ count) hands.old → All (λ hand. hand.end ≤ count) hands.new }
{
    let index = lightest(hands)?;
    let place = hands[index].next;
    hands[index].next = place.saturating_add(1);
    hands[index].load = hands[index].load.saturating_add(load);
    Some(place)
}

/// Where the cells of actors are while they are dealt.
#[derive(Drop)]
struct Table {
    // The actor of each cell, by the cell's index.
    actors: Vec<usize>,
    // The index of each actor's cell, by the actor.
    places: Vec<usize>,
    swaps: Swaps,
    ghost same: { length actors.items ≡ length places.items },
    ghost actors_below: { All (λ k. k < length places.items) actors.items },
    ghost places_below: { All (λ k. k < length places.items) places.items },
    ghost swaps_below: { SwapsBelow (length places.items) swaps.items },
}

impl Table {
    /// Returns the table in which each of `count` cells is at its actor's number.
    fn new(alloc: Global, count: usize) -> Result<Table, NoMemory>
        ensures { IfOk result (λ table. length table.places.items ≡ count) }
    {
        let mut numbers = Vec::with_capacity(alloc, count)?;
        for number in 0..count {
            numbers.push(number)?;
        }
        Ok(Table {
            actors: Vec::from_slice(alloc, numbers.as_slice())?,
            places: numbers,
            swaps: Vec::new(alloc),
        })
    }

    /// Lets the cell of this actor and the one at this index change places.
    fn put(&mut self, actor: usize, place: usize) -> Result<(), NoMemory>
        requires actor { actor < length self.old.places.items }
        requires place { place < length self.old.places.items }
        ensures { length self.new.places.items ≡ length self.old.places.items }
    {
        let from = self.places[actor];
        if from != place {
            self.swaps.push((place, from))?;
            let other = self.actors[place];
            self.actors.swap(place, from);
            self.places.swap(actor, other);
        }
        Ok(())
    }
}

/// Returns the actors that have a load, each behind its load, in descending order of load.
fn by_load(alloc: Global, loads: &[u64]) -> Result<Vec<(u64, usize)>, NoMemory>
    ensures { IfOk result (λ order. All (λ dealt. dealt.1 < length loads.now) order.items) }
{
    let mut order = Vec::new(alloc);
    for (actor, load) in loads.iter().enumerate() {
        if *load > 0 {
            order.push((*load, actor))?;
        }
    }
    order.sort_unstable_by(|first, second| second.cmp(first));
    Ok(order)
}

/// Deals actors in this order, each behind its load, to these workers, and returns the swaps.
fn deal_all(order: &[(u64, usize)], hands: &mut [Hand], mut table: Table) -> Result<Swaps, NoMemory>
    requires actors { All (λ dealt. dealt.1 < length table.places.items) order.now }
    requires hands { All (λ hand. hand.end ≤ length table.places.items) hands.old }
    ensures { IfOk result (λ swaps. SwapsBelow (length table.places.items) swaps.items) }
{
    for (load, actor) in order {
        if let Some(place) = next_place(hands, *load) {
            table.put(*actor, place)?;
        }
    }
    let Table { swaps, .. } = table;
    Ok(swaps)
}

/// Returns the swaps that deal actors of these loads: in descending order of load, each comes to the
/// worker that has the least load so far and room for one more.
fn swaps_of(alloc: Global, loads: &[u64], workers: usize) -> Result<Swaps, NoMemory>
    requires { 0 < workers }
    ensures { IfOk result (λ swaps. SwapsBelow (length loads.now) swaps.items) }
{
    let order = by_load(alloc, loads)?;
    let mut hands = hands(alloc, loads.len(), workers)?;
    let table = Table::new(alloc, loads.len())?;
    deal_all(order.as_slice(), hands.as_mut_slice(), table)
}

/// How the cells of a phase go to workers: they change places, and then each worker has a chunk of them.
#[derive(Drop)]
pub(crate) struct Deal {
    pub(crate) workers: usize,
    pub(crate) swaps: Swaps,
}

/// Returns the number of workers that this load is worth, which is at most `workers` and at least 1.
fn worth(load: u64, workers: usize) -> usize
    requires { 0 < workers }
    ensures { (0 < result) × (result ≤ workers) }
{
    workers.min((load / WORTH) as usize).max(1)
}

/// Returns the sum of loads. It stops at 2^64 - 1.
fn total(loads: &[u64]) -> u64 {
    let mut total = 0u64;
    for load in loads {
        total = total.saturating_add(*load);
    }
    total
}

/// Returns the mark this many rounds before the last one, or the first one.
fn mark_before(marks: &[Mark], rounds: usize) -> &[u64] {
    match marks.get(marks.len().saturating_sub(1).saturating_sub(rounds)) {
        Some(mark) => mark.as_slice(),
        None => &[],
    }
}

/// Deals cells in the order of their loads over the last rounds. Their load over the last round alone says
/// how many workers they are worth.
fn deal_by_load<A: Actor>(
    alloc: Global,
    cells: &[Cell<A>],
    marks: &[Mark],
    workers: usize,
) -> Result<Deal, NoMemory>
    requires { 0 < workers }
    ensures { IfOk result (IsDeal (length cells.now)) }
{
    let last = loads(alloc, cells, mark_before(marks, 1))?;
    let workers = worth(total(last.as_slice()), workers);
    if workers == 1 {
        let swaps = Vec::new(alloc);
        return Ok(Deal { workers, swaps });
    }
    let lately = loads(alloc, cells, mark_before(marks, ROUNDS))?;
    let swaps = swaps_of(alloc, lately.as_slice(), workers)?;
    Ok(Deal { workers, swaps })
}

/// Deals cells to at most this many workers, by what the actors did in the last rounds and by what has
/// come to them since. One worker gets them in the order of their numbers, and so do several if memory
/// runs out.
pub(crate) fn deal_cells<A: Actor>(
    alloc: Global,
    cells: &[Cell<A>],
    marks: &[Mark],
    workers: usize,
) -> Deal
    requires { 0 < workers }
    ensures { IsDeal (length cells.now) result }
{
    if workers > 1 {
        if let Ok(dealt) = deal_by_load(alloc, cells, marks, workers) {
            return dealt;
        }
    }
    Deal {
        workers,
        swaps: Vec::new(alloc),
    }
}
