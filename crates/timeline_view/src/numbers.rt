//! Which graft a session or a word on its way belongs to. What one router sends another comes there in its order.

ghost use Rattle.std.specs.Prelude.{◌≡◌, ◌++◌, IfOk, OnOk, filter};
ghost use Rattle.std.specs.List.{flat_map, enumerate_from};
ghost use Rattle.std.specs.Option.{option_copied};
ghost use Rattle.timeline_view.specs.Numbers.{graft_in, is_router, is_from, is_to, leaves, grafts_left, arrives, next_to_arrive};
ghost use Rattle.timeline_view.specs.Numbers.{turned_back_at, grafts_turned_back, returns, next_to_return, confirms, grafts_confirmed, clears, next_to_clear};

use graft_edge::{Items, NoMemory, RouterId};
use graft_steps::GraftEntry;
use lab_tables::Numbers;
use ring_net::JournalEntry;
use std::alloc::{AllocError, Global};

/// Returns the entry of a graft in the log.
pub fn graft_in(log: &[GraftEntry], graft: u32) -> Option<&GraftEntry>
    ensures { option_copied result ≡ graft_in log.now graft }
{
    log.iter().find(|entry| entry.graft == graft)
}

fn is_router(router: u32, other: Option<RouterId>) -> bool
    ensures { result ≡ is_router router other }
{
    match other {
        Some(other) => u32::from(other.0) == router,
        None => false,
    }
}

/// Whether a graft begins at this router.
fn is_from(log: &[GraftEntry], source: u32, graft: u32) -> bool
    ensures { result ≡ is_from source (graft_in log.now graft) }
{
    match graft_in(log, graft) {
        Some(entry) => is_router(source, entry.source),
        None => false,
    }
}

/// Whether a graft goes to this router.
fn is_to(log: &[GraftEntry], target: u32, graft: u32) -> bool
    ensures { result ≡ is_to target (graft_in log.now graft) }
{
    match graft_in(log, graft) {
        Some(entry) => u32::from(entry.target.0) == target,
        None => false,
    }
}

/// Whether a session left the source for the target.
fn leaves(log: &[GraftEntry], source: u32, target: u32, entry: &JournalEntry) -> bool
    ensures { result ≡ leaves log.now source target entry.now }
{
    entry.kind == 12 && u32::from(entry.actor) == source && is_to(log, target, entry.a)
}

/// The grafts of the sessions that left the source for the target.
fn grafts_left(
    alloc: Global,
    log: &[GraftEntry],
    source: u32,
    target: u32,
    entries: &[JournalEntry],
) -> Result<Vec<u32>, AllocError>
    ensures { IfOk result (λ grafts. grafts.items ≡ grafts_left log.now source target entries.now) }
{
    entries
        .iter()
        .filter(|entry| leaves(log, source, target, *entry))
        .map(|entry| entry.a)
        .collect(alloc)
}

/// Whether a session of the source arrived at the target.
fn arrives(source: u32, target: u32, entry: &JournalEntry) -> bool
    ensures { result ≡ arrives source target entry.now }
{
    (entry.kind == 13 || entry.kind == 14) && u32::from(entry.actor) == target && entry.a == source
}

/// Returns the graft of the next session that arrives at the target from the source, or 0.
pub(crate) fn next_to_arrive(
    alloc: Global,
    log: &[GraftEntry],
    source: u32,
    target: u32,
    entries: &[JournalEntry],
) -> Result<u32, NoMemory>
    ensures { IfOk result (λ graft. graft ≡ next_to_arrive log.now source target entries.now) }
{
    let grafts = grafts_left(alloc, log, source, target, entries)?;
    let taken = entries
        .iter()
        .filter(|entry| arrives(source, target, *entry))
        .count();
    Ok(grafts.get(taken).copied().unwrap_or(0))
}

/// The arrivals at the target of sessions of the source.
fn arrivals(
    alloc: Global,
    source: u32,
    target: u32,
    entries: &[JournalEntry],
) -> Result<Vec<JournalEntry>, AllocError>
    ensures { IfOk result (λ all. all.items ≡ filter (arrives source target) entries.now) }
{
    entries
        .iter()
        .filter(|entry| arrives(source, target, *entry))
        .copied()
        .collect(alloc)
}

/// Adds the graft of an arrival, by its number, if it was turned back.
fn push_turned_back(
    grafts: &mut Numbers,
    left: &[u32],
    index: usize,
    entry: &JournalEntry,
) -> Result<(), NoMemory>
    ensures { OnOk result (grafts.new ≡ grafts.old ++ turned_back_at left.now (index, entry.now)) }
{
    if entry.kind == 14 {
        grafts.push(left.get(index).copied().unwrap_or(0))?;
    }
    Ok(())
}

/// The grafts of the arrivals that were turned back, where these left.
fn turned_back_in(
    alloc: Global,
    left: &[u32],
    arrived: &[JournalEntry],
) -> Result<Numbers, NoMemory>
    ensures { IfOk result (λ grafts. grafts ≡ flat_map (turned_back_at left.now) (enumerate_from 0 arrived.now)) }
{
    let mut grafts = Items::new(alloc);
    for (index, entry) in arrived.iter().enumerate() {
        push_turned_back(&mut grafts, left, index, entry)?;
    }
    Ok(grafts)
}

/// The grafts of the sessions of the source that the target turned back.
fn grafts_turned_back(
    alloc: Global,
    log: &[GraftEntry],
    source: u32,
    target: u32,
    entries: &[JournalEntry],
) -> Result<Numbers, NoMemory>
    ensures { IfOk result (λ grafts. grafts ≡ grafts_turned_back log.now source target entries.now) }
{
    let left = grafts_left(alloc, log, source, target, entries)?;
    let arrived = arrivals(alloc, source, target, entries)?;
    turned_back_in(alloc, left.as_slice(), arrived.as_slice())
}

/// Whether the source took back a session from the target.
fn returns(source: u32, target: u32, entry: &JournalEntry) -> bool
    ensures { result ≡ returns source target entry.now }
{
    entry.kind == 15 && u32::from(entry.actor) == source && entry.a == target
}

/// Returns the graft of the next session that the source takes back from the target, or 0.
pub(crate) fn next_to_return(
    alloc: Global,
    log: &[GraftEntry],
    source: u32,
    target: u32,
    entries: &[JournalEntry],
) -> Result<u32, NoMemory>
    ensures { IfOk result (λ graft. graft ≡ next_to_return log.now source target entries.now) }
{
    let grafts = grafts_turned_back(alloc, log, source, target, entries)?;
    let taken = entries
        .iter()
        .filter(|entry| returns(source, target, *entry))
        .count();
    Ok(grafts.get(taken).copied().unwrap_or(0))
}

/// Whether the target gave word to the source.
fn confirms(log: &[GraftEntry], source: u32, target: u32, entry: &JournalEntry) -> bool
    ensures { result ≡ confirms log.now source target entry.now }
{
    entry.kind == 33 && u32::from(entry.actor) == target && is_from(log, source, entry.a)
}

/// The grafts of which the target gave word to the source.
fn grafts_confirmed(
    alloc: Global,
    log: &[GraftEntry],
    source: u32,
    target: u32,
    entries: &[JournalEntry],
) -> Result<Vec<u32>, AllocError>
    ensures { IfOk result (λ grafts. grafts.items ≡ grafts_confirmed log.now source target entries.now) }
{
    entries
        .iter()
        .filter(|entry| confirms(log, source, target, *entry))
        .map(|entry| entry.a)
        .collect(alloc)
}

/// Whether the source took word of the target.
fn clears(source: u32, target: u32, entry: &JournalEntry) -> bool
    ensures { result ≡ clears source target entry.now }
{
    entry.kind == 16 && u32::from(entry.actor) == source && entry.a == target
}

/// Returns the graft of the next word that the source takes from the target, or 0.
pub(crate) fn next_to_clear(
    alloc: Global,
    log: &[GraftEntry],
    source: u32,
    target: u32,
    entries: &[JournalEntry],
) -> Result<u32, NoMemory>
    ensures { IfOk result (λ graft. graft ≡ next_to_clear log.now source target entries.now) }
{
    let grafts = grafts_confirmed(alloc, log, source, target, entries)?;
    let taken = entries
        .iter()
        .filter(|entry| clears(source, target, *entry))
        .count();
    Ok(grafts.get(taken).copied().unwrap_or(0))
}
