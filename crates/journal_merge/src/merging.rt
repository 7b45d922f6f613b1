//! The merge of journals.

ghost use Rattle.std.specs.Prelude.{◌≡◌, ◌<◌, ◌+◌, ◌++◌, [], flat_map, length, slice_index_or, IfOk};
ghost use Rattle.std.specs.Prelude.{IsPermutation};
ghost use Rattle.journal_merge.specs.Merges.{IsMerged, Interleaves, NoneBefore, AllOrdered, by_clock};

use graft_edge::{Items, NoMemory};
use ring_net::{Journal, JournalEntry, Journals};
use std::alloc::Global;

/// Whether an entry is before another: by clock, and at the same clock by actor.
fn is_before(first: &JournalEntry, second: &JournalEntry) -> bool
    ensures { result ≡ by_clock first.now second.now }
{
    first.clock < second.clock || first.clock == second.clock && first.actor < second.actor
}

/// Returns the entries of two sorted lists as one sorted list.
fn merge_two(
    alloc: Global,
    first: &[JournalEntry],
    second: &[JournalEntry],
) -> Result<Journal, NoMemory>
    requires first { NoneBefore first.now }
    requires second { NoneBefore second.now }
    ensures all { IfOk result (IsPermutation (first.now ++ second.now)) }
    ensures order { IfOk result NoneBefore }
{
    let mut merged = Vec::with_capacity(alloc, first.len().saturating_add(second.len()))?;
    let mut i = 0;
    let mut j = 0;
    while i < first.len() && j < second.len() {
        if is_before(&second[j], &first[i]) {
            merged.push(second[j])?;
            j += 1;
        } else {
            merged.push(first[i])?;
            i += 1;
        }
    }
    merged.extend_from_slice(&first[i..])?;
    merged.extend_from_slice(&second[j..])?;
    Ok(Items::from_vec(merged))
}

/// Returns the index of a shortest list.
fn shortest(runs: &[Journal]) -> usize
    requires { 0 < length runs.now }
    ensures { result < length runs.now }
{
    let mut shortest = 0;
    for at in 1..runs.len() {
        if runs[at].len() < runs[shortest].len() {
            shortest = at;
        }
    }
    shortest
}

/// Removes and returns a shortest one of sorted lists.
fn take_shortest(runs: &mut Vec<Journal>) -> Journal
    requires { 0 < length runs.old.items }
    ensures all { IsPermutation (flat_map (λ run. run) runs.old.items) (result ++ flat_map (λ run. run) runs.new.items) }
    ensures order { AllOrdered runs.old.items → NoneBefore result × AllOrdered runs.new.items }
    ensures fewer { length runs.new.items + 1 ≡ length runs.old.items }
{
    let at = shortest(runs);
    runs.remove(at)
}

/// Returns the entries of sorted lists as one sorted list. It merges the two shortest lists repeatedly.
fn merge_all(alloc: Global, mut runs: Vec<Journal>) -> Result<Journal, NoMemory>
    requires { AllOrdered runs.items }
    ensures all { IfOk result (IsPermutation (flat_map (λ run. run) runs.items)) }
    ensures order { IfOk result NoneBefore }
{
    while runs.len() > 1 {
        let first = take_shortest(&mut runs);
        let second = take_shortest(&mut runs);
        runs.push(merge_two(alloc, first.as_slice(), second.as_slice())?)?;
    }
    match runs.pop() {
        Some(run) => Ok(run),
        None => Ok(Items::new(alloc)),
    }
}

/// Returns all entries by clock, and at the same clock by actor. The time it takes grows with the
/// number of entries times the logarithm of the number of journals, and with the square of the number
/// of journals. It holds each entry at most twice. If memory runs out, the journals are lost.
pub fn merge(alloc: Global, journals: Journals) -> Result<Journal, NoMemory>
    ensures merged { IfOk result (IsMerged journals) }
    ensures each { IfOk result (Interleaves (λ k. slice_index_or journals k [])) }
{
    merge_all(alloc, journals.into_items().into_vec())
}
