//! The rounds of a journal's entries.

ghost use Rattle.std.specs.Prelude.{ℕ, ◌≡◌, ◌+◌, ◌-◌, ◌^◌, ◌<◌, ◌≤◌, length, slice_index, slice_set, IfOk};
ghost use Rattle.entry_rounds.specs.Rounds.{made_at, round_of, entry_rounds as entry_rounds_lem};

use graft_edge::{Items, NoMemory};
use ring_net::{JournalEntry, Mark};
use std::alloc::Global;

/// One more than the greatest number that an actor can have.
const ACTORS: usize = 65_536;

/// Returns how many entries an actor had made at a mark.
fn made_at(actor: usize, mark: &Mark) -> u64
    ensures { result ≡ made_at actor mark.now }
{
    mark.get(actor).copied().unwrap_or(0)
}

/// Returns the round of an actor's entry with `earlier` of its own before it. The first `known` marks are known to come before the entry.
#[tactic(auto, using(crate::proofs::Marks::passes_more, crate::proofs::Marks::ends_there, crate::proofs::Marks::after_all))]
fn round_from(marks: &[Mark], actor: usize, earlier: usize, known: usize) -> usize
    requires { known ≤ round_of marks.now actor earlier }
    ensures { result ≡ round_of marks.now actor earlier }
{
    for round in known..marks.len() {
        if made_at(actor, &marks[round]) > earlier as u64 {
            return round;
        }
    }
    marks.len()
}

/// Returns so many zeros.
#[tactic(auto, using(crate::proofs::Walks::none_made))]
fn zeros(alloc: Global, count: usize) -> Result<Vec<usize>, NoMemory>
    ensures count { IfOk result (λ list. length list.items ≡ count) }
    ensures zeros { IfOk result (λ list. (k : ℕ) → slice_index list.items k ≡ 0) }
{
    Ok(vec![in alloc; 0usize; count]?)
}

/// Passes the next entry of an actor, and returns its round. By actor there is how many entries were passed, and a number of marks that are known to
/// come before the next one.
fn pass(marks: &[Mark], passed: &mut [usize], known: &mut [usize], actor: u16) -> usize
    requires passed { actor < length passed.old }
    requires known { actor < length known.old }
    requires before { slice_index known.old actor ≤ round_of marks.now actor (slice_index passed.old actor) }
    requires room { slice_index passed.old actor < 2 ^ 64 - 1 }
    ensures place { (actor < length passed.old) × (actor < length known.old) }
    ensures round { result ≡ round_of marks.now actor (slice_index passed.old actor) }
    ensures passed { passed.new ≡ slice_set passed.old actor (slice_index passed.old actor + 1) }
    ensures known { known.new ≡ slice_set known.old actor result }
{
    let place = usize::from(actor);
    let round = round_from(marks, place, passed[place], known[place]);
    passed[place] += 1;
    known[place] = round;
    round
}

/// Returns the round of each entry of a journal. By actor nothing was passed and no mark is known yet.
#[tactic(auto, using(crate::proofs::Walks::sets_out))]
fn rounds_along(
    alloc: Global,
    marks: &[Mark],
    passed: &mut [usize],
    known: &mut [usize],
    journal: &[JournalEntry],
) -> Result<Items<usize>, NoMemory>
    requires all_passed { length passed.old ≡ 65536 }
    requires all_known { length known.old ≡ 65536 }
    requires none_passed { (actor : ℕ) → slice_index passed.old actor ≡ 0 }
    requires none_known { (actor : ℕ) → slice_index known.old actor ≡ 0 }
    ensures { IfOk result (λ rounds. rounds ≡ entry_rounds_lem marks.now journal.now) }
{
    let mut rounds = Items::from_vec(Vec::with_capacity(alloc, journal.len())?);
    for entry in journal {
        let round = pass(marks, passed, known, entry.actor);
        rounds.push(round)?;
    }
    Ok(rounds)
}

/// Returns the round of each entry of the merged journal of a run, by the marks of the run: round 1 is the one in front of the second
/// mark. Where no mark counts an entry, it is the number of all marks. It takes one pass over the journal, and for each actor one over
/// the marks; and a mebibyte beside the result.
pub fn entry_rounds(
    alloc: Global,
    marks: &[Mark],
    journal: &[JournalEntry],
) -> Result<Items<usize>, NoMemory>
    ensures { IfOk result (λ rounds. rounds ≡ entry_rounds_lem marks.now journal.now) }
{
    let mut passed = zeros(alloc, ACTORS)?;
    let mut known = zeros(alloc, ACTORS)?;
    rounds_along(alloc, marks, &mut passed, &mut known, journal)
}
