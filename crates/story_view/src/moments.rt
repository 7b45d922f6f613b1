//! When and where the events of a session were.

ghost use Rattle.std.specs.Prelude.{◌≡◌, ◌++◌, IfOk, OnOk};
ghost use Rattle.story_view.specs.Story.{adds_to, moments_in, moments as moments_lem};

use graft_edge::{Items, NoMemory};
use ring_net::JournalEntry;
use std::alloc::Global;

/// The numbers of the events of a router that add to a story.
const PUT: u16 = 1;

const GOT: u16 = 5;

const TICK: u16 = 31;

/// A round of a run, and the number of the router that held the session then.
#[derive(Clone, Copy, Debug, PartialEq, Eq)]
pub struct Moment {
    pub round: usize,
    pub holder: u16,
}

/// Moments, in order.
pub type Moments = Items<Moment>;

/// Returns whether an entry adds to the story of a peering. A Put of no prefixes doesn't.
pub fn adds_to(peering: u32, entry: &JournalEntry) -> bool
    ensures { result ≡ adds_to peering entry.now }
{
    entry.a == peering
        && match entry.kind {
            PUT => entry.b > 0,
            GOT | TICK => true,
            _ => false,
        }
}

/// Adds the moment of the entry at an index, if the entry adds to the story of a peering.
fn push_event(
    all: &mut Moments,
    peering: u32,
    rounds: &[usize],
    index: usize,
    entry: &JournalEntry,
) -> Result<(), NoMemory>
    ensures { OnOk result (all.new ≡ all.old ++ moments_in peering rounds.now (index, entry.now)) }
{
    if adds_to(peering, entry) {
        all.push(Moment {
            round: rounds.get(index).copied().unwrap_or(0),
            holder: entry.actor,
        })?;
    }
    Ok(())
}

/// Returns the moments of a session: that of its OPEN, and that of each event of the peering in a journal whose entries have these rounds.
pub(crate) fn moments(
    alloc: Global,
    opening: Moment,
    peering: u32,
    journal: &[JournalEntry],
    rounds: &[usize],
) -> Result<Moments, NoMemory>
    ensures { IfOk result (λ all. all ≡ moments_lem opening peering journal.now rounds.now) }
{
    let mut all = Items::one(alloc, opening)?;
    for (index, entry) in journal.iter().enumerate() {
        push_event(&mut all, peering, rounds, index, entry)?;
    }
    Ok(all)
}
