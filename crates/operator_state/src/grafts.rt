//! What the operator records of each graft of the script, and where sessions belong by that.

ghost use Rattle.std.specs.Prelude.{◌≡◌, ◌≤◌, ◌++◌, Some, length, map, IfOk, OnOk};
ghost use Rattle.std.specs.List.{flat_map};
ghost use Rattle.operator_state.specs.Grafts.{is_open, seat_at};
ghost use Rattle.operator_state.specs.Slots.{move_of, open_graft as open_graft_lem, first_open as first_open_lem, entries_in_slot, issued_slot};
ghost use Rattle.operator_state.specs.Slots.{ended_slot, waiting_entry as waiting_entry_lem, unmade_slots, first_slots as first_slots_lem};

use actor_configs::ScriptStep;
use graft_edge::{Items, NoMemory, PeeringId, RouterId, TryCopy};
use graft_steps::{GraftEntry, GraftLog, GraftStage, Outcome, Refusal};
use std::alloc::Global;

/// Where the session of a peering belongs by the log, and whether a graft of it is outstanding: ordered, and not ended.
#[derive(Clone, Copy, Debug, PartialEq, Eq, Hash)]
pub struct Seat {
    pub place: RouterId,
    pub moving: bool,
}

/// What the operator records for the number of a graft.
#[derive(Debug, Drop)]
pub enum Slot {
    /// The evacuate step has no graft of this number: its group hasn't begun, or the session belonged
    /// elsewhere.
    Unmade,
    /// The session stays at the router that is emptied: no other router had a free place for it.
    Stays {
        graft: u32,
        peering: PeeringId,
        router: RouterId,
    },
    /// The graft exists, with this entry.
    Made(GraftEntry),
}

/// The session that a graft moves, and its target.
#[derive(Clone, Copy, Debug, PartialEq, Eq, Hash)]
pub struct Move {
    pub peering: PeeringId,
    pub target: RouterId,
}

/// Returns the entry of a graft that wasn't ordered yet.
pub(crate) fn waiting_entry(graft: u32, moves: Move) -> GraftEntry
    ensures { result ≡ waiting_entry_lem graft moves }
{
    GraftEntry {
        graft,
        peering: moves.peering,
        source: None,
        target: moves.target,
        stage: GraftStage::Waiting,
    }
}

/// Adds `count` slots without a graft.
fn add_unmade(slots: &mut Vec<Slot>, count: usize) -> Result<(), NoMemory>
    ensures { OnOk result (slots.new.items ≡ slots.old.items ++ unmade_slots count) }
{
    for _ in 0..count {
        slots.push(Slot::Unmade)?;
    }
    Ok(())
}

/// Returns the slots of a script before any of its groups begins: the graft of a graft step waits, and an evacuate step
/// has a slot for each of `peerings` peerings.
pub fn first_slots(
    alloc: Global,
    steps: &[ScriptStep],
    peerings: usize,
) -> Result<Vec<Slot>, NoMemory>
    requires short { length steps.now ≤ 4097 }
    requires few { peerings ≤ 256 }
    ensures { IfOk result (λ slots. slots.items ≡ first_slots_lem peerings 0 steps.now) }
{
    let mut slots = Vec::new(alloc);
    for step in steps {
        match *step {
            ScriptStep::Graft { peering, target } => {
                let graft = slots.len() as u32 + 1;
                slots.push(Slot::Made(waiting_entry(graft, Move { peering, target })))?;
            }
            ScriptStep::Evacuate { .. } => add_unmade(&mut slots, peerings)?,
            ScriptStep::Say { .. } | ScriptStep::Settle => {}
        }
    }
    Ok(slots)
}

/// Returns the seats of sessions that are where they start.
pub fn first_seats(alloc: Global, starts: &[RouterId]) -> Result<Vec<Seat>, NoMemory>
    ensures { IfOk result (λ seats. seats.items ≡ map seat_at starts.now) }
{
    let seat = |place: &RouterId| Seat {
        place: *place,
        moving: false,
    };
    Ok(starts.iter().map(seat).collect(alloc)?)
}

/// Returns what a graft moves, if it exists.
pub fn moved(slot: &Slot) -> Option<Move>
    ensures { result ≡ move_of (Some slot.now) }
{
    match slot {
        Slot::Made(entry) => Some(Move {
            peering: entry.peering,
            target: entry.target,
        }),
        Slot::Unmade | Slot::Stays { .. } => None,
    }
}

/// Notes that a graft was ordered at this router.
pub fn issue(slot: &mut Slot, source: RouterId)
    ensures { slot.new ≡ issued_slot slot.old source }
{
    if let Slot::Made(entry) = slot {
        entry.source = Some(source);
        entry.stage = GraftStage::Issued;
    }
}

/// Notes how a graft ended.
pub fn end(slot: &mut Slot, outcome: Outcome)
    ensures { slot.new ≡ ended_slot slot.old outcome }
{
    if let Slot::Made(entry) = slot {
        entry.stage = GraftStage::Ended(outcome);
    }
}

/// Returns whether a graft was ordered and hasn't ended.
fn is_issued(stage: &GraftStage) -> bool
    ensures { result ≡ is_open stage.now }
{
    matches!(stage, GraftStage::Issued)
}

/// Returns the number of a graft that was ordered and hasn't ended.
pub fn open_graft(slot: &Slot) -> Option<u32>
    ensures { result ≡ open_graft_lem slot.now }
{
    match slot {
        Slot::Made(entry) => is_issued(&entry.stage).then_some(entry.graft),
        Slot::Unmade | Slot::Stays { .. } => None,
    }
}

/// Returns the number of the first graft that was ordered and hasn't ended.
pub fn first_open(slots: &[Slot]) -> Option<u32>
    ensures { result ≡ first_open_lem slots.now }
{
    for slot in slots {
        if let Some(graft) = open_graft(slot) {
            return Some(graft);
        }
    }
    None
}

/// Adds the log's entry for a slot, if it has one.
fn add_entry(log: &mut GraftLog, slot: &Slot) -> Result<(), NoMemory>
    ensures { OnOk result (log.new ≡ log.old ++ entries_in_slot slot.now) }
{
    match slot {
        Slot::Made(entry) => log.push(entry.copy()?),
        Slot::Stays {
            graft,
            peering,
            router,
        } => log.push(GraftEntry {
            graft: *graft,
            peering: *peering,
            source: Some(*router),
            target: *router,
            stage: GraftStage::Ended(Outcome::Refused(Refusal::NoTarget)),
        }),
        Slot::Unmade => Ok(()),
    }
}

/// Returns the log of the grafts in the slots.
pub fn logged(alloc: Global, slots: &[Slot]) -> Result<GraftLog, NoMemory>
    ensures { IfOk result (λ log. log ≡ flat_map entries_in_slot slots.now) }
{
    let mut log = Items::new(alloc);
    for slot in slots {
        add_entry(&mut log, slot)?;
    }
    Ok(log)
}
