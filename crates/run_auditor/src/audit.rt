//! The audit of a journal.

ghost use Rattle.std.specs.Prelude.{◌≡◌, ◌<◌, MatchBool, IfOk, IfSome};
ghost use Rattle.lab_setup.specs.Setups.{setup_of};
ghost use Rattle.audit_clocks.specs.Clocks.{actors_of};
ghost use Rattle.world_runs.specs.Labs.{actors_in};
ghost use Rattle.world_runs.specs.Marks.{is_go as is_go_lem};
ghost use Rattle.node_configs.specs.Accepted.{IsAccepted};
ghost use Rattle.run_auditor.specs.Audits.{IsAudit};
ghost use Rattle.run_auditor.specs.Clocks.{PassesClocks};
ghost use Rattle.run_auditor.specs.Replays.{IsAbove, Replays};
ghost use Rattle.run_auditor.specs.Sound.{AuditorInvariant};

use crate::auditor::Auditor;
use crate::step::Step;
use audit_clocks::Clocks;
use clocked_audits::clocks_follow_runs;
use graft_edge::NoMemory;
use graft_model::OperatorEvent;
use lab_tables::LabInput;
use ring_net::{Journal, JournalEntry};
use std::alloc::Global;

/// What is at fault with an entry.
#[derive(Clone, Copy, Debug, PartialEq, Eq, Hash)]
pub enum Why {
    /// It isn't above the entry before it, by clock and actor.
    Order,
    /// Its kind and arguments are those of no event of its actor.
    Kind,
    /// It is that of an event that can't happen in the world so far.
    Condition,
    /// Its clock isn't the one that follows from the clocks before it.
    Clock,
}

/// What an audit says of a journal.
#[derive(Clone, Copy, Debug, PartialEq, Eq, Hash)]
pub enum Audit {
    /// Its entries are those of a run: how many events these are, and whether nothing is left to do at the end.
    Yes { events: u64, quiet: bool },
    /// The entry at this index, counted from 0, is the first one that no run has.
    No { event: u64, why: Why },
}

/// Returns whether an entry is above another one, by clock and actor.
fn is_above(entry: &JournalEntry, before: &Option<JournalEntry>) -> bool
    ensures { MatchBool result (IsAbove before.now entry.now) (¬ IsAbove before.now entry.now) }
{
    match before {
        Some(last) => (last.clock, last.actor) < (entry.clock, entry.actor),
        None => true,
    }
}

/// Returns whether an entry begins a group.
fn is_go(entry: &JournalEntry) -> bool
    ensures { result ≡ is_go_lem entry.now }
{
    entry.kind == OperatorEvent::Go.code().kind
}

/// Lets an entry pass the clocks, if its clock is the one that follows from them: its event takes an item of the actor of
/// number `from`, and sends one to that of number `to`, if these are named. Returns whether it passes.
fn passes(
    clocks: &mut Clocks,
    entry: &JournalEntry,
    from: Option<usize>,
    to: Option<usize>,
) -> Result<bool, NoMemory>
    requires actor { entry.now.actor < actors_of clocks.old }
    requires from { IfSome from (λ n. n < actors_of clocks.old) }
    requires to { IfSome to (λ n. n < actors_of clocks.old) }
    ensures { IfOk result (λ passes. PassesClocks entry.now from to clocks.old passes clocks.new) }
{
    if is_go(entry) {
        if !clocks.is_above_all(entry.clock) {
            return Ok(false);
        }
        clocks.level(entry.clock);
        return Ok(true);
    }
    let actor = usize::from(entry.actor);
    if !clocks.is_next(actor, from, entry.clock) {
        return Ok(false);
    }
    clocks.pass(actor, from, to, entry.clock)?;
    Ok(true)
}

/// Replays one entry behind others, beside their clocks. Returns its first fault, if it has one.
fn next_fault(
    auditor: &mut Auditor,
    clocks: &mut Clocks,
    before: &Option<JournalEntry>,
    entry: &JournalEntry,
) -> Result<Option<Why>, NoMemory>
    requires sound { AuditorInvariant auditor.old }
    requires all { actors_of clocks.old ≡ actors_in auditor.old.known.setup }
    ensures { IfOk result (λ fault. Replays before.now entry.now auditor.old clocks.old fault auditor.new clocks.new) }
{
    clocks_follow_runs();
    if !is_above(entry, before) {
        return Ok(Some(Why::Order));
    }
    match auditor.step(entry)? {
        Step::Kind => Ok(Some(Why::Kind)),
        Step::Condition => Ok(Some(Why::Condition)),
        Step::Made { from, to } => {
            let passed = passes(clocks, entry, from, to)?;
            if !passed {
                return Ok(Some(Why::Clock));
            }
            Ok(None)
        }
    }
}

/// Returns whether the journal's entries are those of a run of the laboratory that an accepted input describes, in
/// order of clock and actor and with the clocks that follow; if they aren't, the first entry at fault with its first
/// fault: its order, then its kind and arguments, then the condition of its event, then its clock.
pub fn audit_journal(alloc: Global, input: &LabInput, journal: &Journal) -> Result<Audit, NoMemory>
    requires { IsAccepted input.now }
    ensures { IfOk result (IsAudit (setup_of input.now) journal.now) }
{
    clocks_follow_runs();
    let mut auditor = Auditor::new(alloc, input)?;
    let mut clocks = Clocks::new(alloc, auditor.inboxes.len())?;
    let mut last = None;
    for (event, entry) in journal.iter().enumerate() {
        if let Some(why) = next_fault(&mut auditor, &mut clocks, &last, entry)? {
            let event = event as u64;
            return Ok(Audit::No { event, why });
        }
        last = Some(*entry);
    }
    Ok(Audit::Yes {
        events: journal.len() as u64,
        quiet: auditor.is_quiet(),
    })
}
