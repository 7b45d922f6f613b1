//! What is tested at the mark behind a round.

ghost use Rattle.std.specs.Prelude.{ℕ, ◌≡◌, ◌≤◌, ◌^◌, ◌-◌, min, IfOk};
ghost use Rattle.graft_model.specs.Setups.{Setup, IsSetup};
ghost use Rattle.graft_model.specs.Parts.{World};
ghost use Rattle.world_nodes.specs.Edges.{HasCounts};
ghost use Rattle.world_nodes.specs.RunningLabs.{stand, counts, AllWork};
ghost use Rattle.world_nodes.specs.Looks.{IsWorldAt};
ghost use Rattle.node_configs.specs.declared.budget.Budget.{Budget};
ghost use Rattle.lab_run.specs.Ends.{MarkCounts, CountsTo, IsBelowLimits, Names, LimitNames, NoneIsStuck};

use graft_edge::NoMemory;
use lab_report::RunEnd;
use node_configs::Budget;
use world_nodes::RunningLab;

/// From this number of events on, the journals together are full.
const MOST_EVENTS: u64 = 4_194_304;

/// What is decided at a mark.
#[derive(Drop)]
pub(crate) enum Verdict {
    /// Another round.
    GoesOn,
    /// The next group, or the end of the run where there is none.
    IsQuiet,
    /// The end of the run by a limit.
    Ends(RunEnd),
}

/// A length, up to the end of a count of 32 bits.
fn short(length: usize) -> u32
    ensures { result ≡ min length (2 ^ 32 - 1) }
{
    length.min(4_294_967_295) as u32
}

/// Returns how a run with this many events ends, if its journals are full.
fn full(events: u64) -> Option<RunEnd>
    ensures { (setup : Setup) (w : World) (budget : Budget) (c : MarkCounts) → NoneIsStuck setup w
        → events ≡ min c.events (2 ^ 64 - 1) → LimitNames setup w budget c result }
{
    if events >= MOST_EVENTS {
        return Some(RunEnd::JournalFull { events });
    }
    None
}

/// The session that is stuck, or else a journal that is full.
fn limit(running: &RunningLab) -> Result<Option<RunEnd>, NoMemory>
    requires works { AllWork running.now }
    ensures { IfOk result (λ found. (setup : Setup) (w : World) (budget : Budget) (c : MarkCounts)
        → HasCounts setup (counts running.now) → IsWorldAt setup (stand running.now) w
        → CountsTo (stand running.now).view c.events → LimitNames setup w budget c found) }
{
    match running.stuck()? {
        Some((peering, length)) => Ok(Some(RunEnd::StreamFull {
            peering,
            length: short(length),
        })),
        None => Ok(full(running.events())),
    }
}

/// Where no limit of the whole run is met: whether the world is quiet, or the budget is used up.
fn budget_verdict(running: &RunningLab, budget: Budget, step: u32, rounds: u32) -> Verdict
    requires works { AllWork running.now }
    requires sound { budget.least ≤ budget.rounds }
    ensures { (setup : Setup) (w : World) (c : MarkCounts) → IsSetup setup → HasCounts setup (counts running.now)
        → IsWorldAt setup (stand running.now) w → c.step ≡ step → c.rounds ≡ rounds
        → IsBelowLimits setup w c → Names setup w budget c result }
{
    match running.pending() {
        None => {
            if budget.least <= rounds {
                Verdict::IsQuiet
            } else {
                Verdict::GoesOn
            }
        }
        Some(pending) => {
            if budget.rounds <= rounds {
                Verdict::Ends(RunEnd::Unsettled {
                    step,
                    rounds,
                    pending,
                })
            } else {
                Verdict::GoesOn
            }
        }
    }
}

/// Decides at the mark behind a round how the run goes on, where the settle of number `step` has made `rounds` rounds.
pub(crate) fn decide_at_mark(
    running: &RunningLab,
    budget: Budget,
    step: u32,
    rounds: u32,
) -> Result<Verdict, NoMemory>
    requires works { AllWork running.now }
    requires sound { budget.least ≤ budget.rounds }
    ensures { IfOk result (λ verdict. (setup : Setup) (w : World) (c : MarkCounts) → IsSetup setup
        → HasCounts setup (counts running.now) → IsWorldAt setup (stand running.now) w → c.step ≡ step
        → c.rounds ≡ rounds → CountsTo (stand running.now).view c.events → Names setup w budget c verdict) }
{
    match limit(running)? {
        Some(end) => Ok(Verdict::Ends(end)),
        None => Ok(budget_verdict(running, budget, step, rounds)),
    }
}
