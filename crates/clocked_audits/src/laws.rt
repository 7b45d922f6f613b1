//! The laws of clocks beside a run.

ghost use Rattle.session_value.specs.Sessions.{SessionValue};
ghost use Rattle.clocked_audits.specs.Laws.{ClocksBegin, ClocksDecide, ClocksPass, ClocksLevel, DeedsMoveItems, RunsGrow, RunsGoOn, RunsAreClockedAlike};

use graft_actors::an_entry_is_of_one_event;

/// Clocks that every event of a run has passed, or that a Go has leveled, tell which clock the next event must have.
pub fn clocks_follow_runs()
    ensures begin { ClocksBegin }
    ensures decide { ClocksDecide }
    ensures pass { ClocksPass }
    ensures level { ClocksLevel }
{}

/// What a deed of an actor takes and sends is what moves between the worlds before it and after.
pub fn deeds_move_items<C>()
    ensures { (session : C → SessionValue) → DeedsMoveItems session }
{}

/// A run's events keep their clocked form where the run goes on, and any two runs with the same entries have the same.
pub fn runs_are_clocked_alike()
    ensures longer { RunsGrow }
    ensures on { RunsGoOn }
    ensures alike { RunsAreClockedAlike }
{
    an_entry_is_of_one_event();
}
