//! Laws: what a net of actors did, in the world.

ghost use Rattle.session_value.specs.Sessions.{SessionValue};
ghost use Rattle.graft_actors.specs.Acts.{OwnPart};
ghost use Rattle.world_runs.specs.Laws.{AnActIsAStep, ActsAreARun, NothingWasDropped, NewNetsRan, RunsGoOn};
ghost use Rattle.world_runs.specs.Laws.{ExtendsAtMark, RunsAreTransparent, WorldsAreOnTheWay, NobodyWritesToItself};
ghost use Rattle.std.specs.Prelude.{ℕ, ◌≡◌, List};
ghost use Rattle.ring_net.specs.declared.entry.JournalEntry.{JournalEntry};
ghost use Rattle.graft_model.specs.Setups.{Setup, IsSetup};
ghost use Rattle.graft_model.specs.Parts.{World};
ghost use Rattle.world_runs.specs.Marks.{IsWorldAtMark, MarksStandForWorlds, GroupsAreCounted, GroupsAreSeen, QuietHasNothingOpen, QuietActsBeginGroups};

use graft_actors::{
    acts_are_events, an_entry_is_of_one_event, an_event_is_a_step, parts_begin_as_the_first_world,
};
use graft_laws::{
    always_transparent, every_world_is_owned, no_item_is_dropped, one_session_is_held,
    runs_lead_to_one_world, sessions_are_unbroken,
};
use graft_model::codes_are_exact;

/// What an actor of the laboratory does is a step of the world, and what actors do one after another is a run. Each
/// item that arrives is welcome, so none is dropped. The entries are those of events, none of which has kind 0, the
/// kind of a dropped item's entry.
pub fn an_act_is_a_step<C>()
    ensures step { (session : C → SessionValue) → AnActIsAStep session }
    ensures run { (session : C → SessionValue) → ActsAreARun session }
    ensures kept { NothingWasDropped }
{
    acts_are_events::<C>();
    codes_are_exact();
    an_event_is_a_step();
    no_item_is_dropped();
}

/// A new net of a laboratory's actors has a run without events. Whatever it does then extends the run; a Go needs a
/// quiet world.
pub fn nets_run<A, C>()
    ensures new { (own : A → OwnPart) (session : C → SessionValue) → NewNetsRan own session }
    ensures phases { (own : A → OwnPart) (session : C → SessionValue) → RunsGoOn own session }
    ensures go { (own : A → OwnPart) (session : C → SessionValue) → ExtendsAtMark own session }
{
    parts_begin_as_the_first_world();
    an_act_is_a_step::<C>();
}

/// At every moment of a run each peering has one session with a legal story, and the bytes received each way are the
/// first bytes of what was put and said.
pub fn runs_are_transparent()
    ensures { RunsAreTransparent }
{
    always_transparent();
}

/// In each world of a run, the rests of the actors tell whether it is quiet, and no router sends items to itself.
pub fn worlds_are_on_the_way()
    ensures way { WorldsAreOnTheWay }
    ensures itself { NobodyWritesToItself }
{
    every_world_is_owned();
    sessions_are_unbroken();
    one_session_is_held();
}

/// The entries before a mark in the merged journal of a net are those of a run, to a world as which the net was seen at
/// the mark.
pub fn marks_stand_for_worlds<A, C>()
    ensures { (own : A → OwnPart) (session : C → SessionValue) → MarksStandForWorlds own session }
{}

/// There is only one world at a mark: every run whose entries are those before the mark leads there.
pub fn marks_stand_for_one_world()
    ensures { (setup : Setup) (journal : List JournalEntry) (mark : List ℕ) (u v : World) → IsSetup setup → IsWorldAtMark setup journal mark u
        → IsWorldAtMark setup journal mark v → v ≡ u }
{
    an_entry_is_of_one_event();
    runs_lead_to_one_world();
}

/// The number of the current group is the number of groups that the operator's entries begin. Between two marks one
/// group begins, with the first entry, or none does, exactly if this holds for the entries that the operator's journal
/// gained between them. In a quiet world no step of the current group is left, and all that the operator does by itself
/// is to begin the next one.
pub fn groups_are_counted<C>()
    ensures counted { GroupsAreCounted }
    ensures seen { GroupsAreSeen }
    ensures nothing { QuietHasNothingOpen }
    ensures begins { (session : C → SessionValue) → QuietActsBeginGroups session }
{}
