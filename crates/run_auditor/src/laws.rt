//! Laws: what the answer of an audit says, and what the rulings of an auditor rest on.

ghost use Rattle.run_auditor.specs.Grounds.{Grounds};
ghost use Rattle.run_auditor.specs.Laws.{NoTellsOfNone, OneAnswer, YesTellsOfARun};

use audit_ruling::events_name_their_senders;
use bgp_session::Capsule;
use clocked_audits::deeds_move_items;
use graft_actors::{a_net_is_one_world, actors_have_their_numbers, an_entry_is_of_one_event};
use graft_laws::{
    always_transparent, always_unchanged, no_item_is_dropped, quiet_solves, runs_lead_to_one_world,
};
use spelled_events::prefixes_are_spelled;
use world_runs::{an_act_is_a_step, worlds_are_on_the_way};

/// What an actor of the laboratory does by the row of an event is a step of its world, and that event's alone. Each item
/// that arrives is welcome.
pub(crate) fn rulings_have_grounds()
    ensures { Grounds }
{
    an_act_is_a_step::<Capsule>();
    an_entry_is_of_one_event();
    a_net_is_one_world();
    deeds_move_items::<Capsule>();
    worlds_are_on_the_way();
    no_item_is_dropped();
    actors_have_their_numbers();
    events_name_their_senders();
}

/// An audit has one answer. If it is `Yes`, the journal is that of a run: each peering is transparent at its end, a
/// refused graft left its session as it was, and if nothing is left to do, the tables solve the decision equations. If
/// it is `No`, no run has this journal. The setup's numbers must be in the ranges of their types, as are those of every
/// input that is accepted.
pub fn answers_tell_of_runs()
    ensures yes { YesTellsOfARun }
    ensures no { NoTellsOfNone }
    ensures one { OneAnswer }
{
    an_entry_is_of_one_event();
    runs_lead_to_one_world();
    prefixes_are_spelled();
    always_transparent();
    always_unchanged();
    quiet_solves();
}
