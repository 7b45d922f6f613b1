//! The law of rounds.

ghost use Rattle.real_rounds.specs.Laws.{RoundsAreReal};

use bgp_session::Capsule;
use graft_actors::a_net_is_one_world;
use world_nodes::{Node, the_way_is_a_run};
use world_runs::{an_act_is_a_step, marks_stand_for_worlds, worlds_are_on_the_way};

/// Between any two adjacent marks of a laboratory's net each router, each far side and the operator do what a round
/// requires: each takes what arrives; a router decides, tells and puts all that it may; each endpoint sends again at
/// most once and sends the acknowledgement that it owes; the links deliver by the plan of faults; each step that may be
/// ordered is ordered; and each channel of at most 256 items is emptied in two rounds. What they do is a run from the
/// world at the one mark to that at the other, from the first world on. The actors of the net must have done nothing
/// when it begins.
pub fn rounds_are_real()
    ensures { RoundsAreReal }
{
    the_way_is_a_run();
    marks_stand_for_worlds::<Node, Capsule>();
    an_act_is_a_step::<Capsule>();
    worlds_are_on_the_way();
    a_net_is_one_world();
}
