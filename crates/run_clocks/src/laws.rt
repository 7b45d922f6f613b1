//! The law of clocks.

ghost use Rattle.run_clocks.specs.Laws.{WaysAreClocked};

use bgp_session::Capsule;
use graft_actors::an_entry_is_of_one_event;
use world_nodes::the_way_is_a_run;
use world_runs::{an_act_is_a_step, worlds_are_on_the_way};

/// In the merged journal of a laboratory's net each clock is one above the greater of its actor's previous clock and
/// the stamp of the item that is taken, which is the clock of the event that sent it. The clock at which a group begins
/// is one above every clock.
pub fn journals_are_clocked()
    ensures { WaysAreClocked }
{
    the_way_is_a_run();
    an_act_is_a_step::<Capsule>();
    worlds_are_on_the_way();
    an_entry_is_of_one_event();
}
