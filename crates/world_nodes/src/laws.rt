//! Laws: what the way of a laboratory's net is in the world.

ghost use Rattle.std.specs.Prelude.{ℕ, List};
ghost use Rattle.ring_net.specs.Phases.{InOrder};
ghost use Rattle.graft_model.specs.Setups.{Setup, IsSetup};
ghost use Rattle.bgp_session.specs.Running.{carried};
ghost use Rattle.world_runs.specs.Runs.{Ran};
ghost use Rattle.world_nodes.specs.Nodes.{own};
ghost use Rattle.world_nodes.specs.Ways.{Stand, IsFirstStand, Way};

use crate::node::Node;
use bgp_session::Capsule;
use journal_merge::{marks_grow, phases_grow, pieces_grow};
use world_runs::nets_run;

/// Whatever way a laboratory's net went, and however its workers took turns, its merged journal is that of a run of the
/// world, from the first world to the one that the net is. Its journals are in order, as merging requires.
pub fn the_way_is_a_run()
    ensures run { (setup : Setup) (a b : Stand) (rounds : List ℕ) → IsSetup setup → IsFirstStand setup a → Way setup a rounds b → Ran own carried setup b.view }
    ensures order { (setup : Setup) (a b : Stand) (rounds : List ℕ) → IsSetup setup → IsFirstStand setup a → Way setup a rounds b → InOrder b.view }
{
    nets_run::<Node, Capsule>();
    pieces_grow::<Node>();
    phases_grow::<Node>();
    marks_grow::<Node>();
}
