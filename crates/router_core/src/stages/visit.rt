//! Stages that go from place to place.

ghost use Rattle.std.specs.Prelude.{◌<◌, length, OnOk};
ghost use Rattle.ring_net.specs.Posts.{SameEdges};
ghost use Rattle.router_core.specs.Parts.{RouterInvariant};
ghost use Rattle.router_core.specs.Visits.{Stage, Visited, Visits};

use crate::fields::Fields;
use bgp_session::Capsule;
use graft_edge::NoMemory;
use graft_steps::Item;
use ring_net::Post;

/// A stage that handles each place by itself.
pub(crate) trait Visit {
    /// What the stage does.
    ghost stage: { Self → Stage };

    /// Handles one place.
    fn visit(
        &self,
        router: &mut Fields,
        n: usize,
        post: &mut Post<Item<Capsule>>,
    ) -> Result<(), NoMemory>
        requires keeps { RouterInvariant router.old }
        requires place { n < length router.old.places.places }
        requires needs { (stage self.now).kept.Needs router.old }
        ensures edges { SameEdges post.old post.new }
        ensures visits { OnOk result (Visits (stage self.now) n router.old post.old router.new post.new) };
}

/// Lets a stage handle each place, in ascending order.
pub(crate) fn visit_all<V: Visit>(
    stage: &V,
    router: &mut Fields,
    post: &mut Post<Item<Capsule>>,
) -> Result<(), NoMemory>
    requires keeps { RouterInvariant router.old }
    requires needs { (V.stage stage.now).kept.Needs router.old }
    ensures edges { SameEdges post.old post.new }
    ensures visited { OnOk result (Visited (V.stage stage.now) (length router.old.places.places) router.old post.old router.new post.new) }
{
    for n in 0..router.places.len() {
        stage.visit(router, n, post)?;
    }
    Ok(())
}
