//! The actors of a laboratory as one type.

ghost use Rattle.graft_actors.specs.Acts.{OwnPart, acts};
ghost use Rattle.bgp_session.specs.Running.{carried};
ghost use Rattle.world_nodes.specs.Nodes.{own, took, turned, paused};

use bgp_session::Capsule;
use far_side::Far;
use graft_edge::NoMemory;
use graft_steps::Item;
use operator_core::Operator;
use ring_net::{Actor, Post};
use router_core::Router;

/// An actor of a laboratory. Routers have the numbers from 0, in the order of the input; far sides have those after
/// them, in the order of the peerings; and the operator has the last one.
#[derive(Drop)]
pub enum Node {
    /// A home router.
    Router(Router),
    /// The remote of a peering, with its link.
    Far(Far),
    /// The operator.
    Operator(Operator),
}

impl Actor for Node {
    type Item = Item<Capsule>;

    ghost Part = { OwnPart };

    ghost part = { own };

    ghost makes = { acts carried };

    ghost took = { took };

    ghost turned = { turned };

    ghost paused = { paused };

    fn take(
        &mut self,
        from: usize,
        item: Item<Capsule>,
        post: &mut Post<Item<Capsule>>,
    ) -> Result<(), NoMemory> {
        match self {
            Node::Router(router) => router.take(from, item, post),
            Node::Far(far) => far.take(from, item, post),
            Node::Operator(operator) => operator.take(from, item, post),
        }
    }

    fn turn(&mut self, post: &mut Post<Item<Capsule>>) -> Result<(), NoMemory> {
        match self {
            Node::Router(router) => router.turn(post),
            Node::Far(far) => far.turn(post),
            Node::Operator(operator) => operator.turn(post),
        }
    }

    fn between(&mut self, post: &mut Post<Item<Capsule>>) -> Result<bool, NoMemory> {
        match self {
            Node::Router(router) => router.between(post),
            Node::Far(far) => far.between(post),
            Node::Operator(operator) => operator.between(post),
        }
    }
}
