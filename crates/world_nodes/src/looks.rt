//! Looks at the actors and the channels.

ghost use Rattle.std.specs.Prelude.{◌≤◌, length, map, take, IfOk};
ghost use Rattle.std.specs.List.{AllByRecursion};
ghost use Rattle.ring_net.specs.Shown.{view};
ghost use Rattle.settled_check.specs.Firsts.{IsFirstOf};
ghost use Rattle.world_nodes.specs.Nodes.{Works, own};
ghost use Rattle.world_nodes.specs.Looks.{IsLeftToOne, IsLeftWith, IsLowest, IsOneOf, IsSentOnOne, IsStuckAtOne, IsStuckWith, as_numbers};

use crate::node::Node;
use graft_edge::{NoMemory, PeeringId};
use graft_steps::Pending;
use ring_net::Net;
use settled_check::{far_rest, first_pending, operator_rest, rests_tell_what_is_left, router_rest};

/// Returns the lowest peering of an actor whose session is stuck, with the length that its stream would have with its
/// next message.
fn stuck_at(node: &Node) -> Result<Option<(PeeringId, usize)>, NoMemory>
    ensures { IfOk result (λ answer. IsLowest (IsStuckWith (own node.now)) (as_numbers answer)) }
{
    match node {
        Node::Router(router) => router.stuck(),
        Node::Far(_) | Node::Operator(_) => Ok(None),
    }
}

/// Returns the answer with the lower peering.
fn lower(
    one: Option<(PeeringId, usize)>,
    other: Option<(PeeringId, usize)>,
) -> Option<(PeeringId, usize)>
    ensures { IsLowest (IsOneOf (as_numbers one) (as_numbers other)) (as_numbers result) }
{
    match (one, other) {
        (Some(one), Some(other)) => Some(if other.0.0 < one.0.0 { other } else { one }),
        (one, None) => one,
        (None, other) => other,
    }
}

/// Returns the lowest peering whose session is stuck at one of the first `count` actors, with that length.
pub(crate) fn stuck_up_to(
    net: &Net<Node>,
    count: usize,
) -> Result<Option<(PeeringId, usize)>, NoMemory>
    requires { count ≤ length (view net.now).actors }
    ensures { IfOk result (λ answer. IsLowest (IsStuckAtOne (take count (map own (view net.now).actors))) (as_numbers answer)) }
{
    let mut lowest = None;
    for k in 0..count {
        lowest = lower(lowest, stuck_at(net.actor(k))?);
    }
    Ok(lowest)
}

/// Returns the first thing that is left to do for an actor.
fn left_at(node: &Node) -> Option<Pending>
    requires { Works node.now }
    ensures { IsFirstOf (IsLeftWith (own node.now)) result }
{
    rests_tell_what_is_left();
    match node {
        Node::Router(router) => router_rest(&router.rest()),
        Node::Far(far) => far_rest(&far.rest()),
        Node::Operator(operator) => operator_rest(&operator.rest()),
    }
}

/// Returns the first thing that is left to do for one of the first `count` actors.
pub(crate) fn left_up_to(net: &Net<Node>, count: usize) -> Option<Pending>
    requires count { count ≤ length (view net.now).actors }
    requires works { AllByRecursion Works (view net.now).actors }
    ensures { IsFirstOf (IsLeftToOne (take count (map own (view net.now).actors))) result }
{
    let mut first = None;
    for k in 0..count {
        first = first_pending(first, left_at(net.actor(k)));
    }
    first
}

/// Returns the first channel of these edges in which an item is on its way, as a pending thing.
pub(crate) fn on_its_way(net: &Net<Node>, edges: &[(u16, u16)]) -> Option<Pending>
    ensures { IsFirstOf (IsSentOnOne (view net.now).channel edges.now) result }
{
    let mut first = None;
    for (from, to) in edges {
        if net.in_flight(usize::from(*from), usize::from(*to)) > 0 {
            first = first_pending(first, Some(Pending::Channel(*from, *to)));
        }
    }
    first
}
