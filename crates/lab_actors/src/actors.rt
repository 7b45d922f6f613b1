//! The actors of a laboratory.

ghost use Rattle.std.specs.Prelude.{◌≡◌, ◌+◌, ◌<◌, length, IfOk};
ghost use Rattle.std.specs.List.{AllByRecursion};
ghost use Rattle.graft_model.specs.Setups.{Setup};
ghost use Rattle.graft_actors.specs.Actors.{Router as RouterName, FarSide, Operator as TheOperator};
ghost use Rattle.lab_setup.specs.Setups.{setup_of};
ghost use Rattle.world_runs.specs.Labs.{AreFirstActors};
ghost use Rattle.world_nodes.specs.Fresh.{IsFresh};
ghost use Rattle.world_nodes.specs.Nodes.{own, Works};
ghost use Rattle.node_configs.specs.Accepted.{IsAccepted};
ghost use Rattle.lab_actors.specs.Firsts.{IsFirstNode, AreFirstUpTo};

use far_side::Far;
use graft_actors::Known;
use graft_edge::{NoMemory, PeeringId, RouterId};
use lab_tables::LabInput;
use node_configs::{far_config, operator_script, router_config};
use operator_core::Operator;
use ring_net::Actors;
use router_core::Router;
use std::alloc::Global;
use world_nodes::Node;

/// Returns the laboratory that the caller's proof names, which must be the one that the input describes.
fn known_for(_input: &LabInput) -> Known
    ghost setup: { Setup }
    ensures { result.setup ≡ setup }
{
    Known::new()
}

/// Returns the router of this number, as it begins.
fn router_of(alloc: Global, input: &LabInput, number: RouterId) -> Result<Node, NoMemory>
    requires accepted { IsAccepted input.now }
    requires there { number.0 < length input.now.routers }
    ensures { IfOk result (IsFirstNode (setup_of input.now) input.now.faults (RouterName number.0)) }
{
    let config = router_config(alloc, input, number)?;
    let known = known_for(input);
    let router = Router::new(alloc, known, config)?;
    Ok(Node::Router(router))
}

/// Returns the far side of the peering of this number, as it begins.
fn far_of(alloc: Global, input: &LabInput, peering: PeeringId) -> Result<Node, NoMemory>
    requires accepted { IsAccepted input.now }
    requires there { peering.0 < length input.now.peerings }
    ensures { IfOk result (IsFirstNode (setup_of input.now) input.now.faults (FarSide peering.0)) }
{
    let config = far_config(alloc, input, peering)?;
    let known = known_for(input);
    let far = Far::new(alloc, known, config)?;
    Ok(Node::Far(far))
}

/// Returns the operator, as it begins.
fn operator_of(alloc: Global, input: &LabInput) -> Result<Node, NoMemory>
    requires { IsAccepted input.now }
    ensures { IfOk result (IsFirstNode (setup_of input.now) input.now.faults TheOperator) }
{
    let script = operator_script(alloc, input)?;
    let known = known_for(input);
    let operator = Operator::new(alloc, known, script)?;
    Ok(Node::Operator(operator))
}

/// Returns the routers, as they begin.
fn routers_of(alloc: Global, input: &LabInput) -> Result<Actors<Node>, NoMemory>
    requires { IsAccepted input.now }
    ensures { IfOk result (AreFirstUpTo (setup_of input.now) input.now.faults (length input.now.routers)) }
{
    let mut actors = Actors::new(alloc);
    for n in 0..input.routers.len() {
        let node = router_of(alloc, input, RouterId(n as u8))?;
        actors.push(node)?;
    }
    Ok(actors)
}

/// Returns the routers followed by the far sides, as they begin.
fn with_far_sides(
    alloc: Global,
    input: &LabInput,
    routers: Actors<Node>,
) -> Result<Actors<Node>, NoMemory>
    requires accepted { IsAccepted input.now }
    requires routers { AreFirstUpTo (setup_of input.now) input.now.faults (length input.now.routers) routers }
    ensures { IfOk result (AreFirstUpTo (setup_of input.now) input.now.faults (length input.now.routers + length input.now.peerings)) }
{
    let mut actors = routers;
    for n in 0..input.peerings.len() {
        let node = far_of(alloc, input, PeeringId(n as u8))?;
        actors.push(node)?;
    }
    Ok(actors)
}

/// Returns all actors of the laboratory that an input describes, each as it begins: the routers, the far sides in the
/// order of their peerings, and the operator. The input must be one that was accepted.
pub fn actors_of(alloc: Global, input: &LabInput) -> Result<Actors<Node>, NoMemory>
    requires { IsAccepted input.now }
    ensures first { IfOk result (AreFirstActors own (setup_of input.now)) }
    ensures size { IfOk result (λ actors. length actors ≡ length input.now.routers + length input.now.peerings + 1) }
    ensures works { IfOk result (AllByRecursion Works) }
    ensures fresh { IfOk result (AllByRecursion (IsFresh (setup_of input.now) input.now.faults)) }
{
    let routers = routers_of(alloc, input)?;
    let mut actors = with_far_sides(alloc, input, routers)?;
    let operator = operator_of(alloc, input)?;
    actors.push(operator)?;
    Ok(actors)
}
