//! The channels of a laboratory.

ghost use Rattle.std.specs.Prelude.{◌≡◌, ◌≢◌, ◌≤◌, ◌+◌, true, IfOk, OnOk};
ghost use Rattle.ring_net.specs.Fresh.{AreEdges};
ghost use Rattle.graft_model.specs.Setups.{Setup};
ghost use Rattle.world_nodes.specs.Edges.{AddsEdgesFrom, AreEdgesOf, HasCounts, NoneFrom, has_channel};

use graft_edge::NoMemory;
use std::alloc::Global;

/// Returns whether there is a channel from one actor to another.
fn may_talk(from: u16, to: u16, routers: u16, peerings: u16) -> bool
    requires few { (routers ≤ 256) × (peerings ≤ 256) }
    requires there { (from ≤ routers + peerings) × (to ≤ routers + peerings) }
    ensures is { (setup : Setup) → HasCounts setup (routers, peerings) → result ≡ has_channel setup from to }
    ensures apart { result ≡ true → from ≢ to }
{
    let operator = routers + peerings;
    if from < routers {
        to != from
    } else if from < operator {
        to < routers
    } else {
        to < operator
    }
}

/// Adds the channels from one actor. There must be none yet from it or from later actors.
fn add_from(
    edges: &mut Vec<(u16, u16)>,
    from: u16,
    routers: u16,
    peerings: u16,
) -> Result<(), NoMemory>
    requires few { (routers ≤ 256) × (peerings ≤ 256) }
    requires there { from ≤ routers + peerings }
    requires sound { AreEdges (routers + peerings + 1) edges.old.items }
    requires none { NoneFrom from edges.old.items }
    ensures sound { OnOk result (AreEdges (routers + peerings + 1) edges.new.items) }
    ensures none { OnOk result (NoneFrom (from + 1) edges.new.items) }
    ensures added { OnOk result ((setup : Setup) → HasCounts setup (routers, peerings) → AddsEdgesFrom setup from edges.old.items edges.new.items) }
{
    for to in 0..routers + peerings + 1 {
        if may_talk(from, to, routers, peerings) {
            edges.push((from, to))?;
        }
    }
    Ok(())
}

/// Returns the channels of a laboratory, by the numbers of routers and peerings: each way between two routers, between
/// a router and a far side, and between a router and the operator, and from the operator to each far side.
pub(crate) fn edges_of(
    alloc: Global,
    routers: u16,
    peerings: u16,
) -> Result<Vec<(u16, u16)>, NoMemory>
    requires few { (routers ≤ 256) × (peerings ≤ 256) }
    ensures sound { IfOk result (λ edges. AreEdges (routers + peerings + 1) edges.items) }
    ensures each { IfOk result (λ edges. (setup : Setup) → HasCounts setup (routers, peerings) → AreEdgesOf setup edges.items) }
{
    let mut edges = Vec::new(alloc);
    for from in 0..routers + peerings + 1 {
        add_from(&mut edges, from, routers, peerings)?;
    }
    Ok(edges)
}
