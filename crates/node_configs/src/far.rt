//! What the far side of a peering begins with.

ghost use Rattle.std.specs.Prelude.{ℕ, ◌≡◌, ◌<◌, length, IfOk};
ghost use Rattle.tcp_seq.specs.declared.segment.Way.{Way};
ghost use Rattle.link_bag.specs.Planned.{fate_of, fate_in};
ghost use Rattle.lab_setup.specs.Setups.{setup_of};
ghost use Rattle.actor_configs.specs.Fars.{IsFarConfigOf};
ghost use Rattle.node_configs.specs.Accepted.{IsAccepted};

use crate::counted::counts;
use crate::says::says_of;
use actor_configs::FarConfig;
use graft_edge::{NoMemory, PeeringId, TryCopy};
use lab_setup::{is_wide, keepalive_interval_of};
use lab_tables::LabInput;
use link_bag::Plan;
use std::alloc::Global;
use tcp_seq::Seq;

/// What the far side of a peering begins with: how many routers and peerings there are, the peering's start, numbers and opening, the
/// bytes that its remote says at steps, and its planned faults. The input is one that was accepted, and has the peering.
pub fn far_config(
    alloc: Global,
    input: &LabInput,
    peering: PeeringId,
) -> Result<FarConfig, NoMemory>
    requires accepted { IsAccepted input.now }
    requires there { peering.0 < length input.now.peerings }
    ensures config { IfOk result (IsFarConfigOf (setup_of input.now)) }
    ensures peering { IfOk result (λ config. config.peering ≡ peering) }
    ensures plan { IfOk result (λ config. (way : Way) (segment : ℕ)
        → fate_in config.plan peering way segment ≡ fate_of input.now.faults peering way segment) }
{
    let (routers, peerings) = counts(input);
    let there = &input.peerings[usize::from(peering.0)];
    let wide = is_wide(there);
    Ok(FarConfig {
        routers,
        peerings,
        peering,
        pointer: there.at,
        send_first: Seq(there.remote_seq),
        receive_first: Seq(there.home_seq),
        opening: there.opening.copy()?,
        says: says_of(alloc, &input.steps, wide, peering)?,
        plan: Plan::new(alloc, &input.faults)?,
        beat: keepalive_interval_of(there),
    })
}
