//! The laboratory of the rows: three routers, 0 to 2; two peerings, whose far sides are actors 3 and 4; and the
//! operator, actor 5. The session of peering 0 starts at router 0, and that of peering 1 at router 1. The script has
//! two groups:
//!
//! | Step | |
//! |---|---|
//! | 0 | the remote of peering 0 says 2 bytes |
//! | 1 | graft 1: peering 0 moves to router 1 |
//! | 2 | the remote of peering 0 says 4,096 bytes |
//! | 3 | graft 2: peering 0 moves to router 2 |
//! | 4 | the remote of peering 1 says its bytes |
//! | 5 | graft 3: peering 0 moves to router 0 |
//! | 6 | the first group ends |
//! | 7 | the remote of peering 0 says 524,285 bytes |
//! | 8 | the second group ends |
//!
//! The remote of peering 0 has said 4 bytes at the start. Its initial sequence number is 5000, and that of the home
//! side is 1000. It says a KEEPALIVE in every fifth turn.

ghost use Rattle.std.specs.Prelude.{◌≡◌, ◌∷◌, [], IfOk};
ghost use Rattle.graft_model.specs.Setups.{Setup};

use actor_configs::{FarConfig, Say, Says, Script, ScriptStep};
use far_side::Far;
use graft_actors::Known;
use graft_edge::{Items, NoMemory, Octets, PeeringId, RouterId};
use link_bag::{Fault, Plan};
use operator_core::Operator;
use std::alloc::Global;
use tcp_seq::Seq;

/// Returns `len` equal bytes.
fn equal_bytes(alloc: Global, len: usize) -> Result<Octets, NoMemory> {
    Ok(Items::from_vec(vec![in alloc; 7; len]?))
}

/// Returns the laboratory in which the remote of peering 0 says these bytes.
fn known_for(_opening: &Octets, _first: &Octets, _second: &Octets, _third: &Octets) -> Known
    ghost setup: { Setup }
    ensures { result.setup ≡ setup }
{
    Known::new()
}

/// Returns what the remote of peering 0 says at its steps.
fn says(alloc: Global, first: Octets, second: Octets, third: Octets) -> Result<Says, NoMemory>
    ensures { IfOk result (λ says. says ≡ record { step = 0; bytes = first } ∷ record { step = 2; bytes = second } ∷ record { step = 7; bytes = third } ∷ []) }
{
    let mut says = Items::one(
        alloc,
        Say {
            step: 0,
            bytes: first,
        },
    )?;
    says.push(Say {
        step: 2,
        bytes: second,
    })?;
    says.push(Say {
        step: 7,
        bytes: third,
    })?;
    Ok(says)
}

/// Returns the far side of peering 0, with these faults in its links.
pub fn far_side(alloc: Global, faults: &[Fault]) -> Result<Far, NoMemory> {
    let opening = Octets::from_slice(alloc, &[1, 2, 3, 4])?;
    let first = equal_bytes(alloc, 2)?;
    let second = equal_bytes(alloc, 4_096)?;
    let third = equal_bytes(alloc, 524_285)?;
    let known = known_for(&opening, &first, &second, &third);
    let says = says(alloc, first, second, third)?;
    let plan = Plan::new(alloc, faults)?;
    let config = FarConfig {
        routers: 3,
        peerings: 2,
        peering: PeeringId(0),
        pointer: RouterId(0),
        send_first: Seq(5000),
        receive_first: Seq(1000),
        opening,
        says,
        plan,
        beat: 5,
    };
    Far::new(alloc, known, config)
}

fn say(peering: u8) -> ScriptStep
    ensures { result ≡ ScriptStep.Say (record { 0 = peering }) }
{
    ScriptStep::Say {
        peering: PeeringId(peering),
    }
}

fn graft(target: u8) -> ScriptStep
    ensures { result ≡ ScriptStep.Graft (record { 0 = 0 }) (record { 0 = target }) }
{
    ScriptStep::Graft {
        peering: PeeringId(0),
        target: RouterId(target),
    }
}

/// Returns the operator, before anything is issued.
pub fn operator(alloc: Global) -> Result<Operator, NoMemory> {
    let rooms = Vec::from_array(alloc, [4, 4, 4])?;
    let starts = Vec::from_array(alloc, [RouterId(0), RouterId(1)])?;
    let steps = Vec::from_array(
        alloc,
        [
            say(0),
            graft(1),
            say(0),
            graft(2),
            say(1),
            graft(0),
            ScriptStep::Settle,
            say(0),
            ScriptStep::Settle,
        ],
    )?;
    let script = Script {
        rooms: Items::from_vec(rooms),
        starts: Items::from_vec(starts),
        steps: Items::from_vec(steps),
    };
    Operator::new(alloc, Known::new(), script)
}
