//! What the remote of a peering says at the steps of a script.

ghost use Rattle.std.specs.Prelude.{◌≡◌, ◌<◌, ◌^◌, ◌++◌, All, length, IfOk, OnOk};
ghost use Rattle.bgp_types.specs.declared.message.Message.TheVariants.{UpdateMsg};
ghost use Rattle.bgp_types.specs.Writable.{IsWritable};
ghost use Rattle.lab_input.specs.Said.{step_update};
ghost use Rattle.node_configs.specs.Says.{say_if, says_of as says_of_lem};

use actor_configs::{Say, Says};
use graft_edge::{NoMemory, Octets, PeeringId};
use lab_setup::said_by;
use lab_tables::Step;
use std::alloc::Global;

/// Adds what a step says, if it says anything.
fn push_said(says: &mut Says, step: u32, said: Option<Octets>) -> Result<(), NoMemory>
    ensures { OnOk result (says.new ≡ says.old ++ say_if step said) }
{
    match said {
        Some(bytes) => says.push(Say { step, bytes }),
        None => Ok(()),
    }
}

/// All that the steps have the remote of a peering say. There are fewer than 2^32 steps, and the UPDATE of each can be written.
pub fn says_of(
    alloc: Global,
    steps: &[Step],
    wide: bool,
    peering: PeeringId,
) -> Result<Says, NoMemory>
    requires few { length steps.now < 2 ^ 32 }
    requires writable { All (λ step. IsWritable (UpdateMsg (step_update step)) wide) steps.now }
    ensures { IfOk result (λ says. says ≡ says_of_lem wide peering.0 steps.now) }
{
    let mut says = Says::new(alloc);
    for (i, step) in steps.iter().enumerate() {
        let said = said_by(alloc, wide, peering, step)?;
        push_said(&mut says, i as u32, said)?;
    }
    Ok(says)
}
