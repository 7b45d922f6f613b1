//! What a step of an input has a remote say.

ghost use Rattle.std.specs.Prelude.{◌≡◌, IfOk};
ghost use Rattle.bgp_types.specs.declared.message.Message.TheVariants.{UpdateMsg};
ghost use Rattle.bgp_types.specs.Spelling.{spell};
ghost use Rattle.bgp_types.specs.Writable.{IsWritable};
ghost use Rattle.lab_input.specs.Said.{step_update};
ghost use Rattle.lab_setup.specs.Said.{bytes_of_step};

use bgp_types::Message;
use bgp_wire::write_message;
use graft_edge::{NoMemory, Octets, PeeringId, TryCopy};
use lab_input::update_of;
use lab_tables::Step;
use std::alloc::Global;

/// The UPDATE of a step, written with AS numbers of this width.
fn update_bytes(alloc: Global, wide: bool, step: &Step) -> Result<Octets, NoMemory>
    requires { IsWritable (UpdateMsg (step_update step.now)) wide }
    ensures { IfOk result (λ bytes. bytes ≡ spell (UpdateMsg (step_update step.now)) wide) }
{
    let update = update_of(alloc, step)?;
    write_message(alloc, &Message::UpdateMsg(update), wide)
}

/// The bytes that a step has the remote of a peering say, if it has it say any. `wide` tells whether AS numbers have four octets
/// there (RFC 6793, section 4.1); the UPDATE of the step can be written so.
pub fn said_by(
    alloc: Global,
    wide: bool,
    peering: PeeringId,
    step: &Step,
) -> Result<Option<Octets>, NoMemory>
    requires { IsWritable (UpdateMsg (step_update step.now)) wide }
    ensures { IfOk result (λ said. said ≡ bytes_of_step wide peering.0 step.now) }
{
    match step {
        Step::Announce { peering: of, .. } if *of == peering => {
            Ok(Some(update_bytes(alloc, wide, step)?))
        }
        Step::Withdraw { peering: of, .. } if *of == peering => {
            Ok(Some(update_bytes(alloc, wide, step)?))
        }
        Step::Raw { peering: of, bytes } if *of == peering => Ok(Some(bytes.copy()?)),
        _ => Ok(None),
    }
}
