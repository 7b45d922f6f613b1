//! What holds of an input that was accepted.

ghost use Rattle.std.specs.Prelude.{◌≡◌, length};
ghost use Rattle.node_configs.specs.Accepted.{IsAccepted};

use lab_tables::LabInput;

/// How many routers and how many peerings an input has that was accepted.
pub fn counts(input: &LabInput) -> (u32, u32)
    requires { IsAccepted input.now }
    ensures routers { result.0 ≡ length input.now.routers }
    ensures peerings { result.1 ≡ length input.now.peerings }
{
    let routers = input.routers.len() as u32;
    let peerings = input.peerings.len() as u32;
    (routers, peerings)
}
