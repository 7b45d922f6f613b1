//! Which inputs the program can run.

ghost use Rattle.std.specs.Prelude.{◌≡◌};
ghost use Rattle.lab_top.specs.Built.{takes_capsules as takes_capsules_lem, is_built as is_built_lem};

use lab_tables::{LabInput, RouterInput};

/// Whether capsules go to a router as they are.
fn takes_capsules(router: &RouterInput) -> bool
    ensures { result ≡ takes_capsules_lem router.now }
{
    !router.by_bytes
}

/// Whether the program can run an input that meets all rules. It can't yet where capsules go to a router as bytes.
pub fn is_built(input: &LabInput) -> bool
    ensures { result ≡ is_built_lem input.now }
{
    input.routers.iter().all(|router| takes_capsules(router))
}
