//! The laboratory to which an actor belongs.

ghost use Rattle.std.specs.Prelude.{◌≡◌};
ghost use Rattle.std.specs.Borrow.{ftrue};
ghost use Rattle.graft_model.specs.Setups.{Setup};

use std::marker::Model;

/// The laboratory to which an actor belongs, for proofs only: it takes no memory. What an actor may do depends on the
/// whole input of its laboratory, of which the running actor keeps only what it needs.
#[derive(Drop)]
pub struct Known {
    seal: (),
    pub ghost setup: { Setup },
}

impl Model for Known {
    ghost also_owns = { λ _. ftrue };
}

// A struct with `also_owns` isn't `Send` by itself. This one owns nothing.
unsafe impl Send for Known {}

impl Known {
    /// Returns the laboratory that the caller's proof names.
    pub fn new() -> Known
        ghost setup: { Setup }
        ensures { result.setup ≡ setup }
    {
        Known { seal: () }
    }
}
