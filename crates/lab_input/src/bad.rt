//! Reasons why an input is refused.

use bgp_types::{Name, NoMemory};
use thiserror::Error;

/// Why an input is refused: the first rule that it doesn't meet.
#[derive(Debug, Drop, Error)]
pub enum BadInput {
    /// The bytes aren't a TOML document.
    #[error("not toml")]
    NotToml,
    /// The value at this path is missing, unknown or of a wrong shape.
    #[error("shape {0}")]
    Shape(Name),
    /// The number or count at this path is beyond its limits.
    #[error("limit {0} {1}")]
    Limit(Name, u64),
    /// No router, peering or policy has this name.
    #[error("unknown {0}")]
    Unknown(Name),
    /// This name, address or network occurs more than once.
    #[error("repeated {0}")]
    Repeated(Name),
}

/// Why no value of an input is given.
#[derive(Debug, Drop, Error)]
pub enum LabStop {
    #[error("bad input: {0}")]
    Bad(BadInput),
    #[error("no memory")]
    NoMemory,
}

impl From<NoMemory> for LabStop {
    ghost use Rattle.std.specs.Prelude.{◌≡◌};
    ghost use Rattle.lab_input.specs.declared.bad.LabStop.TheVariants as stops;

    ghost from_gives = { λ _ stop. stop ≡ stops.NoMemory };

    fn from(_stop: NoMemory) -> LabStop {
        LabStop::NoMemory
    }
}
