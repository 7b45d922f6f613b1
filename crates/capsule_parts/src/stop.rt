//! Why parts don't give a capsule.

use bgp_types::NoMemory;
use thiserror::Error;

/// Why parts don't give a capsule.
#[derive(Clone, Copy, Debug, PartialEq, Eq, Error)]
pub enum PartsStop {
    /// No capsule has these parts.
    #[error("these aren't the parts of a session")]
    Unsound,
    #[error("no memory")]
    NoMemory,
}

impl From<NoMemory> for PartsStop {
    ghost use Rattle.std.specs.Prelude.{◌≡◌};
    ghost use Rattle.capsule_parts.specs.declared.stop.PartsStop.TheVariants as stops;

    ghost from_gives = { λ _ stop. stop ≡ stops.NoMemory };

    fn from(_error: NoMemory) -> PartsStop {
        PartsStop::NoMemory
    }
}
