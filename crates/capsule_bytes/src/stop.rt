//! Why octets aren't a capsule.

use graft_edge::NoMemory;
use thiserror::Error;

/// Why octets aren't a capsule: their first fault from the left, with its place, counted from 0.
#[derive(Clone, Copy, Debug, PartialEq, Eq, Hash, Error)]
pub enum CapsuleStop {
    /// The first four octets aren't those of a capsule.
    #[error("not a capsule")]
    Magic,
    /// The octets end inside the field that begins at this place.
    #[error("the octets end inside the field at place {0}")]
    Cut(u32),
    /// The field at this place has a value that it can't have there.
    #[error("the field at place {0} has a wrong value")]
    Value(u32),
    /// Octets follow the capsule, from this place on.
    #[error("octets follow the capsule at place {0}")]
    Rest(u32),
    #[error("no memory")]
    NoMemory,
}

impl From<NoMemory> for CapsuleStop {
    ghost use Rattle.std.specs.Prelude.{◌≡◌};
    ghost use Rattle.capsule_bytes.specs.declared.stop.CapsuleStop.TheVariants as stops;

    ghost from_gives = { λ _ stop. stop ≡ stops.NoMemory };

    fn from(_error: NoMemory) -> CapsuleStop {
        CapsuleStop::NoMemory
    }
}
