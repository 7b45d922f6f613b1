//! Why a file isn't read.

use graft_edge::NoMemory;
use thiserror::Error;

/// Why a file isn't read as a capture.
#[derive(Clone, Copy, Debug, PartialEq, Eq, Hash, Error)]
pub enum CaptureStop {
    /// The file isn't a capture: the field at this place, counted from 0, is the first one that is cut off
    /// or wrong.
    #[error("no capture at place {0}")]
    Form(usize),
    #[error("no memory")]
    NoMemory,
}

impl From<NoMemory> for CaptureStop {
    ghost use Rattle.std.specs.Prelude.{◌≡◌};
    ghost use Rattle.pcap_form.specs.declared.stop.CaptureStop.TheVariants as stops;

    ghost from_gives = { λ _ stop. stop ≡ stops.NoMemory };

    fn from(_error: NoMemory) -> CaptureStop {
        CaptureStop::NoMemory
    }
}
