//! Why the streams of a capture aren't read.

use graft_edge::NoMemory;
use tcp_packets::Socket;
use thiserror::Error;

/// A place in a remote's stream at which an octet is missing, and behind which some are there.
#[derive(Clone, Copy, Debug, PartialEq, Eq, Hash)]
pub struct Hole {
    pub remote: Socket,
    /// The place of the missing octet in the stream, counted from 0.
    pub octet: u64,
}

/// Why the streams of a capture aren't read.
#[derive(Clone, Copy, Debug, PartialEq, Eq, Hash, Error)]
pub enum StreamStop {
    /// The first octet that is missing.
    #[error("a hole at octet {}", .0.octet)]
    Hole(Hole),
    #[error("no memory")]
    NoMemory,
}

impl From<NoMemory> for StreamStop {
    ghost use Rattle.std.specs.Prelude.{◌≡◌};
    ghost use Rattle.captured_streams.specs.declared.stop.StreamStop.TheVariants as stops;

    ghost from_gives = { λ _ stop. stop ≡ stops.NoMemory };

    fn from(_error: NoMemory) -> StreamStop {
        StreamStop::NoMemory
    }
}
