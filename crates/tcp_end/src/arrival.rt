//! What a call of an endpoint returns.

use graft_edge::NoMemory;
use tcp_seq::Seq;
use thiserror::Error;

/// What kind of segment arrived (RFC 9293, section 3.10.7.4).
#[derive(Clone, Copy, Debug, PartialEq, Eq, Hash)]
pub enum Arrival {
    /// It isn't acceptable.
    Outside,
    /// It is acceptable, and acknowledges bytes that weren't emitted.
    Ahead { ack: Seq },
    /// It brings no new byte and no new acknowledgement.
    Duplicate,
    /// It brings a new byte or a new acknowledgement.
    Accepted,
}

/// Why bytes weren't sent.
#[derive(Clone, Copy, Debug, PartialEq, Eq, Hash, Error)]
pub enum SendStop {
    /// The stream would have this length, but a stream has at most 1,048,576 bytes.
    #[error("the stream would have {length} bytes")]
    Full { length: usize },
    #[error("no memory")]
    NoMemory,
}

impl From<NoMemory> for SendStop {
    ghost use Rattle.std.specs.Prelude.{◌≡◌};
    ghost use Rattle.tcp_end.specs.declared.arrival.SendStop.TheVariants as stops;

    ghost from_gives = { λ _ stop. stop ≡ stops.NoMemory };

    fn from(_error: NoMemory) -> SendStop {
        SendStop::NoMemory
    }
}
