//! Results of the calls of a session.

use bgp_types::{NoMemory, PrefixList};
use thiserror::Error;

/// What the message that was read did.
#[derive(Debug, Drop)]
pub enum ReadStep {
    /// An OPEN was received, and is answered by a KEEPALIVE.
    Opened,
    /// A KEEPALIVE was received, and the session is established.
    Established,
    /// An UPDATE or a KEEPALIVE was received in an established session. The routes to these prefixes, in ascending
    /// order, were added, replaced or removed. There are none after a KEEPALIVE.
    Changed(PrefixList),
    /// The session closed: a NOTIFICATION was received, or a fault is answered by one. These prefixes, in ascending
    /// order, had routes.
    Closed(PrefixList),
}

/// What a round did.
#[derive(Debug, Drop)]
pub enum TickStep {
    /// Nothing was put.
    Plain,
    /// A KEEPALIVE was put.
    Beat,
    /// The hold time has expired: a NOTIFICATION was put, and the session closed. These prefixes, in ascending order,
    /// had routes.
    Expired(PrefixList),
}

/// Why an UPDATE isn't put.
#[derive(Clone, Copy, Debug, PartialEq, Eq, Error)]
pub enum OfferStop {
    /// The stream would reach this length. An established session puts at most 1,044,480 bytes, so that a NOTIFICATION
    /// has room after them.
    #[error("the stream would have {length} bytes")]
    StreamFull { length: usize },
    #[error("no memory")]
    NoMemory,
}

impl From<NoMemory> for OfferStop {
    ghost use Rattle.std.specs.Prelude.{◌≡◌};
    ghost use Rattle.bgp_session.specs.declared.answers.OfferStop.TheVariants as stops;

    ghost from_gives = { λ _ stop. stop ≡ stops.NoMemory };

    fn from(_error: NoMemory) -> OfferStop {
        OfferStop::NoMemory
    }
}
