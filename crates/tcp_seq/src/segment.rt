//! Segments.

ghost use Rattle.std.specs.Prelude.{MatchBool};
ghost use Rattle.tcp_seq.specs.Endpoint.{IsInStreams};
ghost use Rattle.tcp_seq.specs.Placed.{placed};

use crate::seq::Seq;
use graft_edge::{NoMemory, Octets, PeeringId, TryCopy};

/// The side that a segment goes to.
#[derive(Clone, Copy, Debug, PartialEq, Eq, PartialOrd, Ord, Hash)]
pub enum Way {
    Home,
    Remote,
}

/// A segment of the connection of a peering: bytes from a sequence number on, the number that its
/// sender expects next, and the window of its sender (RFC 9293, section 3.1).
#[derive(Debug, Drop)]
pub struct Segment {
    pub peering: PeeringId,
    pub way: Way,
    pub seq: Seq,
    pub ack: Seq,
    pub window: u16,
    pub bytes: Octets,
}

/// The last offset that a byte can have, or that can be acknowledged, in a stream of at most 1 MiB or in
/// a window of at most 65,536 at its end.
const LAST_OFFSET: u32 = 1_114_112;

impl Segment {
    /// Whether its numbers are those of offsets in streams of at most 1 MiB, or in a window at their
    /// end. `seq_first` is the number of the first byte of the stream that its bytes are of, and
    /// `ack_first` that of the stream that it acknowledges.
    pub fn is_in_streams(&self, seq_first: Seq, ack_first: Seq) -> bool
        ensures { MatchBool result (IsInStreams (placed seq_first.0 ack_first.0 self.now)) (¬ IsInStreams (placed seq_first.0 ack_first.0 self.now)) }
    {
        let offset = self.seq.offset_from(seq_first);
        let acknowledged = self.ack.offset_from(ack_first);
        let most = LAST_OFFSET as usize;
        let len = self.bytes.as_slice().len();
        acknowledged <= LAST_OFFSET && len <= most && offset as usize <= most - len
    }
}

impl TryCopy for Segment {
    fn copy(&self) -> Result<Segment, NoMemory> {
        let bytes = self.bytes.copy()?;
        Ok(Segment {
            peering: self.peering,
            way: self.way,
            seq: self.seq,
            ack: self.ack,
            window: self.window,
            bytes,
        })
    }
}
