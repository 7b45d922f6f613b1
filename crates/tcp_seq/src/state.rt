//! The state of an endpoint that is handed over.

ghost use Rattle.std.specs.Prelude.{◌≡◌, ◌+◌, length};

use crate::segment::Way;
use crate::seq::Seq;
use graft_edge::{Items, NoMemory, Octets, PeeringId, TryCopy};

/// Consecutive bytes of a stream, from an offset on.
#[derive(Debug, Drop)]
pub struct Piece {
    /// The offset of the first byte. In an [`EndState`] it is counted from the stream's first byte, and in a
    /// reassembly from the byte expected next.
    pub offset: u32,
    pub bytes: Octets,
}

/// A list of pieces.
pub type Pieces = Items<Piece>;

impl Piece {
    /// Returns the offset after its last byte.
    pub fn end(&self) -> usize
        ensures { result ≡ self.now.offset + length self.now.bytes }
    {
        self.offset as usize + self.bytes.as_slice().len()
    }
}

impl TryCopy for Piece {
    fn copy(&self) -> Result<Piece, NoMemory> {
        let bytes = self.bytes.copy()?;
        Ok(Piece {
            offset: self.offset,
            bytes,
        })
    }
}

/// An endpoint at rest, as it moves from one router to another. Offsets are counted from the first byte of a
/// stream, which has offset 0 and the number `send_first` or `receive_first`.
#[derive(Debug, Drop)]
pub struct EndState {
    /// The side that it sends to.
    pub way: Way,
    pub peering: PeeringId,
    pub send_first: Seq,
    /// The number of bytes that it sent and that were acknowledged.
    pub acked: u32,
    /// The number of bytes that it emitted at least once.
    pub sent: u32,
    /// The bytes to be sent or acknowledged, from offset `acked` to the stream's end.
    pub waiting: Octets,
    pub receive_first: Seq,
    /// The number of received bytes that were read.
    pub taken: u32,
    /// The bytes that were received in order and not yet read.
    pub ready: Octets,
    /// The bytes that arrived ahead of a hole, by their offsets in the stream.
    pub ahead: Pieces,
    /// The value of `acked` at the last retransmission turn.
    pub acked_at_turn: u32,
    /// Whether it owes an acknowledgement.
    pub owed: bool,
}

impl TryCopy for EndState {
    fn copy(&self) -> Result<EndState, NoMemory> {
        let waiting = self.waiting.copy()?;
        let ready = self.ready.copy()?;
        let ahead = self.ahead.copy()?;
        Ok(EndState {
            way: self.way,
            peering: self.peering,
            send_first: self.send_first,
            acked: self.acked,
            sent: self.sent,
            waiting,
            receive_first: self.receive_first,
            taken: self.taken,
            ready,
            ahead,
            acked_at_turn: self.acked_at_turn,
            owed: self.owed,
        })
    }
}
