//! Long segments, in pieces.

ghost use Rattle.std.specs.Prelude.{◌≡◌, ◌<◌, ◌^◌, ◌++◌, length, take, OnOk};
ghost use Rattle.std.specs.List.{All};
ghost use Rattle.captured_streams.specs.Directed.{pieces};

use crate::directed::Directed;
use graft_edge::{Items, NoMemory};
use std::alloc::Global;
use tcp_packets::CapturedSegment;
use tcp_seq::Seq;

/// How many octets a piece has.
const PIECE: usize = 4_096;

/// The same number, for sequence numbers.
const PIECE_LEN: u32 = 4_096;

/// How many pieces there are in front of the rest: as much as a packet of IPv4 can have.
pub(crate) const MOST_PIECES: u32 = 16;

/// Returns a segment like this one with other octets.
fn like<'a>(segment: &Directed<'a>, opens: bool, first: Seq, octets: &'a [u8]) -> Directed<'a>
    ensures { result ≡ record {
      peer = segment.now.peer;
      way = segment.now.way;
      segment = record segment.now.segment { opens = opens; first = first.0; octets = octets.now };
    } }
{
    let CapturedSegment { source, target, .. } = &segment.segment;
    Directed {
        peer: segment.peer,
        way: segment.way,
        segment: CapturedSegment {
            source: *source,
            target: *target,
            opens,
            first,
            octets,
        },
    }
}

/// Appends a segment in pieces: so many, and the rest.
pub(crate) fn push_pieces<'a>(
    all: &mut Items<Directed<'a>>,
    segment: Directed<'a>,
    most: u32,
) -> Result<(), NoMemory>
    requires { length segment.segment.octets < 2 ^ 16 }
    ensures pieces { OnOk result (all.new ≡ all.old ++ pieces most segment.entry) }
    ensures short { All (λ s. length s.segment.octets < 2 ^ 16) all.old → OnOk result (All (λ s. length s.segment.octets < 2 ^ 16) all.new) }
{
    if most == 0 || segment.segment.octets.len() <= PIECE {
        return all.push(segment);
    }
    let s = &segment.segment;
    let (front, behind) = s.octets.split_at(PIECE);
    all.push(like(&segment, s.opens, s.first, front))?;
    let rest = like(&segment, false, s.first.plus(PIECE_LEN), behind);
    push_pieces(all, rest, most - 1)
}
