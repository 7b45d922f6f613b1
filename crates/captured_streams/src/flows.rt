//! The octets of sessions, in order.

ghost use Rattle.std.specs.Prelude.{ℕ, ◌≡◌, ◌<◌, ◌^◌, ◌++◌, List, length, count_by, Some, Err, IfOk, IfSome, IfNone, OnOk};
ghost use Rattle.std.specs.List.{All};
ghost use Rattle.captured_streams.specs.declared.stop.Hole.{Hole as HoleValue};
ghost use Rattle.captured_streams.specs.declared.stop.StreamStop.TheVariants as stops;
ghost use Rattle.captured_streams.specs.Numbered.{IsNumbered};
ghost use Rattle.captured_streams.specs.Peers.{is_other};
ghost use Rattle.captured_streams.specs.Flows.{begins as begins_lem, stream_at, is_beyond as is_beyond_lem, one_way, Brings, AreFlows, none_begun, stream_of};
ghost use Rattle.captured_streams.specs.Steps.{IsBeyondAt, IsStep, with_slot, BringsNext};
ghost use Rattle.captured_streams.specs.Readings.{HasOctets, HasRest, IsBeyond, IsOf};
ghost use Rattle.captured_streams.specs.declared.flows.Stream.{Stream as StreamValue};
ghost use Rattle.captured_streams.specs.declared.streams.Flow.{Flow as FlowValue};

use crate::directed::{Directed, Peer};
use crate::peers::Peers;
use crate::stop::{Hole, StreamStop};
use crate::streams::Flow;
use graft_edge::{Items, NoMemory, Octets};
use std::alloc::Global;
use tcp_packets::CapturedSegment;
use tcp_reasm::{Reasm, WINDOW};
use tcp_seq::Way;

/// One way of a connection, as far as it was read.
#[derive(Drop)]
pub(crate) struct Stream {
    /// How many octets it gave.
    given: u64,
    /// Those behind them.
    rest: Reasm,
}

/// The streams of a connection, as far as they have begun.
#[derive(Drop)]
pub(crate) struct Both {
    to_home: Option<Stream>,
    to_remote: Option<Stream>,
}

/// What a segment does to its stream.
#[derive(Drop)]
enum Step {
    /// The stream hasn't begun.
    Nothing,
    /// These octets are in order then.
    Brings(Octets),
    /// The segment is beyond the window. The stream gave this many octets.
    Beyond(u64),
}

/// Half of the sequence numbers.
const HALF: u32 = 0x8000_0000;

/// Whether a stream begins with a segment: it opens its connection or has octets.
fn begins(segment: &CapturedSegment<'_>) -> bool
    ensures { result ≡ begins_lem segment.now }
{
    segment.opens || !segment.octets.is_empty()
}

/// Returns a stream, which begins with a segment if it hasn't begun before.
fn begun(alloc: Global, stream: Option<Stream>, segment: &CapturedSegment<'_>) -> Option<Stream>
    ensures { result ≡ stream_at stream segment.now }
{
    match stream {
        None if begins(segment) => Some(Stream {
            given: 0,
            rest: Reasm::new(alloc, segment.first),
        }),
        stream => stream,
    }
}

/// Whether a segment has an octet beyond the window of its stream. Half of all numbers are ahead of the next one that is
/// expected, and the others behind (RFC 9293, section 3.4).
fn is_beyond(stream: &Stream, segment: &CapturedSegment<'_>) -> bool
    requires { length segment.now.octets < 2 ^ 16 }
    ensures { result ≡ is_beyond_lem stream.now segment.now }
{
    let ahead = segment.first.offset_from(stream.rest.next());
    !segment.octets.is_empty()
        && ahead < HALF
        && ahead as usize + segment.octets.len() > WINDOW as usize
}

/// Puts the octets of a segment, and returns what is in order then.
fn bring(
    alloc: Global,
    stream: &mut Stream,
    segment: &CapturedSegment<'_>,
) -> Result<Octets, NoMemory>
    requires { length segment.now.octets < 2 ^ 16 }
    ensures { IfOk result (λ octets. Brings stream.old segment.now octets stream.new) }
{
    stream.rest.put(segment.first, segment.octets)?;
    let mut octets = Octets::new(alloc);
    let count = stream.rest.take_ready(&mut octets)?;
    stream.given = stream.given.checked_add(count as u64).ok_or(NoMemory)?;
    Ok(octets)
}

/// Takes a segment into the stream of its way.
fn advance(
    alloc: Global,
    slot: &mut Option<Stream>,
    way: Way,
    segment: &CapturedSegment<'_>,
) -> Result<Step, NoMemory>
    requires { length segment.now.octets < 2 ^ 16 }
    ensures { IfOk result (λ step. IsStep way slot.old segment.now slot.new step) }
{
    let Some(mut stream) = begun(alloc, slot.take(), segment) else {
        return Ok(Step::Nothing);
    };
    if way == Way::Home && is_beyond(&stream, segment) {
        return Ok(Step::Beyond(stream.given));
    }
    let octets = bring(alloc, &mut stream, segment)?;
    *slot = Some(stream);
    Ok(Step::Brings(octets))
}

/// Takes a segment into the streams of its connection.
fn advance_one(
    alloc: Global,
    both: &mut Both,
    way: Way,
    segment: &CapturedSegment<'_>,
) -> Result<Step, NoMemory>
    requires { length segment.now.octets < 2 ^ 16 }
    ensures step { IfOk result (λ step. IsStep way (one_way way both.old) segment.now (one_way way both.new) step) }
    ensures rest { both.new ≡ with_slot way (one_way way both.new) both.old }
{
    match way {
        Way::Home => advance(alloc, &mut both.to_home, way, segment),
        Way::Remote => advance(alloc, &mut both.to_remote, way, segment),
    }
}

/// Takes a segment of the connection with this number.
fn take_segment(
    alloc: Global,
    streams: &mut Vec<Both>,
    flows: &mut Items<Flow>,
    peer: usize,
    segment: &Directed<'_>,
) -> Result<(), StreamStop>
    requires known { peer < length streams.old.items }
    requires short { length segment.now.segment.octets < 2 ^ 16 }
    ensures brings { OnOk result ((more : List FlowValue) × (flows.new ≡ flows.old ++ more)
        × BringsNext streams.old.items segment.now peer more streams.new.items) }
    ensures len { length streams.new.items ≡ length streams.old.items }
    ensures beyond { (hole : HoleValue) → result ≡ Err (stops.Hole hole) → (hole.remote ≡ segment.now.peer.remote)
        × IsBeyondAt segment.now.way (stream_of streams.old.items peer segment.now.way) segment.now.segment hole.octet }
{
    let way = segment.way;
    match advance_one(alloc, &mut streams[peer], way, &segment.segment)? {
        Step::Nothing => Ok(()),
        Step::Brings(octets) => Ok(flows.push(Flow { peer, way, octets })?),
        Step::Beyond(octet) => Err(StreamStop::Hole(Hole {
            remote: segment.peer.remote,
            octet,
        })),
    }
}

/// What the segments of a capture bring.
#[derive(Drop)]
pub(crate) struct Brought {
    pub(crate) flows: Items<Flow>,
    /// The streams of each connection.
    pub(crate) streams: Vec<Both>,
    /// How many segments are those of other connections.
    pub(crate) others: u64,
}

/// Returns the streams of this many connections, none of which has begun.
fn none_begun_yet(alloc: Global, peers: &[Peer]) -> Result<Vec<Both>, NoMemory>
    ensures { IfOk result (λ streams. streams.items ≡ none_begun peers.now) }
{
    let streams = peers
        .iter()
        .map(|_| Both {
            to_home: None,
            to_remote: None,
        })
        .collect(alloc)?;
    Ok(streams)
}

/// Takes the segments of a capture, one behind another.
pub(crate) fn bring_all(
    alloc: Global,
    peers: &Peers,
    segments: &[Directed<'_>],
) -> Result<Brought, StreamStop>
    requires short { All (λ s. length s.segment.octets < 2 ^ 16) segments.now }
    requires numbered { IsNumbered peers.now.list peers.now.numbers }
    ensures flows { IfOk result (λ all. AreFlows peers.now.list (none_begun peers.now.list) segments.now all.flows all.streams.items) }
    ensures len { IfOk result (λ all. length all.streams.items ≡ length peers.now.list) }
    ensures others { IfOk result (λ all. all.others ≡ count_by (is_other peers.now.list) segments.now) }
    ensures beyond { (hole : HoleValue) → result ≡ Err (stops.Hole hole) → IsBeyond peers.now.list segments.now hole }
{
    let mut all = Brought {
        flows: Items::new(alloc),
        streams: none_begun_yet(alloc, &peers.list)?,
        others: 0,
    };
    for segment in segments {
        let Some(peer) = peers.at(segment) else {
            all.others += 1;
            continue;
        };
        take_segment(alloc, &mut all.streams, &mut all.flows, peer, segment)?;
    }
    Ok(all)
}

/// Returns how many octets the stream to home gave, if it has octets behind a hole.
fn octets_before_hole(both: &Both) -> Option<u64>
    ensures some { IfSome result (λ given. (stream : StreamValue) × (both.now.to_home ≡ Some stream) × HasOctets stream × (given ≡ stream.given)) }
    ensures none { IfNone result ((stream : StreamValue) → both.now.to_home ≡ Some stream → ¬ HasOctets stream) }
{
    let stream = both.to_home.as_ref()?;
    if stream.rest.pieces().is_empty() {
        return None;
    }
    Some(stream.given)
}

/// Returns the hole of the first stream that has octets behind one.
pub(crate) fn first_hole(peers: &[Peer], streams: &[Both]) -> Option<Hole>
    requires { length streams.now ≡ length peers.now }
    ensures some { IfSome result (λ hole. (k : ℕ) × (stream : StreamValue) × HasRest streams.now k stream
        × ((n : ℕ) (other : StreamValue) → n < k → ¬ HasRest streams.now n other) × IsOf peers.now k stream hole) }
    ensures none { IfNone result ((k : ℕ) (stream : StreamValue) → ¬ HasRest streams.now k stream) }
{
    for (k, both) in streams.iter().enumerate() {
        if let Some(octet) = octets_before_hole(both) {
            let remote = peers[k].remote;
            return Some(Hole { remote, octet });
        }
    }
    None
}
