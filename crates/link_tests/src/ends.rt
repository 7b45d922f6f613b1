//! Two ends whose segments arrive in a chosen order.

use graft_edge::{NoMemory, Octets, PeeringId};
use std::alloc::Global;
use std::process::Abort;
use std::test::Fail;
use tcp_end::{Arrival, End, SendStop};
use tcp_seq::{Segment, Seq, Way};

/// Returns the byte of a stream at an offset.
fn byte_at(offset: u32, salt: u32) -> u8 {
    (offset % 251) as u8 ^ (salt % 256) as u8
}

/// Returns the bytes of a stream from one offset up to another.
pub(crate) fn stream(alloc: Global, from: u32, to: u32, salt: u32) -> Result<Octets, NoMemory> {
    let mut bytes = Octets::new(alloc);
    for offset in from..to {
        bytes.push(byte_at(offset, salt))?;
    }
    Ok(bytes)
}

/// Returns the two ends of a connection: the first sends home, and the second to the remote.
pub(crate) fn two_ends(
    alloc: Global,
    remote_first: u32,
    home_first: u32,
) -> Result<(End, End), NoMemory> {
    let remote = End::new(
        alloc,
        Way::Home,
        PeeringId(3),
        Seq(remote_first),
        Seq(home_first),
    )?;
    let home = End::new(
        alloc,
        Way::Remote,
        PeeringId(3),
        Seq(home_first),
        Seq(remote_first),
    )?;
    Ok((remote, home))
}

/// Lets a segment arrive at the end to which it was sent.
pub(crate) fn take(rt: &impl Abort, end: &mut End, segment: &Segment) -> Result<Arrival, NoMemory> {
    assert!(rt; segment.peering == end.peering());
    assert!(rt; segment.way != end.way());
    assert!(rt; segment.bytes.len() < 65_536);
    end.arrive(segment)
}

/// Returns the same end after a hand-off.
pub(crate) fn moved(rt: &impl Abort, end: End) -> End {
    let state = end.export();
    assert!(rt; state.taken as usize + state.ready.len() <= 1 << 20);
    End::import(state)
}

/// Returns an end unchanged, or after a hand-off.
fn moved_if(rt: &impl Abort, end: End, moves: bool) -> End {
    if moves { moved(rt, end) } else { end }
}

/// Returns the next slice of an end, which must have `len` bytes.
fn slice(rt: &impl Abort, end: &mut End, len: usize) -> Result<Segment, Fail> {
    let segment = end.next_segment()?.ok_or("a slice")?;
    assert_eq!(rt; segment.bytes.len(), len);
    Ok(segment)
}

/// Lets a segment arrive, and checks how many bytes are ready after it.
fn arrives(
    rt: &impl Abort,
    end: &mut End,
    segment: &Segment,
    want: Arrival,
    ready: usize,
) -> Result<(), NoMemory> {
    let arrival = take(rt, end, segment)?;
    assert_eq!(rt; arrival, want);
    assert_eq!(rt; end.ready().len(), ready);
    Ok(())
}

/// Returns the acknowledgement that is owed, which has no bytes.
fn answer(rt: &impl Abort, end: &mut End, seq: Seq, ack: Seq) -> Result<Segment, Fail> {
    let segment = end.answer().ok_or("an answer")?;
    assert_eq!(rt; (segment.seq, segment.ack), (seq, ack));
    assert_eq!(rt; segment.bytes.len(), 0);
    assert!(rt; end.answer().is_none());
    Ok(segment)
}

/// Checks how much of its stream an end emitted, and how much of that was acknowledged.
fn lengths(rt: &impl Abort, end: &End, emitted: u32, acked: u32) {
    assert_eq!(rt; end.emitted(), emitted);
    assert_eq!(rt; end.acked(), acked);
}

/// Three slices of 3,000 bytes arrive out of order. After the first one both ends are handed off if `moves`. Returns
/// the ends.
fn out_of_order(rt: &impl Abort, far: End, near: End, moves: bool) -> Result<(End, End), Fail> {
    let mut far = far;
    let mut near = near;
    let one = slice(rt, &mut near, 1_024)?;
    let two = slice(rt, &mut near, 1_024)?;
    let three = slice(rt, &mut near, 952)?;
    arrives(rt, &mut far, &three, Arrival::Accepted, 0)?;
    far = moved_if(rt, far, moves);
    near = moved_if(rt, near, moves);
    arrives(rt, &mut far, &one, Arrival::Accepted, 1_024)?;
    arrives(rt, &mut far, &two, Arrival::Accepted, 3_000)?;
    Ok((far, near))
}

/// Checks what follows: the third slice is outside the window when it arrives again, and the acknowledgement arrives
/// twice.
fn afterwards(
    rt: &(impl Abort + AllocGlobal),
    far: &mut End,
    near: &mut End,
    first: Seq,
) -> Result<(), Fail> {
    let bytes = stream(rt.alloc(), 2_048, 3_000, 0)?;
    let segment = Segment {
        peering: PeeringId(3),
        way: Way::Remote,
        seq: first.plus(2_048),
        ack: Seq(5_000),
        window: 16_384,
        bytes,
    };
    answer(rt, far, Seq(5_000), first.plus(3_000))?;
    arrives(rt, far, &segment, Arrival::Outside, 3_000)?;
    let owed = answer(rt, far, Seq(5_000), first.plus(3_000))?;
    lengths(rt, near, 3_000, 0);
    arrives(rt, near, &owed, Arrival::Accepted, 0)?;
    lengths(rt, near, 3_000, 3_000);
    arrives(rt, near, &owed, Arrival::Duplicate, 0)?;
    Ok(())
}

/// Runs the whole exchange, from an initial sequence number.
fn three_slices(rt: &(impl Abort + AllocGlobal), first: u32, moves: bool) -> Result<(), Fail> {
    let bytes = stream(rt.alloc(), 0, 3_000, 0)?;
    let (far, near) = two_ends(rt.alloc(), 5_000, first)?;
    let mut near = near;
    near.send(bytes.as_slice())?;
    let (far, near) = out_of_order(rt, far, near, moves)?;
    let mut far = far;
    let mut near = near;
    assert_eq!(rt; far.ready(), bytes.as_slice());
    afterwards(rt, &mut far, &mut near, Seq(first))
}

#[test]
fn three_slices_out_of_order_give_the_stream(rt: HostRuntime) -> Result<(), Fail> {
    for (first, moves) in [(1_000, false), (4_294_967_290, true)] {
        three_slices(&rt, first, moves)?;
    }
    Ok(())
}

/// Checks that `slices` whole slices are emitted, and then the flight is full.
fn fill_the_flight(rt: &impl Abort, end: &mut End, slices: u32) -> Result<(), Fail> {
    for _ in 0..slices {
        slice(rt, end, 1_024)?;
    }
    assert!(rt; end.next_segment()?.is_none());
    Ok(())
}

#[test]
fn a_full_stream_tells_its_length(rt: HostRuntime) -> Result<(), Fail> {
    let bytes = stream(rt.alloc(), 0, 1_048_576, 0)?;
    let mut home = two_ends(rt.alloc(), 5_000, 1_000)?.1;
    home.send(bytes.as_slice())?;
    assert_eq!(rt; home.stream_len(), 1_048_576);
    assert_eq!(rt; home.send(b"x"), Err(SendStop::Full { length: 1_048_577 }));
    fill_the_flight(&rt, &mut home, 15)?;
    assert_eq!(rt; home.emitted(), 15_360);
    let again = home.turn()?.ok_or("the first slice again")?;
    assert_eq!(rt; again.seq, Seq(1_000));
    assert_eq!(rt; again.bytes.len(), 1_024);
    Ok(())
}

#[test]
fn an_acknowledgement_beyond_is_ahead(rt: HostRuntime) -> Result<(), Fail> {
    let mut home = two_ends(rt.alloc(), 5_000, 1_000)?.1;
    let segment = Segment {
        peering: PeeringId(3),
        way: Way::Home,
        seq: Seq(5_000),
        ack: Seq(1_001),
        window: 16_384,
        bytes: stream(rt.alloc(), 0, 10, 0)?,
    };
    arrives(
        &rt,
        &mut home,
        &segment,
        Arrival::Ahead { ack: Seq(1_001) },
        0,
    )?;
    answer(&rt, &mut home, Seq(1_000), Seq(5_000))?;
    Ok(())
}
