//! Streams that come in pieces, and faults whose data is cut.

use attr_codec::{CodecFault, read_attrs};
use bgp_frame::{Frame, FrameStop, Framer};
use bgp_types::*;
use std::alloc::Global;
use std::test::Fail;

/// The announcement of 10.0.0.0/8 with path 65001 and next hop 192.0.2.1.
const ANNOUNCEMENT: [u8; 43] = [
    255, 255, 255, 255, 255, 255, 255, 255, 255, 255, 255, 255, 255, 255, 255, 255, 0, 0x2B, 2, 0,
    0, 0, 0x12, 0x40, 1, 1, 0, 0x40, 2, 4, 2, 1, 0xFD, 0xE9, 0x40, 3, 4, 0xC0, 0, 2, 1, 8, 0x0A,
];

/// A KEEPALIVE.
const KEEPALIVE: [u8; 19] = [
    255, 255, 255, 255, 255, 255, 255, 255, 255, 255, 255, 255, 255, 255, 255, 255, 0, 0x13, 4,
];

/// Feeds a piece. If memory runs out, as under `rt try --test --fail-alloc`, nothing of the piece was taken, and it is
/// fed again.
fn feed(framer: &mut Framer, piece: &[u8]) -> Result<(), NoMemory> {
    match framer.feed(piece) {
        Ok(()) => Ok(()),
        Err(NoMemory) => framer.feed(piece),
    }
}

/// Returns the next message. If memory runs out, the message is still there.
fn next(framer: &mut Framer) -> Result<Option<Frame>, FrameStop> {
    match framer.next() {
        Err(FrameStop::NoMemory) => framer.next(),
        answer => answer,
    }
}

/// Returns the messages of a stream that arrives in pieces of this size, joined, each after its type.
fn messages_in_pieces(alloc: Global, stream: &[u8], size: usize) -> Result<Octets, Fail> {
    let mut framer = Framer::new(alloc);
    let mut messages = Octets::new(alloc);
    for piece in stream.chunks(size.max(1)) {
        feed(&mut framer, piece)?;
        for _ in 0..piece.len() {
            if !framer.waits() {
                break;
            }
            let frame = next(&mut framer)?.ok_or("a message waits")?;
            messages.push(frame.kind)?;
            messages.extend(&frame.bytes)?;
        }
    }
    Ok(messages)
}

/// However a stream is cut, it gives the same messages.
#[test]
fn a_stream_in_pieces(rt: HostRuntime) -> Result<(), Fail> {
    let alloc = rt.alloc();
    let mut stream = Octets::new(alloc);
    let mut messages = Octets::new(alloc);
    for _ in 0..12 {
        stream.extend(&ANNOUNCEMENT)?;
        stream.extend(&KEEPALIVE)?;
        messages.push(2)?;
        messages.extend(&ANNOUNCEMENT)?;
        messages.push(4)?;
        messages.extend(&KEEPALIVE)?;
    }
    for size in [1usize, 7, 19, 62, 100, 4000] {
        assert!(rt;
            messages_in_pieces(alloc, stream.as_slice(), size)? == messages,
            "{size}"
        );
    }
    Ok(())
}

/// The data of a fault is the attribute, cut to 4,075 octets, which have room in a NOTIFICATION of 4,096. A well-known
/// attribute of an unknown type with a value of 4,072 octets has 4,076.
#[test]
fn data_is_cut(rt: HostRuntime) -> Result<(), Fail> {
    let mut field = vec![in rt.alloc(); 0x50u8, 99, 0x0F, 0xE8]?;
    for _ in 0..4072 {
        field.push(7)?;
    }
    let Err(CodecFault::Wire(notice)) = read_attrs(rt.alloc(), field.as_slice(), false) else {
        return Err("the type is not optional".into());
    };
    let notice = (notice.code, notice.subcode, notice.info.len());
    assert_eq!(rt; notice, (3, 2, 4075));
    Ok(())
}
