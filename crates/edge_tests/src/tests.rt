use graft_edge::{
    ByteQueue, FreeGate, Gate, Items, MemSink, MemSource, Name, NoMemory, Octets, ReadStop, Sink,
    StdSink, StdSource, TryCopy, Words, read_all, write_all,
};
use std::alloc::Global;
use std::io::Cursor;
use std::process::Abort;
use std::test::Fail;

/// Reads at most `most` bytes of "peering" from a source that gives at most `step` bytes per call and fails at call
/// `fails`.
fn read(alloc: Global, step: usize, fails: u32, most: usize) -> Result<Octets, ReadStop> {
    let mut source = MemSource::new(alloc, b"peering", step.max(1), &[fails])?;
    read_all(alloc, &mut source, most)
}

/// Rows of a step, the number of the call that fails, the most bytes that are read, and what stops the
/// reading. The calls are counted from 1, and the last one finds the end.
#[test]
fn reads_to_the_end_or_says_why_not(rt: HostRuntime) -> Result<(), Fail> {
    for (step, fails, most, stops) in [
        (1, 9, 7, None),
        (3, 9, 7, None),
        (64, 9, 100, None),
        (64, 1, 100, Some(ReadStop::Failed)),
        (2, 3, 100, Some(ReadStop::Failed)),
        (64, 2, 100, Some(ReadStop::Failed)),
        (64, 9, 6, Some(ReadStop::TooLong)),
        (1, 9, 0, Some(ReadStop::TooLong)),
    ] {
        match read(rt.alloc(), step, fails, most) {
            Ok(bytes) => assert_eq!(rt; (&bytes[..], None), (b"peering".as_slice(), stops)),
            Err(stop) => assert_eq!(rt;
                Some(stop),
                stops,
                "in steps of {step}, call {fails} fails"
            ),
        }
    }
    Ok(())
}

/// Rows of a sink's room, its step, the number of the call that fails, and what of "capsule" is written.
#[test]
fn writes_all_or_only_the_first_bytes(rt: HostRuntime) -> Result<(), Fail> {
    for (room, step, fails, written) in [
        (100, 3, 99, "capsule"),
        (7, 64, 99, "capsule"),
        (100, 3, 2, "cap"),
        (100, 64, 1, ""),
        (5, 2, 99, "capsu"),
    ] {
        let mut sink = MemSink::new(rt.alloc(), room, step, &[fails])?;
        let whole = write_all(&mut sink, b"capsule").is_ok();
        assert_eq!(rt;
            sink.written(),
            written.as_bytes(),
            "room {room}, steps of {step}"
        );
        assert_eq!(rt; whole, written == "capsule", "room {room}, steps of {step}");
    }
    Ok(())
}

#[test]
fn readers_and_writers_of_std_are_sources_and_sinks(rt: HostRuntime) -> Result<(), Fail> {
    let mut source = StdSource::new(Cursor::new(b"open".as_slice()));
    let bytes = read_all(rt.alloc(), &mut source, 100)?;
    assert_eq!(rt; &bytes[..], b"open".as_slice());
    let mut buf = [0u8; 2];
    let mut sink = StdSink::new(buf.as_mut_slice());
    assert_eq!(rt; sink.write(b"update").is_ok(), true);
    assert_eq!(rt; sink.write(b"date").is_err(), true, "no room is a fault");
    Ok(())
}

/// A call on a queue.
#[derive(Clone, Copy, Debug)]
enum Step {
    Extend(&'static str),
    DropFront(usize),
    Truncate(usize),
}

use Step::{DropFront, Extend, Truncate};

/// Makes a step. If memory runs out, as under `rt try --test --fail-alloc`, the queue hasn't changed and takes the
/// bytes at the next call.
fn make(rt: &impl Abort, queue: &mut ByteQueue, before: &str, step: Step) -> Result<(), NoMemory> {
    match step {
        Extend(more) => {
            if queue.extend(more.as_bytes()).is_err() {
                assert_eq!(rt; queue.as_slice(), before.as_bytes());
                queue.extend(more.as_bytes())?;
            }
        }
        DropFront(count) => {
            assert!(rt; count <= queue.len());
            queue.drop_front(count);
        }
        Truncate(len) => {
            assert!(rt; len <= queue.len());
            queue.truncate(len);
        }
    }
    Ok(())
}

/// Steps that start from the queue "abcdefgh", each with the bytes of the queue after it.
#[test]
fn bytes_are_added_at_the_back_and_dropped_at_the_front(rt: HostRuntime) -> Result<(), Fail> {
    let mut queue = ByteQueue::from_octets(Octets::from_slice(rt.alloc(), b"abcdefgh")?);
    let mut before = "abcdefgh";
    for (step, after) in [
        // the part that was dropped is shorter than the rest, which stays where it is
        (DropFront(3), "defgh"),
        (DropFront(0), "defgh"),
        (Extend("ijk"), "defghijk"),
        (Truncate(7), "defghij"),
        // the dropped part is as long as the rest, which moves to the front
        (DropFront(2), "fghij"),
        (Extend("klm"), "fghijklm"),
        // the dropped part is longer
        (DropFront(6), "lm"),
        (Extend("nop"), "lmnop"),
        // all bytes are dropped
        (DropFront(5), ""),
        (Extend("qrstu"), "qrstu"),
        // all bytes after a dropped part are removed
        (DropFront(2), "stu"),
        (Truncate(0), ""),
        (Extend("vwx"), "vwx"),
        (DropFront(1), "wx"),
    ] {
        make(&rt, &mut queue, before, step)?;
        assert_eq!(rt; queue.as_slice(), after.as_bytes(), "{step:?} of {before}");
        assert_eq!(rt; queue.len(), after.len(), "{step:?} of {before}");
        before = after;
    }
    let like = ByteQueue::new(queue.allocator());
    assert_eq!(rt; like.len(), 0);
    assert_eq!(rt; &queue.into_octets()[..], b"wx".as_slice());
    Ok(())
}

#[test]
fn lists_names_and_words_keep_their_values(rt: HostRuntime) -> Result<(), Fail> {
    let alloc = rt.alloc();
    let mut octets = Octets::from_slice(alloc, &[1, 2])?;
    octets.push(3)?;
    octets.extend(&[4])?;
    let copy = octets.copy()?;
    assert_eq!(rt; copy == octets, true);
    assert_eq!(rt; copy == Items::one(alloc, 1)?, false);
    assert_eq!(rt;
        (copy.get(3).copied(), copy.get(4).copied()),
        (Some(4), None)
    );
    let mut seen = Octets::new(alloc);
    for octet in &copy {
        seen.push(*octet)?;
    }
    assert_eq!(rt;
        Items::from_vec(seen.into_vec()).as_slice(),
        [1, 2, 3, 4].as_slice()
    );
    let mut name = Name::from_text(alloc, "router")?;
    name.push_str("[0]")?;
    assert_eq!(rt; name.copy()?.as_str(), "router[0]");
    let mut words = Words::new(alloc);
    assert_eq!(rt; words.is_empty(), true);
    words.push("run")?;
    words.push("make")?;
    assert!(rt; words.len() == 2);
    assert_eq!(rt; words.get(1), "make");
    FreeGate.pass(0);
    Ok(())
}
