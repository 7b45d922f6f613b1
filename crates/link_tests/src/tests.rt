use graft_edge::{Items, NoMemory, Octets, PeeringId, TryCopy};
use link_bag::{Bag, Fate, Fault, FaultKind, Plan};
use std::alloc::Global;
use std::process::Abort;
use std::test::Fail;
use tcp_reasm::Reasm;
use tcp_seq::{AckKind, Segment, Seq, Way, acceptable, ack_kind};

/// The sequence number five before 0.
const BEFORE_END: u32 = 4_294_967_291;

const LAST: u32 = 4_294_967_295;

/// Rows of a number, a distance, and the number at that distance (RFC 9293, section 3.4).
#[test]
fn numbers_wrap_around(rt: HostRuntime) {
    for (first, n, then) in [
        (100, 16_384, 16_484),
        (BEFORE_END, 4, LAST),
        (BEFORE_END, 5, 0),
        (BEFORE_END, 28, 23),
        (LAST, LAST, 4_294_967_294),
    ] {
        assert_eq!(rt; Seq(first).plus(n), Seq(then), "{first} + {n}");
        assert_eq!(rt; Seq(then).offset_from(Seq(first)), n, "{then} from {first}");
    }
}

/// Rows of the number expected next, the window, a segment's number and length, and whether it is
/// acceptable, by the four cases of RFC 9293, section 3.10.7.4. The first window has 100 to 16,483.
#[test]
fn segments_are_acceptable_in_the_window(rt: HostRuntime) {
    for (next, window, seq, len, want) in [
        (100, 16_384, 99, 0, false),
        (100, 16_384, 100, 0, true),
        (100, 16_384, 16_483, 0, true),
        (100, 16_384, 16_484, 0, false),
        (100, 16_384, 99, 1, false),
        (100, 16_384, 99, 2, true),
        (100, 16_384, LAST, 101, false),
        (100, 16_384, LAST, 102, true),
        (100, 16_384, 16_483, 1_024, true),
        (100, 16_384, 16_484, 1_024, false),
        // it covers the whole window, and neither its first nor its last byte is in it
        (100, 16_384, 99, 16_386, false),
        // a closed window
        (100, 0, 100, 0, true),
        (100, 0, 101, 0, false),
        (100, 0, 100, 1, false),
        (100, 0, 99, 2, false),
        // the window wraps around: it ends with 16,378
        (BEFORE_END, 16_384, 4_294_967_290, 0, false),
        (BEFORE_END, 16_384, 0, 0, true),
        (BEFORE_END, 16_384, 16_378, 1_024, true),
        (BEFORE_END, 16_384, 16_379, 1, false),
        (BEFORE_END, 16_384, 4_294_967_290, 1, false),
        (BEFORE_END, 16_384, 4_294_967_290, 2, true),
    ] {
        let answer = acceptable(Seq(next), window, Seq(seq), len);
        assert_eq!(rt;
            answer,
            want,
            "{len} bytes at {seq}, in {window} from {next}"
        );
    }
}

/// Rows of the oldest unacknowledged number, the number that is sent next, an acknowledgement and what it
/// says (RFC 9293, section 3.4).
#[test]
fn acknowledgements_are_new_old_or_beyond(rt: HostRuntime) {
    use AckKind::{Beyond, New, Old};
    for (una, nxt, ack, want) in [
        (100, 200, 99, Old),
        (100, 200, 100, Old),
        (100, 200, 101, New),
        (100, 200, 200, New),
        (100, 200, 201, Beyond),
        // the older numbers begin 2^31 further on
        (100, 200, 2_147_483_747, Beyond),
        (100, 200, 2_147_483_748, Old),
        (100, 100, 101, Beyond),
        (0, 1_048_576, 1_048_576, New),
        (BEFORE_END, 23, 4_294_967_290, Old),
        (BEFORE_END, 23, 0, New),
        (BEFORE_END, 23, 23, New),
        (BEFORE_END, 23, 24, Beyond),
    ] {
        assert!(rt; Seq(nxt).offset_from(Seq(una)) <= 1 << 20);
        let kind = ack_kind(Seq(una), Seq(nxt), Seq(ack));
        assert_eq!(rt; kind, want, "{ack} from {una} to {nxt}");
    }
}

/// Puts bytes from a number on, and checks how many are ready after that.
fn put(
    rt: &impl Abort,
    reasm: &mut Reasm,
    out: &mut Octets,
    seq: u32,
    bytes: &[u8],
    ready: usize,
) -> Result<(), NoMemory> {
    assert!(rt; bytes.len() < 65_536);
    reasm.put(Seq(seq), bytes)?;
    assert_eq!(rt; reasm.take_ready(out)?, ready, "after {seq}");
    Ok(())
}

/// An offset keeps its first byte: the last put brings A to I for 4,294,967,294 to 6, where "cd" and "gh" were already
/// present. The window ends with 16,381.
#[test]
fn reassembly_keeps_the_first_byte_of_an_offset(rt: HostRuntime) -> Result<(), Fail> {
    let mut reasm = Reasm::new(rt.alloc(), Seq(4_294_967_294));
    let mut out = Octets::new(rt.alloc());
    put(&rt, &mut reasm, &mut out, 0, b"cd", 0)?;
    put(&rt, &mut reasm, &mut out, 4, b"gh", 0)?;
    put(&rt, &mut reasm, &mut out, 16_382, b"x", 0)?;
    put(&rt, &mut reasm, &mut out, 16_380, b"yzx", 0)?;
    put(&rt, &mut reasm, &mut out, 4_294_967_293, b"-ABCDEFGHI", 9)?;
    assert_eq!(rt; &out[..], b"ABcdEFghI".as_slice());
    assert_eq!(rt; reasm.next(), Seq(7));
    Ok(())
}

/// The pieces ahead of a hole, counted from the number expected next, make the same reassembly again.
#[test]
fn pieces_are_taken_out_and_put_back(rt: HostRuntime) -> Result<(), Fail> {
    let mut reasm = Reasm::new(rt.alloc(), Seq(100));
    let mut out = Octets::new(rt.alloc());
    put(&rt, &mut reasm, &mut out, 16_482, b"yzx", 0)?;
    put(&rt, &mut reasm, &mut out, 100, b"a", 1)?;
    let pieces = reasm.into_pieces();
    for piece in &pieces {
        assert_eq!(rt; piece.offset, 16_381);
        assert_eq!(rt; &piece.bytes[..], b"yz".as_slice());
    }
    let reasm = Reasm::from_pieces(Seq(101), pieces);
    assert_eq!(rt; reasm.pieces().len(), 1);
    Ok(())
}

/// Returns a segment that is identified by its number.
fn numbered(alloc: Global, number: u32) -> Result<Segment, NoMemory> {
    Ok(Segment {
        peering: PeeringId(3),
        way: Way::Home,
        seq: Seq(number),
        ack: Seq(23),
        window: 16_384,
        bytes: Items::from_slice(alloc, b"bytes")?,
    })
}

#[test]
fn a_bag_keeps_the_order_of_putting(rt: HostRuntime) -> Result<(), Fail> {
    let mut bag = Bag::new(rt.alloc());
    assert!(rt; bag.is_empty());
    for number in [10, 20, 30] {
        assert!(rt; bag.put(numbered(rt.alloc(), number)?).is_ok());
    }
    assert!(rt; bag.len() == 3);
    assert_eq!(rt; bag.deliver(2)?.seq, Seq(30));
    assert_eq!(rt; bag.remove(1).seq, Seq(20));
    assert!(rt; bag.len() == 2);
    assert_eq!(rt; bag.deliver(1)?.seq, Seq(30));
    Ok(())
}

/// Rows of a segment's peering, side and number, and its fate. Of two faults of one segment the first
/// counts.
#[test]
fn each_fault_has_its_fate_and_all_else_passes(rt: HostRuntime) -> Result<(), NoMemory> {
    let fault = |peering: u8, way: Way, segment: u32, kind: FaultKind, after: u32| Fault {
        peering: PeeringId(peering),
        way,
        segment,
        kind,
        after,
    };
    let plan = Plan::new(
        rt.alloc(),
        &[
            fault(0, Way::Remote, 1, FaultKind::Repeat, 3),
            fault(0, Way::Home, 2, FaultKind::Lose, 0),
            fault(0, Way::Home, 3, FaultKind::Hold, 6),
            fault(1, Way::Home, 4, FaultKind::Stray, 5),
            fault(1, Way::Home, 4, FaultKind::Lose, 0),
        ],
    )?;
    for (peering, way, segment, want) in [
        (0, Way::Remote, 1, Fate::Repeat { after: 3 }),
        (0, Way::Home, 2, Fate::Lose),
        (0, Way::Home, 3, Fate::Hold { after: 6 }),
        (1, Way::Home, 4, Fate::Stray { after: 5 }),
        (0, Way::Home, 1, Fate::Pass),
        (0, Way::Home, 4, Fate::Pass),
        (1, Way::Home, 3, Fate::Pass),
    ] {
        let fate = plan.fate(PeeringId(peering), way, segment);
        assert_eq!(rt; fate, want, "segment {segment} of {peering} to {way:?}");
    }
    Ok(())
}
