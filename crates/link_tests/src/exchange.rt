//! Two ends over a link that loses, repeats and reorders what it is given.

use crate::ends::{moved, stream, take, two_ends};
use graft_edge::{NoMemory, TryCopy};
use row_harness::Random;
use std::alloc::Global;
use std::process::Abort;
use std::test::Fail;
use tcp_end::End;
use tcp_seq::Segment;

/// The length of each stream.
const LENGTH: u32 = 100_000;

/// One side: its end, how much of the other side's stream it read, and the segments that it sent and that are still on
/// the link.
#[derive(Drop)]
struct Side {
    end: End,
    read: u32,
    link: Vec<Segment>,
}

/// Puts a segment on the link: it is lost, put twice, or put once. A full link loses everything.
fn put(link: &mut Vec<Segment>, segment: Segment, random: &mut Random) -> Result<(), NoMemory> {
    match random.below(8) {
        _ if link.len() > 40 => {}
        0 => {}
        1 => {
            link.push(segment.copy()?)?;
            link.push(segment)?;
        }
        _ => link.push(segment)?,
    }
    Ok(())
}

/// Puts a segment, if there is one.
fn put_any(
    link: &mut Vec<Segment>,
    segment: Option<Segment>,
    random: &mut Random,
) -> Result<(), NoMemory> {
    match segment {
        Some(segment) => put(link, segment, random),
        None => Ok(()),
    }
}

/// Sends the first outstanding bytes again.
fn emit_again(side: &mut Side, random: &mut Random) -> Result<(), NoMemory> {
    let again = side.end.turn()?;
    put_any(&mut side.link, again, random)
}

/// Sends the next slice.
fn emit_next(side: &mut Side, random: &mut Random) -> Result<(), NoMemory> {
    let next = side.end.next_segment()?;
    put_any(&mut side.link, next, random)
}

/// Sends the acknowledgement that is owed.
fn emit_answer(side: &mut Side, random: &mut Random) -> Result<(), NoMemory> {
    let answer = side.end.answer();
    put_any(&mut side.link, answer, random)
}

/// Sends one of the segments that a side may send.
fn emit_one(side: &mut Side, random: &mut Random) -> Result<(), NoMemory> {
    match random.below(8) {
        0 => emit_again(side, random),
        1 => emit_answer(side, random),
        _ => emit_next(side, random),
    }
}

/// Sends what a side sends in a turn.
fn emit(side: &mut Side, random: &mut Random) -> Result<(), NoMemory> {
    for _ in 0..6 {
        emit_one(side, random)?;
    }
    Ok(())
}

/// Removes a segment that arrived from the link. One in sixteen stays.
fn remove(link: &mut Vec<Segment>, offset: usize, random: &mut Random) {
    if random.below(16) > 0 && offset < link.len() {
        link.remove(offset);
    }
}

/// Lets one of the first segments on a link arrive.
fn deliver_one(
    rt: &impl Abort,
    link: &mut Vec<Segment>,
    end: &mut End,
    random: &mut Random,
) -> Result<(), NoMemory> {
    let offset = random.below(link.len().min(8) as u32) as usize;
    match link.get(offset) {
        Some(segment) => {
            take(rt, end, segment)?;
        }
        None => return Ok(()),
    }
    remove(link, offset, random);
    Ok(())
}

/// Lets some of the segments on a link arrive, in any order.
fn deliver(
    rt: &impl Abort,
    link: &mut Vec<Segment>,
    end: &mut End,
    random: &mut Random,
) -> Result<(), NoMemory> {
    for _ in 0..8 {
        deliver_one(rt, link, end, random)?;
    }
    Ok(())
}

/// Reads what is ready, and checks that it comes next in the other side's stream.
fn read(rt: &impl Abort, side: &mut Side, theirs: &[u8]) {
    let count = side.end.ready().len();
    let from = side.read as usize;
    let next = theirs.get(from..).unwrap_or(&[]);
    assert!(rt; next.starts_with(side.end.ready()));
    side.end.read(count);
    side.read = side.read.wrapping_add((count % (1 << 32)) as u32);
}

fn sending(alloc: Global, end: End, bytes: &[u8]) -> Result<Side, Fail> {
    let mut end = end;
    end.send(bytes)?;
    Ok(Side {
        end,
        read: 0,
        link: Vec::new(alloc),
    })
}

/// Returns a side unchanged, or with its end handed off.
fn handed_over(rt: &impl Abort, side: Side, moves: bool) -> Side {
    if !moves {
        return side;
    }
    let Side { end, read, link } = side;
    Side {
        end: moved(rt, end),
        read,
        link,
    }
}

/// Returns whether all of a side's stream was acknowledged, and all of the other one was read.
fn is_through(side: &Side) -> bool {
    side.end.acked() == LENGTH && side.read == LENGTH
}

/// Both sides send, and some of what is on the links arrives and is read.
fn step(
    rt: &impl Abort,
    far: &mut Side,
    near: &mut Side,
    random: &mut Random,
) -> Result<(), NoMemory> {
    emit(far, random)?;
    emit(near, random)?;
    deliver(rt, &mut far.link, &mut near.end, random)?;
    deliver(rt, &mut near.link, &mut far.end, random)
}

/// Both streams get through. The sequence numbers of one of them wrap around on the way.
fn go_through(
    rt: &(impl Abort + AllocGlobal),
    seed: u32,
    there: &[u8],
    back: &[u8],
) -> Result<(), Fail> {
    let mut random = Random::new(seed);
    let (remote, home) = two_ends(rt.alloc(), 4_294_930_000, random.below(4_294_967_295))?;
    let mut far = sending(rt.alloc(), remote, there)?;
    let mut near = sending(rt.alloc(), home, back)?;
    for count in 0..10_000u32 {
        if is_through(&far) && is_through(&near) {
            return Ok(());
        }
        step(rt, &mut far, &mut near, &mut random)?;
        read(rt, &mut far, back);
        read(rt, &mut near, there);
        far = handed_over(rt, far, count % 20 == 0);
        near = handed_over(rt, near, count % 20 == 10);
    }
    Err(Fail::from("the streams aren't through"))
}

#[test]
fn streams_go_through_losses_repeats_and_hand_overs(rt: HostRuntime) -> Result<(), Fail> {
    let there = stream(rt.alloc(), 0, LENGTH, 1)?;
    let back = stream(rt.alloc(), 0, LENGTH, 2)?;
    for seed in 0..20 {
        go_through(&rt, seed, there.as_slice(), back.as_slice())?;
    }
    Ok(())
}
