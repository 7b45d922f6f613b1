//! Receives bytes: those in order become ready, and those ahead of a hole are kept.

ghost use Rattle.std.specs.Prelude.{ℕ, ◌≡◌, ◌<◌, ◌≤◌, ◌+◌, ◌-◌, ◌^◌, ◌++◌, length, take, drop, IfOk, OnOk, OnErr, fold};
ghost use Rattle.std.specs.Bool.{OnTrue, OnFalse};
ghost use Rattle.tcp_seq.specs.Numbers.{plus};
ghost use Rattle.tcp_reasm.specs.Runs.{AreRuns, held};
ghost use Rattle.tcp_seq.specs.Endpoint.{byte_from};
ghost use Rattle.tcp_reasm.specs.Reassembly.{brought};
ghost use Rattle.tcp_end.specs.State.{counted_from, raised};
ghost use Rattle.tcp_end.specs.Filling.{end_from, reached, filled};
ghost use Rattle.tcp_end.specs.Holes.{HasHole, IsCovered};
ghost use Rattle.tcp_end.specs.Receiving.{Received, ReceivesRun};

use graft_edge::{ByteQueue, Items, NoMemory, TryCopy};
use std::alloc::Global;
use std::mem;
use tcp_reasm::{Reasm, in_window, part, remove_front};
use tcp_seq::{Piece, Pieces, Seq};

/// Returns the offset up to which pieces go on from an offset without a gap.
fn end_of_run(pieces: &[Piece], from: usize) -> usize
    ensures { result ≡ fold end_from from pieces.now }
{
    pieces.iter().fold(from, |end, piece| {
        if piece.offset as usize <= end {
            end.max(piece.end())
        } else {
            end
        }
    })
}

/// Whether an offset from `from` up to `to` has no byte.
fn has_hole(pieces: &[Piece], from: usize, to: usize) -> bool
    requires some { from < to }
    requires runs { AreRuns 0 pieces.now }
    ensures hole { OnTrue result (HasHole pieces.now from to) }
    ensures covered { OnFalse result (IsCovered pieces.now from to) }
{
    end_of_run(pieces, from) < to
}

/// Returns how many of the first pieces are reached from an offset on without a gap.
fn reached_count(pieces: &[Piece], from: usize) -> usize
    ensures count { result ≡ reached from pieces.now }
    ensures within { result ≤ length pieces.now }
{
    let mut end = from;
    let mut count = 0;
    while count < pieces.len() && pieces[count].offset as usize <= end {
        end = end.max(pieces[count].end());
        count += 1;
    }
    count
}

/// Adds bytes from the offset expected next on, and those of the pieces that they reach. If memory runs
/// out, some of them may have been added.
fn add_some(ready: &mut ByteQueue, pieces: &[Piece], bytes: &[u8]) -> Result<(), NoMemory>
    ensures ok { OnOk result (ready.new ≡ ready.old ++ filled bytes.now 0 pieces.now) }
    ensures front { take (length ready.old) ready.new ≡ ready.old }
    ensures longer { length ready.old ≤ length ready.new }
{
    let mut at = 0;
    for piece in pieces {
        ready.extend(part(bytes, at, piece.offset as usize))?;
        ready.extend(piece.bytes.as_slice())?;
        at = piece.end();
    }
    ready.extend(part(bytes, at, bytes.len()))
}

/// Adds bytes from the offset expected next on, and those of the pieces that they reach. If memory runs
/// out, nothing changes.
fn add_in_order(ready: &mut ByteQueue, pieces: &[Piece], bytes: &[u8]) -> Result<(), NoMemory>
    ensures ok { OnOk result (ready.new ≡ ready.old ++ filled bytes.now 0 pieces.now) }
    ensures err { OnErr result (ready.new ≡ ready.old) }
{
    let len = ready.len();
    match add_some(ready, pieces, bytes) {
        Ok(()) => Ok(()),
        Err(error) => {
            ready.truncate(len);
            Err(error)
        }
    }
}

/// Returns copies of pieces.
pub(crate) fn copied(alloc: Global, pieces: &[Piece]) -> Result<Vec<Piece>, NoMemory>
    ensures { IfOk result (λ copies. copies.items ≡ pieces.now) }
{
    let mut copies = Vec::with_capacity(alloc, pieces.len())?;
    for piece in pieces.iter() {
        copies.push(piece.copy()?)?;
    }
    Ok(copies)
}

/// Counts the offsets of pieces from offset `base` of the stream, modulo 2^32.
pub(crate) fn count_from(pieces: &mut Vec<Piece>, base: u32)
    ensures { pieces.new.items ≡ counted_from base pieces.old.items }
{
    for piece in pieces.iter_mut() {
        piece.offset = piece.offset.wrapping_sub(base);
    }
}

/// Counts the offsets of pieces from the stream's first byte, modulo 2^32.
pub(crate) fn raise(pieces: &mut Vec<Piece>, base: u32)
    ensures { pieces.new.items ≡ raised base pieces.old.items }
{
    for piece in pieces.iter_mut() {
        piece.offset = piece.offset.wrapping_add(base);
    }
}

/// Removes the first `count` pieces, and expects the offset `by` further on.
fn skipped(ahead: Reasm, count: usize, by: u32) -> Reasm
    requires some { count ≤ length ahead.pieces }
    requires runs { AreRuns (by + 1) (drop count ahead.pieces) }
    ensures next { result.next ≡ plus ahead.next by }
    ensures pieces { result.pieces ≡ counted_from by (drop count ahead.pieces) }
    ensures runs { AreRuns 1 result.pieces }
{
    let next = ahead.next().plus(by);
    let mut pieces = ahead.into_pieces().into_vec();
    remove_front(&mut pieces, count);
    count_from(&mut pieces, by);
    Reasm::from_pieces(next, Items::from_vec(pieces))
}

/// Makes bytes from the offset expected next on ready, and those of the pieces that they reach. If
/// memory runs out, nothing changes.
fn receive_in_order(ready: &mut ByteQueue, ahead: &mut Reasm, bytes: &[u8]) -> Result<(), NoMemory>
    requires len { length bytes.now ≤ 16384 }
    requires runs { AreRuns 1 ahead.old.pieces }
    ensures ok { OnOk result (ReceivesRun ahead.old ahead.new ready.old ready.new bytes.now) }
    ensures runs { AreRuns 1 ahead.new.pieces }
    ensures err { OnErr result (ahead.new ≡ ahead.old) }
    ensures unready { OnErr result (ready.new ≡ ready.old) }
{
    let reached = reached_count(ahead.pieces(), bytes.len());
    let before = ready.len();
    add_in_order(ready, &ahead.pieces()[..reached], bytes)?;
    let count = (ready.len() - before) as u32;
    let nothing = Reasm::new(ready.allocator(), ahead.next());
    *ahead = skipped(mem::replace(ahead, nothing), reached, count);
    Ok(())
}

/// Keeps those of the bytes from a sequence number on that are in the window and whose offsets have no
/// byte yet, and returns whether there is one. If memory runs out, nothing changes.
pub(crate) fn receive(
    ready: &mut ByteQueue,
    ahead: &mut Reasm,
    seq: Seq,
    bytes: &[u8],
) -> Result<bool, NoMemory>
    requires len { length bytes.now < 2 ^ 16 }
    requires runs { AreRuns 1 ahead.old.pieces }
    ensures ok { IfOk result (λ new. Received new ahead.old ahead.new ready.old ready.new seq.0 bytes.now) }
    ensures runs { AreRuns 1 ahead.new.pieces }
    ensures err { OnErr result (ahead.new ≡ ahead.old) }
    ensures unready { OnErr result (ready.new ≡ ready.old) }
{
    let (offset, kept) = in_window(ahead.next(), seq, bytes);
    let from = offset as usize;
    let to = from + kept.len();
    if from == to || !has_hole(ahead.pieces(), from, to) {
        return Ok(false);
    }
    if from == 0 {
        receive_in_order(ready, ahead, kept)?;
    } else {
        ahead.put(seq, bytes)?;
    }
    Ok(true)
}
