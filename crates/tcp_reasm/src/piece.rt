//! Pieces of a stream that stand ahead of the offset expected next.

ghost use Rattle.std.specs.Prelude.{ℕ, ◌≡◌, ◌<◌, ◌≤◌, ◌+◌, ◌-◌, ◌^◌, ◌++◌, length, take, drop, None, true, is_some, vec_len, vec_capacity, IfOk, OnOk, OnErr};
ghost use Rattle.std.specs.Option.{option_or};
ghost use Rattle.tcp_reasm.specs.Runs.{AreRuns, held};
ghost use Rattle.tcp_seq.specs.Endpoint.{byte_from};
ghost use Rattle.tcp_reasm.specs.Steps.{passed, begun_below, run_between, runs_outside as runs_outside_lem, where_none, in_order, piece_bytes, lowered};

use graft_edge::{NoMemory, Octets};
use std::alloc::{AllocError, Global};
use tcp_seq::Piece;

/// The number of offsets that are kept, from the one expected next on.
pub const WINDOW: u32 = 16_384;

/// Returns how many of the first pieces end at or below an offset.
fn passed_count(pieces: &[Piece], offset: usize) -> usize
    requires { AreRuns 0 pieces.now }
    ensures count { result ≡ passed offset pieces.now }
    ensures within { result ≤ length pieces.now }
{
    pieces.partition_point(|piece| piece.end() <= offset)
}

/// Returns how many of the first pieces begin below an offset.
fn begun_count(pieces: &[Piece], offset: usize) -> usize
    requires { AreRuns 0 pieces.now }
    ensures count { result ≡ begun_below offset pieces.now }
    ensures within { result ≤ length pieces.now }
{
    pieces.partition_point(|piece| (piece.offset as usize) < offset)
}

/// Returns the bytes from one index up to another, as far as there are any.
pub fn part(bytes: &[u8], from: usize, to: usize) -> &[u8]
    ensures { result.now ≡ take (to - from) (drop from bytes.now) }
{
    let from = from.min(bytes.len());
    let to = to.min(bytes.len()).max(from);
    &bytes[from..to]
}

/// Adds the bytes from offset `at` up to `to` as a piece, if there are any; `bytes` begin at `offset`.
fn add_run(
    runs: &mut Vec<Piece>,
    offset: usize,
    bytes: &[u8],
    at: usize,
    to: usize,
) -> Result<(), NoMemory>
    requires from { offset ≤ at }
    requires fits { to < 2 ^ 32 }
    ensures { OnOk result (runs.new.items ≡ runs.old.items ++ run_between offset bytes.now at to) }
{
    if at >= to {
        return Ok(());
    }
    let bytes = part(bytes, at - offset, to - offset);
    let bytes = Octets::from_slice(*runs.allocator(), bytes)?;
    let offset = at as u32;
    Ok(runs.push(Piece { offset, bytes })?)
}

/// Returns the runs of bytes from an offset on that lie between pieces and behind them.
fn runs_outside(
    alloc: Global,
    pieces: &[Piece],
    offset: u32,
    bytes: &[u8],
) -> Result<Vec<Piece>, NoMemory>
    requires { offset + length bytes.now ≤ 16384 }
    ensures { IfOk result (λ runs. runs.items ≡ runs_outside_lem offset bytes.now offset pieces.now) }
{
    let offset = offset as usize;
    let mut runs = Vec::new(alloc);
    let mut at = offset;
    for piece in pieces {
        add_run(&mut runs, offset, bytes, at, piece.offset as usize)?;
        at = at.max(piece.end());
    }
    add_run(&mut runs, offset, bytes, at, offset + bytes.len())?;
    Ok(runs)
}

/// Returns the bytes from an offset on whose offsets no piece has, each run of them as one piece.
fn missing(
    alloc: Global,
    pieces: &[Piece],
    offset: u32,
    bytes: &[u8],
) -> Result<Vec<Piece>, NoMemory>
    requires within { offset + length bytes.now ≤ 16384 }
    requires runs { AreRuns 0 pieces.now }
    ensures runs { IfOk result (λ runs. AreRuns 0 runs.items) }
    ensures bytes { IfOk result (λ runs. (k : ℕ) → held runs.items k ≡ where_none (held pieces.now k) (byte_from offset bytes.now k)) }
{
    let rest = &pieces[passed_count(pieces, offset as usize)..];
    let near = &rest[..begun_count(rest, offset as usize + bytes.len())];
    runs_outside(alloc, near, offset, bytes)
}

/// Inserts a piece among others, none of which it overlaps. There has to be room for it.
fn insert_one(pieces: &mut Vec<Piece>, piece: Piece)
    requires room { vec_len pieces.old < vec_capacity pieces.old }
    requires runs { AreRuns 0 pieces.old.items }
    requires some { 0 < length piece.bytes }
    requires within { piece.offset + length piece.bytes ≤ 16384 }
    requires free { (k : ℕ) → is_some (byte_from piece.offset piece.bytes k) ≡ true → held pieces.old.items k ≡ None }
    ensures runs { AreRuns 0 pieces.new.items }
    ensures bytes { (k : ℕ) → held pieces.new.items k ≡ option_or (held pieces.old.items k) (byte_from piece.offset piece.bytes k) }
    ensures len { vec_len pieces.new ≡ vec_len pieces.old + 1 }
    ensures capacity { vec_capacity pieces.old ≤ vec_capacity pieces.new }
{
    let index = begun_count(pieces.as_slice(), piece.offset as usize);
    // there is room, so this takes no memory and succeeds
    let _ = pieces.insert(index, piece);
}

/// Inserts pieces among others, none of which they overlap. There has to be room for them.
fn insert_all(pieces: &mut Vec<Piece>, mut more: Vec<Piece>)
    requires room { vec_len pieces.old + vec_len more ≤ vec_capacity pieces.old }
    requires runs { AreRuns 0 pieces.old.items }
    requires more { AreRuns 0 more.items }
    requires free { (k : ℕ) → is_some (held more.items k) ≡ true → held pieces.old.items k ≡ None }
    ensures runs { AreRuns 0 pieces.new.items }
    ensures bytes { (k : ℕ) → held pieces.new.items k ≡ option_or (held pieces.old.items k) (held more.items k) }
{
    while let Some(piece) = more.pop() {
        insert_one(pieces, piece);
    }
}

/// Inserts bytes from an offset on among the pieces. An offset that has a byte keeps it. If memory runs
/// out, nothing changes.
pub(crate) fn insert(pieces: &mut Vec<Piece>, offset: u32, bytes: &[u8]) -> Result<(), NoMemory>
    requires within { offset + length bytes.now ≤ 16384 }
    requires runs { AreRuns 0 pieces.old.items }
    ensures ok { OnOk result ((k : ℕ) → held pieces.new.items k ≡ option_or (held pieces.old.items k) (byte_from offset bytes.now k)) }
    ensures runs { AreRuns 0 pieces.new.items }
    ensures err { OnErr result (pieces.new.items ≡ pieces.old.items) }
{
    let runs = missing(*pieces.allocator(), pieces.as_slice(), offset, bytes)?;
    // nothing is inserted before there is memory for all
    pieces.reserve(runs.len())?;
    insert_all(pieces, runs);
    Ok(())
}

/// Returns how many of the first pieces follow one another without a gap from the offset that they are
/// counted from, and how many bytes they have.
pub(crate) fn ready(pieces: &[Piece]) -> (usize, usize)
    requires { AreRuns 0 pieces.now }
    ensures count { result.0 ≡ in_order 0 pieces.now }
    ensures within { result.0 ≤ length pieces.now }
    ensures bytes { result.1 ≡ length (piece_bytes (take result.0 pieces.now)) }
    ensures fits { result.1 ≤ 16384 }
{
    let mut count = 0;
    let mut end = 0;
    while count < pieces.len() && pieces[count].offset as usize == end {
        end = pieces[count].end();
        count += 1;
    }
    (count, end)
}

/// Appends the bytes of pieces, which are `len` bytes in all. If memory runs out, nothing is appended.
fn extend_all(out: &mut Vec<u8>, pieces: &[Piece], len: usize) -> Result<(), AllocError>
    requires { len ≡ length (piece_bytes pieces.now) }
    ensures ok { OnOk result (out.new.items ≡ out.old.items ++ piece_bytes pieces.now) }
    ensures err { OnErr result (out.new.items ≡ out.old.items) }
{
    out.reserve(len)?;
    for piece in pieces {
        // there is room, so this takes no memory and succeeds
        let _ = out.extend_from_slice(piece.bytes.as_slice());
    }
    Ok(())
}

/// Appends the bytes of pieces, which are `len` bytes in all. If memory runs out, nothing is appended.
pub(crate) fn append(
    alloc: Global,
    out: &mut Octets,
    pieces: &[Piece],
    len: usize,
) -> Result<(), NoMemory>
    requires { len ≡ length (piece_bytes pieces.now) }
    ensures ok { OnOk result (out.new ≡ out.old ++ piece_bytes pieces.now) }
    ensures err { OnErr result (out.new ≡ out.old) }
{
    let mut bytes = std::mem::replace(out, Octets::new(alloc)).into_vec();
    let appended = extend_all(&mut bytes, pieces, len);
    *out = Octets::from_vec(bytes);
    Ok(appended?)
}

/// Lowers the offsets of pieces by `by`, so that they are counted from a later offset.
fn lower(pieces: &mut Vec<Piece>, by: u32)
    ensures { pieces.new.items ≡ lowered by pieces.old.items }
{
    for piece in pieces.iter_mut() {
        piece.offset = piece.offset.saturating_sub(by);
    }
}

/// Removes the first `count` pieces, of which there have to be as many. It allocates nothing, and each
/// of the others moves once.
pub fn remove_front(pieces: &mut Vec<Piece>, count: usize)
    requires { count ≤ length pieces.old.items }
    ensures { pieces.new.items ≡ drop count pieces.old.items }
{
    let left = pieces.len() - count;
    for index in 0..left {
        pieces.swap(index, index + count);
    }
    pieces.truncate(left);
}

/// Removes the first `count` pieces, and lowers the offsets of the others by `by`.
pub(crate) fn remove_first(pieces: &mut Vec<Piece>, count: usize, by: u32)
    requires { count ≤ length pieces.old.items }
    ensures { pieces.new.items ≡ lowered by (drop count pieces.old.items) }
{
    remove_front(pieces, count);
    lower(pieces, by);
}
