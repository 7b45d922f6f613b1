//! Reassembly of a stream.

ghost use Rattle.std.specs.Prelude.{ℕ, ◌≡◌, ◌<◌, ◌≤◌, ◌+◌, ◌^◌, [], length, IfOk, OnOk, OnErr};
ghost use Rattle.tcp_reasm.specs.Runs.{AreRuns};
ghost use Rattle.tcp_seq.specs.Endpoint.{byte_from};
ghost use Rattle.tcp_reasm.specs.Reassembly.{Puts, TakesReady, brought};

use crate::piece::{WINDOW, append, insert, ready, remove_first};
use graft_edge::{Items, NoMemory, Octets};
use std::alloc::Global;
use std::marker::Model;
use tcp_seq::{Piece, Pieces, Seq};

/// The bytes of a stream that arrived and weren't given out yet, in the window of 16,384 bytes from
/// the one expected next on. Contracts see the number expected next and the pieces in the window, each
/// with its offset counted from the one expected next. The pieces are in ascending order, none overlaps
/// another, and none is empty.
#[derive(Debug, Drop)]
pub struct Reasm {
    next: Seq,
    pieces: Vec<Piece>,
}

impl Model for Reasm {
    ghost use Rattle.tcp_reasm.specs.Reassembly.{Reassembly};
    ghost use Rattle.tcp_reasm.specs.Runs.{AreRuns};

    ghost Value = { Reassembly };

    ghost view = { λ r. record { next = r.next.0; pieces = r.pieces.items } };

    ghost invariant = { λ r. AreRuns 0 r.pieces.items };
}

/// Returns the part of the bytes from a sequence number on, at most 65,535, that is in the window of
/// 16,384 bytes from `next` on, with its offset counted from there.
pub fn in_window(next: Seq, seq: Seq, bytes: &[u8]) -> (u32, &[u8])
    requires { length bytes.now < 2 ^ 16 }
    ensures within { result.0 + length result.1.now ≤ 16384 }
    ensures bytes { (k : ℕ) → byte_from result.0 result.1.now k ≡ brought next.0 seq.0 bytes.now k }
{
    let ahead = seq.offset_from(next);
    if ahead < WINDOW {
        let room = (WINDOW - ahead) as usize;
        return (ahead, &bytes[..bytes.len().min(room)]);
    }
    let behind = (next.offset_from(seq) as usize).min(bytes.len());
    let rest = &bytes[behind..];
    (0, &rest[..rest.len().min(WINDOW as usize)])
}

impl Reasm {
    /// Returns a reassembly to which nothing arrived yet. `first` is the number of the stream's first
    /// byte.
    pub fn new(alloc: Global, first: Seq) -> Reasm
        ensures { result ≡ record { next = first.0; pieces = [] } }
    {
        Reasm {
            next: first,
            pieces: Vec::new(alloc),
        }
    }

    /// Returns the sequence number expected next.
    pub fn next(&self) -> Seq
        ensures { result.0 ≡ self.now.next }
    {
        self.next
    }

    /// Keeps those bytes from a sequence number on that are in the window: from the offset expected next
    /// up to, and not including, the 16,384th after it. An offset that has a byte keeps it. `bytes` has
    /// at most 65,535 bytes. If memory runs out, nothing changes.
    pub fn put(&mut self, seq: Seq, bytes: &[u8]) -> Result<(), NoMemory>
        requires { length bytes.now < 2 ^ 16 }
        ensures ok { OnOk result (Puts self.old self.new seq.0 bytes.now) }
        ensures err { OnErr result (self.new ≡ self.old) }
        ensures runs { AreRuns 0 self.new.pieces }
    {
        let (offset, kept) = in_window(self.next, seq, bytes);
        insert(&mut self.pieces, offset, kept)
    }

    /// Appends to `out` all bytes that are in order from the number expected next, and expects the
    /// number after them. Returns how many bytes it appended. If memory runs out, nothing changes.
    pub fn take_ready(&mut self, out: &mut Octets) -> Result<usize, NoMemory>
        ensures ok { IfOk result (λ n. TakesReady self.old self.new out.old out.new n) }
        ensures err { OnErr result (self.new ≡ self.old) }
        ensures none { OnErr result (out.new ≡ out.old) }
        ensures runs { AreRuns 0 self.new.pieces }
    {
        let (count, len) = ready(self.pieces.as_slice());
        append(*self.pieces.allocator(), out, &self.pieces[..count], len)?;
        remove_first(&mut self.pieces, count, len as u32);
        self.next = self.next.plus(len as u32);
        Ok(len)
    }

    /// Returns the pieces that stand ahead of the number expected next, each with its offset counted
    /// from there.
    pub fn pieces(&self) -> &[Piece]
        ensures pieces { result.now ≡ self.now.pieces }
        ensures runs { AreRuns 0 result.now }
    {
        self.pieces.as_slice()
    }

    /// Returns the pieces by value, as `pieces` gives them. It allocates nothing.
    pub fn into_pieces(self) -> Pieces
        ensures pieces { result ≡ self.pieces }
        ensures runs { AreRuns 0 result }
    {
        let Reasm { next: _, pieces } = self;
        Items::from_vec(pieces)
    }

    /// Returns a reassembly that expects this number next and has these pieces, each with its offset
    /// counted from there. They have to be in ascending order, none overlaps another or is empty, and
    /// each ends in the window of 16,384 bytes. It allocates nothing.
    pub fn from_pieces(next: Seq, pieces: Pieces) -> Reasm
        requires { AreRuns 0 pieces }
        ensures { result ≡ record { next = next.0; pieces = pieces } }
    {
        Reasm {
            next,
            pieces: pieces.into_vec(),
        }
    }
}
