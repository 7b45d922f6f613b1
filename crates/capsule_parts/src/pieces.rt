//! Bytes ahead of a hole, as pieces.

ghost use Rattle.std.specs.Prelude.{ℕ, ◌≡◌, ◌<◌, ◌+◌, ◌++◌, length, MatchBool, IfOk, OnOk};
ghost use Rattle.tcp_end.specs.State.{LieFrom};
ghost use Rattle.tcp_end.specs.Whole.{numbered_from, numbered_in};
ghost use Rattle.capsule_parts.specs.Sound.{IsPieceAbove, LieAbove};

use bgp_types::{Items, NoMemory, TryCopy};
use std::alloc::Global;
use tcp_seq::{Piece, Pieces};

/// Adds a piece. Its bytes are added to the last piece if they follow that.
fn add_piece(pieces: &mut Vec<Piece>, piece: &Piece) -> Result<(), NoMemory>
    ensures bytes { OnOk result (numbered_in pieces.new.items ≡ numbered_in pieces.old.items ++ numbered_from piece.now.offset piece.now.bytes) }
    ensures apart { OnOk result ((below : ℕ) → LieAbove below piece.now.offset pieces.old.items → below < piece.now.offset → 0 < length piece.now.bytes
        → LieAbove below (piece.now.offset + length piece.now.bytes) pieces.new.items) }
{
    let Some(mut last) = pieces.pop() else {
        return Ok(pieces.push(piece.copy()?)?);
    };
    let follows = last.end() == piece.offset as usize;
    if follows {
        last.bytes.extend(piece.bytes.as_slice())?;
        return Ok(pieces.push(last)?);
    }
    pieces.push(last)?;
    Ok(pieces.push(piece.copy()?)?)
}

/// Returns the same bytes in as few pieces as possible.
pub(crate) fn joined(alloc: Global, pieces: &[Piece]) -> Result<Pieces, NoMemory>
    ensures bytes { IfOk result (λ joined. numbered_in joined ≡ numbered_in pieces.now) }
    ensures apart { IfOk result (λ joined. (below high : ℕ) → LieFrom (below + 1) high pieces.now → LieAbove below high joined) }
{
    let mut joined = Vec::new(alloc);
    for piece in pieces.iter() {
        add_piece(&mut joined, piece)?;
    }
    Ok(Items::from_vec(joined))
}

/// Returns whether a piece has bytes, begins above an offset, and ends at or below another offset.
fn is_above(piece: &Piece, below: usize, high: usize) -> bool
    ensures { MatchBool result (IsPieceAbove below high piece.now) (¬ IsPieceAbove below high piece.now) }
{
    piece.offset as usize > below && !piece.bytes.is_empty() && piece.end() <= high
}

/// Returns whether each piece has bytes, and lies above an offset and above the end of the piece before it, and whether
/// all end at or below another offset.
pub(crate) fn lie_above(pieces: &[Piece], below: usize, high: usize) -> bool
    ensures { MatchBool result (LieAbove below high pieces.now) (¬ LieAbove below high pieces.now) }
{
    let mut end = below;
    for piece in pieces.iter() {
        if !is_above(piece, end, high) {
            return false;
        }
        end = piece.end();
    }
    true
}
