//! The lists of a capsule, as they are read.

ghost use Rattle.std.specs.Prelude.{◌≡◌, ◌∷◌, [], ℕ, true, false, nat_lt, IfOk, IfErr, Option, MatchOption, option_copied};
ghost use Rattle.std.specs.Int.{w8, w32, is_in_range};
ghost use Rattle.bgp_types.specs.Prefixes.{PrefixValue};
ghost use Rattle.capsule_bytes.specs.Fields.{any_number, number, counted};
ghost use Rattle.capsule_bytes.specs.Capsules.{is_ahead_of as is_ahead_of_lem, piece_fields, line_fields, side_number};
ghost use Rattle.capsule_bytes.specs.Capsules.{is_above as is_above_lem, is_prefix, prefix_len, attrs_fields, change_fields};
ghost use Rattle.capsule_bytes.specs.Stops.{Passes, Reads, StopsAt};

use crate::cursor::Cursor;
use crate::parts::{PartChange, PartChanges, PartLine, PartLines, Side};
use crate::stop::CapsuleStop;
use bgp_types::{Octets, Prefix};
use std::alloc::Global;
use tcp_seq::{Piece, Pieces};

// ---- pieces

/// Whether a place is above the end of the piece before.
fn is_ahead_of(before: Option<&Piece>, place: u32) -> bool
    ensures { result ≡ is_ahead_of_lem (option_copied before.entry) place }
{
    match before {
        Some(piece) => piece.end() < place as usize,
        None => true,
    }
}

fn read_offset(cursor: &mut Cursor<'_>, before: Option<&Piece>) -> Result<u32, CapsuleStop>
    ensures passed { IfOk result (λ n. Passes (number w32 (is_ahead_of_lem (option_copied before.entry)) n ∷ []) cursor.old cursor.new) }
    ensures stops { (n : ℕ) → IfErr result (λ stop. StopsAt (number w32 (is_ahead_of_lem (option_copied before.entry)) n) cursor.old stop) }
{
    let place = cursor.place();
    let offset = cursor.read_u32()?;
    if !is_ahead_of(before, offset) {
        return Err(CapsuleStop::Value(place));
    }
    Ok(offset)
}

/// Reads the number of octets of a piece, which is at least 1.
fn read_size(cursor: &mut Cursor<'_>) -> Result<u32, CapsuleStop>
    ensures passed { IfOk result (λ n. Passes (number w32 (nat_lt 0) n ∷ []) cursor.old cursor.new) }
    ensures stops { (n : ℕ) → IfErr result (λ stop. StopsAt (number w32 (nat_lt 0) n) cursor.old stop) }
{
    let place = cursor.place();
    let size = cursor.read_u32()?;
    if size == 0 {
        return Err(CapsuleStop::Value(place));
    }
    Ok(size)
}

fn read_piece(
    alloc: Global,
    cursor: &mut Cursor<'_>,
    before: Option<&Piece>,
) -> Result<Piece, CapsuleStop>
    ensures { Reads (piece_fields (option_copied before.entry)) result cursor.old cursor.new }
{
    let offset = read_offset(cursor, before)?;
    let size = read_size(cursor)?;
    let bytes = cursor.read_octets(alloc, size as usize)?;
    Ok(Piece { offset, bytes })
}

/// Reads the pieces that arrived ahead of a hole.
pub(crate) fn read_pieces(alloc: Global, cursor: &mut Cursor<'_>) -> Result<Pieces, CapsuleStop>
    ensures { Reads (counted piece_fields) result cursor.old cursor.new }
{
    let count = cursor.read_u32()?;
    let mut pieces = Pieces::new(alloc);
    for _ in 0..count {
        let piece = read_piece(alloc, cursor, pieces.last())?;
        pieces.push(piece)?;
    }
    Ok(pieces)
}

// ---- the story

/// The kinds of lines: what the session put, what it got, and a turn.
pub(crate) const PUT: u8 = 1;

pub(crate) const GOT: u8 = 2;

pub(crate) const TICK: u8 = 3;

fn read_line(alloc: Global, cursor: &mut Cursor<'_>) -> Result<PartLine, CapsuleStop>
    ensures { (before : Option PartLine) → Reads (line_fields before) result cursor.old cursor.new }
{
    let kind = cursor.read_u8_within(PUT, TICK)?;
    if kind == PUT {
        let put = cursor.read_short_text(alloc)?;
        return Ok(PartLine::Put(put));
    }
    if kind == GOT {
        let got = cursor.read_short_text(alloc)?;
        return Ok(PartLine::Got(got));
    }
    let round = cursor.read_u32()?;
    Ok(PartLine::Tick(round))
}

pub(crate) fn read_lines(alloc: Global, cursor: &mut Cursor<'_>) -> Result<PartLines, CapsuleStop>
    ensures { Reads (counted line_fields) result cursor.old cursor.new }
{
    let count = cursor.read_u32()?;
    let mut lines = PartLines::new(alloc);
    for _ in 0..count {
        let line = read_line(alloc, cursor)?;
        lines.push(line)?;
    }
    Ok(lines)
}

// ---- late changes

/// Whether a side and a prefix come after those of the change before.
fn is_above(before: Option<&PartChange>, side: Side, prefix: Prefix) -> bool
    ensures { result ≡ is_above_lem (option_copied before.entry) side prefix }
{
    match before {
        Some(change) => (change.side, change.prefix) < (side, prefix),
        None => true,
    }
}

/// Returns the prefix with this address and this length, if it is one.
fn prefix_of(address: u32, len: u8) -> Option<Prefix>
    ensures { let p : PrefixValue = record { address = address; len = len } in
        MatchOption result (is_prefix p ≡ false) (λ prefix. (prefix ≡ p) × (is_prefix p ≡ true)) }
{
    let prefix = Prefix::new(address, len)?;
    if prefix.address() != address {
        return None;
    }
    Some(prefix)
}

fn read_side(cursor: &mut Cursor<'_>) -> Result<Side, CapsuleStop>
    ensures { Reads (λ side. number w8 (is_in_range 0 1) (side_number side) ∷ []) result cursor.old cursor.new }
{
    let told = cursor.read_flag()?;
    Ok(if told { Side::Told } else { Side::Heard })
}

fn read_prefix(
    cursor: &mut Cursor<'_>,
    before: Option<&PartChange>,
    side: Side,
) -> Result<Prefix, CapsuleStop>
    ensures { Reads (λ p. any_number w32 p.address ∷ prefix_len (option_copied before.entry) side p ∷ []) result cursor.old cursor.new }
{
    let address = cursor.read_u32()?;
    let place = cursor.place();
    let len = cursor.read_u8()?;
    let Some(prefix) = prefix_of(address, len) else {
        return Err(CapsuleStop::Value(place));
    };
    if !is_above(before, side, prefix) {
        return Err(CapsuleStop::Value(place));
    }
    Ok(prefix)
}

fn read_attrs(alloc: Global, cursor: &mut Cursor<'_>) -> Result<Option<Octets>, CapsuleStop>
    ensures { Reads attrs_fields result cursor.old cursor.new }
{
    let present = cursor.read_flag()?;
    if !present {
        return Ok(None);
    }
    let attrs = cursor.read_short_text(alloc)?;
    Ok(Some(attrs))
}

fn read_change(
    alloc: Global,
    cursor: &mut Cursor<'_>,
    before: Option<&PartChange>,
) -> Result<PartChange, CapsuleStop>
    ensures { Reads (change_fields (option_copied before.entry)) result cursor.old cursor.new }
{
    let side = read_side(cursor)?;
    let prefix = read_prefix(cursor, before, side)?;
    let attrs = read_attrs(alloc, cursor)?;
    Ok(PartChange {
        side,
        prefix,
        attrs,
    })
}

pub(crate) fn read_changes(
    alloc: Global,
    cursor: &mut Cursor<'_>,
) -> Result<PartChanges, CapsuleStop>
    ensures { Reads (counted change_fields) result cursor.old cursor.new }
{
    let count = cursor.read_u32()?;
    let mut changes = PartChanges::new(alloc);
    for _ in 0..count {
        let change = read_change(alloc, cursor, changes.last())?;
        changes.push(change)?;
    }
    Ok(changes)
}
