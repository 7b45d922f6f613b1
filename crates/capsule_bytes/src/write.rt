//! A capsule that is written as octets.

ghost use Rattle.std.specs.Prelude.{◌≡◌, ◌++◌, ◌∷◌, ◌<◌, ◌^◌, [], IfOk, OnOk, length, Option};
ghost use Rattle.std.specs.Int.{w8, w16, w32, to_be_bytes};
ghost use Rattle.capsule_bytes.specs.Fields.{AreRight, spelled, flag, text as text_fields, counted};
ghost use Rattle.capsule_bytes.specs.Capsules.{IsCapsule, IsCapsuleOf, config_fields, name_fields, end_fields, piece_fields, line_fields, change_fields};
ghost use Rattle.capsule_bytes.specs.Capsules.{side_number, offer, attrs_fields, spell_capsule};

use crate::lists::{GOT, PUT, TICK};
use crate::parts::{CapsuleParts, PartChange, PartLine, Side};
use crate::read::MAGIC;
use bgp_types::{Name, NoMemory, Octets};
use std::alloc::Global;
use tcp_seq::{EndState, Piece};

fn push_u8(octets: &mut Octets, n: u8) -> Result<(), NoMemory>
    ensures { OnOk result (octets.new ≡ octets.old ++ to_be_bytes w8 n) }
{
    octets.push(n)
}

fn push_u16(octets: &mut Octets, n: u16) -> Result<(), NoMemory>
    ensures { OnOk result (octets.new ≡ octets.old ++ to_be_bytes w16 n) }
{
    octets.extend(&n.to_be_bytes())
}

fn push_u32(octets: &mut Octets, n: u32) -> Result<(), NoMemory>
    ensures { OnOk result (octets.new ≡ octets.old ++ to_be_bytes w32 n) }
{
    octets.extend(&n.to_be_bytes())
}

/// Adds octets behind their number, which has four octets.
fn push_text(octets: &mut Octets, text: &[u8]) -> Result<(), NoMemory>
    requires { length text.now < 2 ^ 32 }
    ensures { OnOk result (octets.new ≡ octets.old ++ spelled (text_fields w32 text.now)) }
{
    push_u32(octets, text.len() as u32)?;
    octets.extend(text)?;
    Ok(())
}

/// Adds octets behind their number, which has two octets.
fn push_short_text(octets: &mut Octets, text: &[u8]) -> Result<(), NoMemory>
    requires { length text.now < 2 ^ 16 }
    ensures { OnOk result (octets.new ≡ octets.old ++ spelled (text_fields w16 text.now)) }
{
    push_u16(octets, text.len() as u16)?;
    octets.extend(text)?;
    Ok(())
}

fn push_flag(octets: &mut Octets, set: bool) -> Result<(), NoMemory>
    ensures { OnOk result (octets.new ≡ octets.old ++ spelled (flag set ∷ [])) }
{
    push_u8(octets, u8::from(set))
}

/// Returns the octet that says what is offered: AS numbers of four octets, and IPv4 unicast.
fn offer(offered: bool, unicast: bool) -> u8
    ensures { result ≡ offer offered unicast }
{
    u8::from(offered) + 2 * u8::from(unicast)
}

/// Adds the fields of fixed sizes.
fn push_config(octets: &mut Octets, parts: &CapsuleParts) -> Result<(), NoMemory>
    ensures { let p = parts.now in OnOk result (octets.new ≡ octets.old ++ spelled (config_fields p.peering.0 p.remote_as p.home_as p.identifier
        p.remote_address p.local_address p.home_hold p.offered p.unicast)) }
{
    push_u8(octets, parts.peering.0)?;
    push_u32(octets, parts.remote_as)?;
    push_u32(octets, parts.home_as)?;
    push_u32(octets, parts.identifier)?;
    push_u32(octets, parts.remote_address)?;
    push_u32(octets, parts.local_address)?;
    push_u16(octets, parts.home_hold)?;
    push_u8(octets, offer(parts.offered, parts.unicast))?;
    Ok(())
}

fn push_name(octets: &mut Octets, name: &Option<Name>) -> Result<(), NoMemory>
    requires { AreRight (name_fields name.now) }
    ensures { OnOk result (octets.new ≡ octets.old ++ spelled (name_fields name.now)) }
{
    let Some(name) = name else {
        return push_u8(octets, 0);
    };
    let text = name.as_str().as_bytes();
    push_u8(octets, text.len() as u8)?;
    octets.extend(text)?;
    Ok(())
}

fn push_piece(octets: &mut Octets, piece: &Piece) -> Result<(), NoMemory>
    requires { length piece.now.bytes < 2 ^ 32 }
    ensures { (before : Option Piece) → OnOk result (octets.new ≡ octets.old ++ spelled (piece_fields before piece.now)) }
{
    push_u32(octets, piece.offset)?;
    push_text(octets, &piece.bytes)?;
    Ok(())
}

fn push_pieces(octets: &mut Octets, pieces: &[Piece]) -> Result<(), NoMemory>
    requires { AreRight (counted piece_fields pieces.now) }
    ensures { OnOk result (octets.new ≡ octets.old ++ spelled (counted piece_fields pieces.now)) }
{
    push_u32(octets, pieces.len() as u32)?;
    for piece in pieces {
        push_piece(octets, piece)?;
    }
    Ok(())
}

fn push_end(octets: &mut Octets, end: &EndState) -> Result<(), NoMemory>
    requires { AreRight (end_fields end.now) }
    ensures { OnOk result (octets.new ≡ octets.old ++ spelled (end_fields end.now)) }
{
    push_u32(octets, end.send_first.0)?;
    push_u32(octets, end.acked)?;
    push_u32(octets, end.sent)?;
    push_text(octets, &end.waiting)?;
    push_u32(octets, end.receive_first.0)?;
    push_u32(octets, end.taken)?;
    push_text(octets, &end.ready)?;
    push_pieces(octets, &end.ahead)?;
    push_u32(octets, end.acked_at_turn)?;
    push_flag(octets, end.owed)?;
    Ok(())
}

fn push_line(octets: &mut Octets, line: &PartLine) -> Result<(), NoMemory>
    requires { (before : Option PartLine) → AreRight (line_fields before line.now) }
    ensures { (before : Option PartLine) → OnOk result (octets.new ≡ octets.old ++ spelled (line_fields before line.now)) }
{
    match line {
        PartLine::Put(bytes) => {
            push_u8(octets, PUT)?;
            push_short_text(octets, bytes)?;
        }
        PartLine::Got(bytes) => {
            push_u8(octets, GOT)?;
            push_short_text(octets, bytes)?;
        }
        PartLine::Tick(round) => {
            push_u8(octets, TICK)?;
            push_u32(octets, *round)?;
        }
    }
    Ok(())
}

fn push_lines(octets: &mut Octets, lines: &[PartLine]) -> Result<(), NoMemory>
    requires { AreRight (counted line_fields lines.now) }
    ensures { OnOk result (octets.new ≡ octets.old ++ spelled (counted line_fields lines.now)) }
{
    push_u32(octets, lines.len() as u32)?;
    for line in lines {
        push_line(octets, line)?;
    }
    Ok(())
}

fn side_number(side: Side) -> u8
    ensures { result ≡ side_number side }
{
    match side {
        Side::Heard => 0,
        Side::Told => 1,
    }
}

fn push_attrs(octets: &mut Octets, attrs: &Option<Octets>) -> Result<(), NoMemory>
    requires { AreRight (attrs_fields attrs.now) }
    ensures { OnOk result (octets.new ≡ octets.old ++ spelled (attrs_fields attrs.now)) }
{
    let Some(attrs) = attrs else {
        return push_flag(octets, false);
    };
    push_flag(octets, true)?;
    push_short_text(octets, attrs)?;
    Ok(())
}

fn push_change(octets: &mut Octets, change: &PartChange) -> Result<(), NoMemory>
    requires { AreRight (attrs_fields change.now.attrs) }
    ensures { (before : Option PartChange) → OnOk result (octets.new ≡ octets.old ++ spelled (change_fields before change.now)) }
{
    push_u8(octets, side_number(change.side))?;
    push_u32(octets, change.prefix.address())?;
    push_u8(octets, change.prefix.len())?;
    push_attrs(octets, &change.attrs)?;
    Ok(())
}

fn push_changes(octets: &mut Octets, changes: &[PartChange]) -> Result<(), NoMemory>
    requires { AreRight (counted change_fields changes.now) }
    ensures { OnOk result (octets.new ≡ octets.old ++ spelled (counted change_fields changes.now)) }
{
    push_u32(octets, changes.len() as u32)?;
    for change in changes {
        push_change(octets, change)?;
    }
    Ok(())
}

/// The octets of a capsule, whose fields have values that can be read back.
pub fn write_capsule(alloc: Global, parts: &CapsuleParts) -> Result<Octets, NoMemory>
    requires { IsCapsule parts.now }
    ensures spelled { IfOk result (λ octets. octets ≡ spell_capsule parts.now) }
    // No other parts are written as these octets.
    ensures one { (other : CapsuleParts) → IfOk result (λ octets. IsCapsuleOf octets other → other ≡ parts.now) }
{
    let mut octets = Octets::from_slice(alloc, MAGIC)?;
    push_config(&mut octets, parts)?;
    push_name(&mut octets, &parts.import)?;
    push_name(&mut octets, &parts.export)?;
    push_end(&mut octets, &parts.end)?;
    push_text(&mut octets, &parts.held)?;
    push_lines(&mut octets, &parts.story)?;
    push_changes(&mut octets, &parts.late)?;
    Ok(octets)
}
