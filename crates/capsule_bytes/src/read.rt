//! Octets that are read as a capsule.

ghost use Rattle.std.specs.Prelude.{◌≡◌, ◌⊎◌, ◌∷◌, ◌<◌, ◌^◌, [], ℕ, Err, IfOk, MatchResult, length};
ghost use Rattle.std.specs.Int.{w8, is_in_range};
ghost use Rattle.capsule_bytes.specs.Fields.{number};
ghost use Rattle.capsule_bytes.specs.Capsules.{IsCapsuleOf, body_fields, config_fields, end_fields, name_fields, offer};
ghost use Rattle.capsule_bytes.specs.Stops.{Answers, HasFault, HasOtherMagic, HasWrongValue, IsCut, GoesOn, Reads};

use crate::cursor::Cursor;
use crate::lists::{read_changes, read_lines, read_pieces};
use crate::name::name_in;
use crate::parts::CapsuleParts;
use crate::stop::CapsuleStop;
use bgp_types::{Name, PeeringId};
use std::alloc::Global;
use tcp_seq::{EndState, Seq, Way};

/// The first four octets of a capsule.
pub(crate) const MAGIC: &[u8] = b"RGC1";

/// The part of a capsule whose fields have fixed sizes.
#[derive(Drop)]
struct Config {
    peering: PeeringId,
    remote_as: u32,
    home_as: u32,
    identifier: u32,
    remote_address: u32,
    local_address: u32,
    home_hold: u16,
    offered: bool,
    unicast: bool,
}

/// Returns what the bits of the octet say: whether AS numbers of four octets are offered, and whether IPv4 unicast is.
fn offers_in(octet: u8) -> (bool, bool)
    requires { octet < 4 }
    ensures { offer result.0 result.1 ≡ octet }
{
    (octet % 2 == 1, octet / 2 == 1)
}

fn read_offer(cursor: &mut Cursor<'_>) -> Result<(bool, bool), CapsuleStop>
    ensures { Reads (λ o. number w8 (is_in_range 0 3) (offer o.0 o.1) ∷ []) result cursor.old cursor.new }
{
    let octet = cursor.read_u8_within(0, 3)?;
    Ok(offers_in(octet))
}

fn read_config(cursor: &mut Cursor<'_>) -> Result<Config, CapsuleStop>
    ensures { Reads (λ c. config_fields c.peering.0 c.remote_as c.home_as c.identifier c.remote_address c.local_address c.home_hold c.offered c.unicast)
        result cursor.old cursor.new }
{
    let peering = cursor.read_u8()?;
    let remote_as = cursor.read_u32()?;
    let home_as = cursor.read_u32()?;
    let identifier = cursor.read_u32()?;
    let remote_address = cursor.read_u32()?;
    let local_address = cursor.read_u32()?;
    let home_hold = cursor.read_u16()?;
    let (offered, unicast) = read_offer(cursor)?;
    Ok(Config {
        peering: PeeringId(peering),
        remote_as,
        home_as,
        identifier,
        remote_address,
        local_address,
        home_hold,
        offered,
        unicast,
    })
}

fn read_name(alloc: Global, cursor: &mut Cursor<'_>) -> Result<Option<Name>, CapsuleStop>
    ensures { Reads name_fields result cursor.old cursor.new }
{
    let size = cursor.read_u8_within(0, 16)?;
    if size == 0 {
        return Ok(None);
    }
    let place = cursor.place();
    let octets = cursor.take(usize::from(size))?;
    let Some(text) = name_in(octets) else {
        return Err(CapsuleStop::Value(place));
    };
    Ok(Some(Name::from_text(alloc, text)?))
}

/// Reads the endpoint of a peering, which sends to the remote.
fn read_end(
    alloc: Global,
    cursor: &mut Cursor<'_>,
    peering: PeeringId,
) -> Result<EndState, CapsuleStop>
    ensures fields { Reads end_fields result cursor.old cursor.new }
    ensures peering { IfOk result (λ end. end.peering ≡ peering) }
    ensures way { IfOk result (λ end. end.way ≡ Way.Remote) }
{
    let send_first = cursor.read_u32()?;
    let acked = cursor.read_u32()?;
    let sent = cursor.read_u32()?;
    let waiting = cursor.read_text(alloc)?;
    let receive_first = cursor.read_u32()?;
    let taken = cursor.read_u32()?;
    let ready = cursor.read_text(alloc)?;
    let ahead = read_pieces(alloc, cursor)?;
    let acked_at_turn = cursor.read_u32()?;
    let owed = cursor.read_flag()?;
    Ok(EndState {
        way: Way::Remote,
        peering,
        send_first: Seq(send_first),
        acked,
        sent,
        waiting,
        receive_first: Seq(receive_first),
        taken,
        ready,
        ahead,
        acked_at_turn,
        owed,
    })
}

/// Reads what follows the first four octets.
fn read_body(alloc: Global, cursor: &mut Cursor<'_>) -> Result<CapsuleParts, CapsuleStop>
    ensures fields { Reads body_fields result cursor.old cursor.new }
    ensures peering { IfOk result (λ parts. parts.end.peering ≡ parts.peering) }
    ensures way { IfOk result (λ parts. parts.end.way ≡ Way.Remote) }
{
    let config = read_config(cursor)?;
    let import = read_name(alloc, cursor)?;
    let export = read_name(alloc, cursor)?;
    let end = read_end(alloc, cursor, config.peering)?;
    let held = cursor.read_text(alloc)?;
    let story = read_lines(alloc, cursor)?;
    let late = read_changes(alloc, cursor)?;
    Ok(CapsuleParts {
        peering: config.peering,
        remote_as: config.remote_as,
        home_as: config.home_as,
        identifier: config.identifier,
        remote_address: config.remote_address,
        local_address: config.local_address,
        home_hold: config.home_hold,
        offered: config.offered,
        unicast: config.unicast,
        import,
        export,
        end,
        held,
        story,
        late,
    })
}

/// Reads a capsule that is all of the octets.
fn read_whole(alloc: Global, bytes: &[u8]) -> Result<CapsuleParts, CapsuleStop>
    requires { length bytes.now < 2 ^ 32 }
    ensures { Answers bytes.now result }
{
    let mut cursor = Cursor::new(bytes);
    let first = cursor.take(MAGIC.len())?;
    if first != MAGIC {
        return Err(CapsuleStop::Magic);
    }
    let parts = read_body(alloc, &mut cursor)?;
    if !cursor.left().is_empty() {
        return Err(CapsuleStop::Rest(cursor.place()));
    }
    Ok(parts)
}

/// Reads the octets of a capsule, of which there are fewer than 2^32. If they aren't exactly a capsule,
/// the error is their first fault from the left. Of a prefix the fault is at its length, if bits past the
/// length are set or if the change isn't above the one before it. The time it takes grows with the
/// number of octets.
pub fn read_capsule(alloc: Global, bytes: &[u8]) -> Result<CapsuleParts, CapsuleStop>
    requires { length bytes.now < 2 ^ 32 }
    ensures capsule { IfOk result (λ parts. IsCapsuleOf bytes.now parts) }
    ensures magic { result ≡ Err CapsuleStop.Magic → HasOtherMagic bytes.now }
    ensures cut { (place : ℕ) → result ≡ Err (CapsuleStop.Cut place) → IsCut bytes.now place }
    ensures value { (place : ℕ) → result ≡ Err (CapsuleStop.Value place) → HasWrongValue bytes.now place }
    ensures rest { (place : ℕ) → result ≡ Err (CapsuleStop.Rest place) → GoesOn bytes.now place }
    // What was written reads back, unless memory runs out.
    ensures back { (parts : CapsuleParts) → IsCapsuleOf bytes.now parts → MatchResult result (λ read. read ≡ parts) (λ stop. stop ≡ CapsuleStop.NoMemory) }
    // Other octets have one fault, so this is it, unless memory runs out.
    ensures fault { (fault : CapsuleStop) → HasFault bytes.now fault → (result ≡ Err fault) ⊎ (result ≡ Err CapsuleStop.NoMemory) }
{
    read_whole(alloc, bytes)
}
