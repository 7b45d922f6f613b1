//! The opening of a remote: what it says at first.

ghost use Rattle.std.specs.Prelude.{◌≡◌, ◌++◌, true, false, IfOk};
ghost use Rattle.bgp_types.specs.PathOctets.{narrow_as as narrow_as_lem};
ghost use Rattle.lab_tables.specs.Peerings.{default_opening as default_opening_lem};

use bgp_types::{KEEPALIVE_MESSAGE, NoMemory, Octets, narrow_as};
use std::alloc::Global;

/// Returns an AS number as the two-octet field of an OPEN (RFC 6793, section 4.1).
fn as_field(as_number: u32) -> u16
    ensures { result ≡ narrow_as_lem as_number }
{
    narrow_as(as_number) as u16
}

/// Returns octets with further ones appended.
fn extended(octets: Octets, further: &[u8]) -> Result<Octets, NoMemory>
    ensures { IfOk result (λ whole. whole ≡ octets ++ further.now) }
{
    let mut octets = octets;
    octets.extend(further)?;
    Ok(octets)
}

/// Returns an OPEN without capabilities (RFC 4271, section 4.2), and a KEEPALIVE (section 4.4).
fn plain_opening(
    alloc: Global,
    remote_as: u32,
    hold: u16,
    remote_id: u32,
) -> Result<Octets, NoMemory>
    ensures { IfOk result (λ octets. octets ≡ default_opening_lem remote_as hold remote_id false) }
{
    let head = [
        255, 255, 255, 255, 255, 255, 255, 255, 255, 255, 255, 255, 255, 255, 255, 255, 0, 29, 1, 4,
    ];
    let octets = Octets::from_slice(alloc, &head)?;
    let octets = extended(octets, &as_field(remote_as).to_be_bytes())?;
    let octets = extended(octets, &hold.to_be_bytes())?;
    let octets = extended(octets, &remote_id.to_be_bytes())?;
    let octets = extended(octets, &[0])?;
    let octets = extended(octets, &KEEPALIVE_MESSAGE)?;
    Ok(octets)
}

/// Returns an OPEN with the capability of four-octet AS numbers (RFC 6793, section 3), and a KEEPALIVE.
fn wide_opening(
    alloc: Global,
    remote_as: u32,
    hold: u16,
    remote_id: u32,
) -> Result<Octets, NoMemory>
    ensures { IfOk result (λ octets. octets ≡ default_opening_lem remote_as hold remote_id true) }
{
    let head = [
        255, 255, 255, 255, 255, 255, 255, 255, 255, 255, 255, 255, 255, 255, 255, 255, 0, 37, 1, 4,
    ];
    let octets = Octets::from_slice(alloc, &head)?;
    let octets = extended(octets, &as_field(remote_as).to_be_bytes())?;
    let octets = extended(octets, &hold.to_be_bytes())?;
    let octets = extended(octets, &remote_id.to_be_bytes())?;
    let octets = extended(octets, &[8, 2, 6, 65, 4])?;
    let octets = extended(octets, &remote_as.to_be_bytes())?;
    let octets = extended(octets, &KEEPALIVE_MESSAGE)?;
    Ok(octets)
}

/// Returns an OPEN of these values, with or without the capability of four-octet AS numbers, and a KEEPALIVE.
pub fn default_opening(
    alloc: Global,
    remote_as: u32,
    hold: u16,
    remote_id: u32,
    as4: bool,
) -> Result<Octets, NoMemory>
    ensures { IfOk result (λ octets. octets ≡ default_opening_lem remote_as hold remote_id as4) }
{
    if as4 {
        wide_opening(alloc, remote_as, hold, remote_id)
    } else {
        plain_opening(alloc, remote_as, hold, remote_id)
    }
}
