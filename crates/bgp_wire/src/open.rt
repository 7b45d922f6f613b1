//! The body of an OPEN (RFC 4271, sections 4.2 and 6.2; RFC 5492, section 4; RFC 6793, section 4.1).

ghost use Rattle.std.specs.Prelude.{◌≡◌, ◌<◌, ◌≤◌, length, true, is_some, IfSome, OnOk};
ghost use Rattle.std.specs.Option.{option_map};
ghost use Rattle.attr_codec.specs.Decoding.{Decodes, PassesOrStops};
ghost use Rattle.bgp_types.specs.Many.{all_of};
ghost use Rattle.bgp_types.specs.OpenBody.{cap_at, params_of, with_params, as_said, is_field, is_said, open_of};
ghost use Rattle.bgp_types.specs.Values.{is_short_hold};
ghost use Rattle.bgp_wire.specs.Caps.{cap_of, caps_fault, AddsCaps};

use crate::fault::fault;
use attr_codec::CodecFault;
use bgp_types::{Cap, Caps, Expected, NoMemory, Octets, OpenMsg, is_no_host, narrow_as};
use byteorder::{BigEndian, ByteOrder};
use std::alloc::Global;

/// The version of BGP.
pub const VERSION: u8 = 4;

/// The type of a parameter that holds capabilities.
pub const CAPABILITIES: u8 = 2;

/// The code of the capability of four-octet AS numbers (RFC 6793, section 9), and the length of its value.
pub const FOUR_OCTET_AS: u8 = 65;

const FOUR_OCTETS: usize = 4;

/// The error code of a fault in an OPEN.
const OPEN_FAULT: u8 = 2;

/// The subcodes of faults in an OPEN.
const UNSPECIFIC: u8 = 0;

const UNSUPPORTED_VERSION: u8 = 1;

const BAD_PEER_AS: u8 = 2;

const BAD_IDENTIFIER: u8 = 3;

const UNSUPPORTED_PARAMETER: u8 = 4;

const BAD_HOLD_TIME: u8 = 6;

/// A parameter or a capability within the bytes of an OPEN: its type or code, and its value.
#[derive(Clone, Copy, Debug)]
pub struct Item<'a> {
    pub code: u8,
    pub value: &'a [u8],
}

/// Returns the item at the front, and the octets after it.
#[tactic(auto, unfolding(bgp_types::specs::OpenBody::cap_at))]
fn item_at(octets: &[u8]) -> Option<(Item<'_>, &[u8])>
    ensures item { option_map (λ x. (cap_of x.0, x.1.now)) result ≡ cap_at octets.now }
    ensures shorter { IfSome result (λ x. length x.1.now < length octets.now) }
{
    let [code, size, rest @ ..] = octets else {
        return None;
    };
    let size = usize::from(*size);
    if rest.len() < size {
        return None;
    }
    let (value, after) = rest.split_at(size);
    let item = Item { code: *code, value };
    Some((item, after))
}

/// Whether octets are a sequence of whole items.
fn are_items(octets: &[u8]) -> bool
    ensures { result ≡ is_some (all_of cap_at octets.now) }
{
    let mut rest = octets;
    while !rest.is_empty() {
        let Some((_item, after)) = item_at(rest) else {
            return false;
        };
        rest = after;
    }
    true
}

/// Adds the capabilities of a parameter.
fn add_caps(alloc: Global, caps: &mut Caps, octets: &[u8]) -> Result<(), CodecFault>
    ensures fault { PassesOrStops result (caps_fault (all_of cap_at octets.now)) }
    ensures added { OnOk result (AddsCaps caps.old caps.new (all_of cap_at octets.now)) }
{
    let mut rest = octets;
    while !rest.is_empty() {
        let Some((item, after)) = item_at(rest) else {
            return Err(fault(alloc, OPEN_FAULT, UNSPECIFIC, &[]));
        };
        caps.push(Cap {
            code: item.code,
            bytes: Octets::from_slice(alloc, item.value)?,
        })?;
        rest = after;
    }
    Ok(())
}

/// Reads the capabilities of parameters, which are whole.
fn caps_in(alloc: Global, params: &[u8]) -> Result<Caps, CodecFault>
    requires { is_some (all_of cap_at params.now) ≡ true }
    ensures { Decodes result (with_params (all_of cap_at params.now)) }
{
    let mut caps = Caps::new(alloc);
    let mut rest = params;
    while let Some((param, after)) = item_at(rest) {
        if param.code != CAPABILITIES {
            return Err(fault(alloc, OPEN_FAULT, UNSUPPORTED_PARAMETER, &[]));
        }
        add_caps(alloc, &mut caps, param.value)?;
        rest = after;
    }
    Ok(caps)
}

/// Reads the capabilities of the parameters behind their length.
#[tactic(auto, unfolding(bgp_types::specs::OpenBody::params_of))]
fn params_in(alloc: Global, octets: &[u8]) -> Result<Caps, CodecFault>
    ensures { Decodes result (with_params (params_of octets.now)) }
{
    let [size, params @ ..] = octets else {
        return Err(fault(alloc, OPEN_FAULT, UNSPECIFIC, &[]));
    };
    if params.len() != usize::from(*size) || !are_items(params) {
        return Err(fault(alloc, OPEN_FAULT, UNSPECIFIC, &[]));
    }
    caps_in(alloc, params)
}

/// Returns the first AS number that a capability of four-octet AS numbers gives, or `None` if there is no such capability
/// (RFC 6793, section 3). One of another length counts as absent.
pub fn as_said(caps: &[Cap]) -> Option<u32>
    ensures { result ≡ as_said caps.now }
{
    for cap in caps {
        if cap.code == FOUR_OCTET_AS && cap.bytes.len() == FOUR_OCTETS {
            return Some(BigEndian::read_u32(&cap.bytes));
        }
    }
    None
}

/// Whether the field of two octets stands for the AS.
fn is_field(remote_as: u32, field: u32) -> bool
    ensures { result ≡ is_field remote_as field }
{
    field == u32::from(narrow_as(remote_as))
}

/// Whether the OPEN gives the AS: by a capability, or if there is none by its field.
fn is_said(remote_as: u32, field: u32, said: Option<u32>) -> bool
    ensures { result ≡ is_said remote_as field said }
{
    match said {
        Some(as_number) => as_number == remote_as,
        None => is_field(remote_as, field),
    }
}

fn is_short_hold(hold: u16) -> bool
    ensures { result ≡ is_short_hold hold }
{
    hold == 1 || hold == 2
}

/// Reads the OPEN with this body, or finds its first fault.
#[tactic(auto, unfolding(bgp_types::specs::OpenBody::open_of))]
pub fn read_open(alloc: Global, body: &[u8], expected: &Expected) -> Result<OpenMsg, CodecFault>
    requires { 10 ≤ length body.now }
    ensures { Decodes result (open_of expected.now body.now) }
{
    if body[0] != VERSION {
        return Err(fault(alloc, OPEN_FAULT, UNSUPPORTED_VERSION, &[0, VERSION]));
    }
    let as_number = u32::from(BigEndian::read_u16(&body[1..3]));
    let hold = BigEndian::read_u16(&body[3..5]);
    let identifier = BigEndian::read_u32(&body[5..9]);
    if !expected.offered && !is_field(expected.remote_as, as_number) {
        return Err(fault(alloc, OPEN_FAULT, BAD_PEER_AS, &[]));
    }
    if is_short_hold(hold) {
        return Err(fault(alloc, OPEN_FAULT, BAD_HOLD_TIME, &[]));
    }
    if is_no_host(identifier) {
        return Err(fault(alloc, OPEN_FAULT, BAD_IDENTIFIER, &[]));
    }
    let caps = params_in(alloc, &body[9..])?;
    if expected.offered && !is_said(expected.remote_as, as_number, as_said(&caps)) {
        return Err(fault(alloc, OPEN_FAULT, BAD_PEER_AS, &[]));
    }
    Ok(OpenMsg {
        as_number,
        hold,
        identifier,
        caps,
    })
}
