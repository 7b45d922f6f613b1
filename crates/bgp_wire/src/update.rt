//! The body of an UPDATE (RFC 4271, sections 4.3 and 6.3).

ghost use Rattle.std.specs.Prelude.{◌≡◌, Some};
ghost use Rattle.std.specs.Int.{w16};
ghost use Rattle.std.specs.Option.{option_map};
ghost use Rattle.attr_codec.specs.Decoding.{Decodes};
ghost use Rattle.bgp_types.specs.Many.{number_at, told_at};
ghost use Rattle.bgp_types.specs.UpdateBody.{fields_of, all_known, update_of};
ghost use Rattle.bgp_wire.specs.Fields.{fields};

use crate::fault::fault;
use crate::prefix::{apart_from, prefixes_in};
use attr_codec::{CodecFault, read_attrs};
use bgp_types::kinds::{AS_PATH, NEXT_HOP, ORIGIN};
use bgp_types::{Attrs, FoundAttrs, PrefixList, Update};
use byteorder::{BigEndian, ByteOrder};
use std::alloc::Global;

/// The error code of a fault in an UPDATE.
const UPDATE_FAULT: u8 = 3;

/// The subcodes of faults in an UPDATE.
const MALFORMED_LIST: u8 = 1;

const MISSING_ATTRIBUTE: u8 = 3;

const INVALID_NETWORK: u8 = 10;

/// The three fields of the body.
#[derive(Drop)]
struct BodyFields<'a> {
    withdrawn: &'a [u8],
    attrs: &'a [u8],
    nlri: &'a [u8],
}

/// Returns a field behind its length, and what follows it.
fn field_at(octets: &[u8]) -> Option<(&[u8], &[u8])>
    ensures { option_map (λ x. (x.0.now, x.1.now)) result ≡ told_at (number_at w16 octets.now) }
{
    if octets.len() < 2 {
        return None;
    }
    let (size, rest) = octets.split_at(2);
    let size = usize::from(BigEndian::read_u16(size));
    if rest.len() < size {
        return None;
    }
    Some(rest.split_at(size))
}

#[tactic(auto, unfolding(bgp_types::specs::UpdateBody::fields_of))]
fn fields_in(body: &[u8]) -> Option<BodyFields<'_>>
    ensures { option_map fields result ≡ fields_of body.now }
{
    let (withdrawn, rest) = field_at(body)?;
    let (attrs, nlri) = field_at(rest)?;
    Some(BodyFields {
        withdrawn,
        attrs,
        nlri,
    })
}

/// Returns the attributes that an announcement needs, or the fault of the first type that is missing.
#[tactic(auto, unfolding(bgp_types::specs::UpdateBody::all_known))]
fn all_in(alloc: Global, found: FoundAttrs) -> Result<Attrs, CodecFault>
    ensures { Decodes result (all_known found) }
{
    let FoundAttrs {
        origin,
        path,
        next_hop,
        ..
    } = found;
    let Some(origin) = origin else {
        return Err(fault(alloc, UPDATE_FAULT, MISSING_ATTRIBUTE, &[ORIGIN]));
    };
    let Some(path) = path else {
        return Err(fault(alloc, UPDATE_FAULT, MISSING_ATTRIBUTE, &[AS_PATH]));
    };
    let Some(next_hop) = next_hop else {
        return Err(fault(alloc, UPDATE_FAULT, MISSING_ATTRIBUTE, &[NEXT_HOP]));
    };
    Ok(Attrs {
        origin,
        path,
        next_hop,
        med: found.med,
        atomic: found.atomic,
        aggregator: found.aggregator,
        unknown: found.unknown,
    })
}

/// Reads the UPDATE with this body, or finds its first fault.
#[tactic(auto, unfolding(bgp_types::specs::UpdateBody::update_of))]
pub fn read_update(alloc: Global, body: &[u8], wide: bool) -> Result<Update, CodecFault>
    ensures { Decodes result (update_of wide body.now) }
{
    let Some(fields) = fields_in(body) else {
        return Err(fault(alloc, UPDATE_FAULT, MALFORMED_LIST, &[]));
    };
    let Some(withdrawn) = prefixes_in(alloc, fields.withdrawn)? else {
        return Err(fault(alloc, UPDATE_FAULT, INVALID_NETWORK, &[]));
    };
    let found = read_attrs(alloc, fields.attrs, wide)?;
    if fields.nlri.is_empty() {
        return Ok(Update {
            withdrawn,
            attrs: None,
            nlri: PrefixList::new(alloc),
        });
    }
    let attrs = all_in(alloc, found)?;
    let Some(nlri) = prefixes_in(alloc, fields.nlri)? else {
        return Err(fault(alloc, UPDATE_FAULT, INVALID_NETWORK, &[]));
    };
    let withdrawn = apart_from(alloc, withdrawn, &nlri)?;
    Ok(Update {
        withdrawn,
        attrs: Some(attrs),
        nlri,
    })
}
