//! The number of octets in which a message is written (RFC 4271, section 4; RFC 6793, section 4).

ghost use Rattle.std.specs.Prelude.{◌≡◌, ◌+◌, ◌-◌, ◌*◌, ◌^◌, length, min, option_copied, sum_by, if◌then◌else◌};
ghost use Rattle.std.specs.List.{list_any};
ghost use Rattle.bgp_types.specs.Lengths.{prefix_size, part_size, cap_size, attr_size_of, attrs_size};
ghost use Rattle.bgp_types.specs.PathOctets.{has_long_as, is_long_as};
ghost use Rattle.bgp_types.specs.Paths.{ases_of};
ghost use Rattle.bgp_types.specs.declared.message.Message.TheVariants.{UpdateMsg};
ghost use Rattle.bgp_types.specs.Spelling.{med_written, atomic_written, aggregator_written, as4_path_written};
ghost use Rattle.bgp_types.specs.Spelling.{as4_aggregator_written, spell, spell_attrs, spell_some_attrs};

use crate::as_number::{as_size, has_long_as, is_long_as};
use crate::attrs::{Aggregator, Attrs, RawAttr};
use crate::header::HEADER;
use crate::message::{Cap, Message};
use crate::path::PathPart;
use crate::prefix::Prefix;

/// The length of an OPEN's fields from its version to the length of its parameters.
const OPEN_FIELDS: usize = 10;

/// The length of the lengths of an UPDATE's withdrawn routes and attributes.
const LENGTHS: usize = 4;

/// The length of a NOTIFICATION's code and subcode.
const CODES: usize = 2;

/// The length of an ORIGIN and a NEXT_HOP together.
const ORIGIN_AND_NEXT_HOP: usize = 11;

/// The length of a MULTI_EXIT_DISC.
const MED: usize = 7;

/// The length of an ATOMIC_AGGREGATE.
const ATOMIC: usize = 3;

/// The length of an AGGREGATOR with an AS of four octets, and of an AS4_AGGREGATOR.
const LONG_AGGREGATOR: usize = 11;

/// The length of an AGGREGATOR with an AS of two octets.
const SHORT_AGGREGATOR: usize = 9;

fn prefix_len(prefix: &Prefix) -> usize
    ensures { result ≡ prefix_size prefix.now }
{
    let bits = prefix.len();
    1 + usize::from(bits).div_ceil(8)
}

fn prefixes_len(prefixes: &[Prefix]) -> usize
    ensures { result ≡ min (sum_by prefix_size prefixes.now) (2 ^ 64 - 1) }
{
    let mut octets = 0usize;
    for prefix in prefixes {
        octets = octets.saturating_add(prefix_len(prefix));
    }
    octets
}

/// Returns the number of ASes in a part.
fn ases_in(part: &PathPart) -> usize
    ensures { result ≡ length (ases_of part.now) }
{
    match part {
        PathPart::Set(ases) => ases.len(),
        PathPart::Sequence(ases) => ases.len(),
    }
}

/// Returns the length of a part of a path: its kind, its count, and its ASes.
#[tactic(auto, using(crate::proofs::Lengths::part_size_is))]
fn part_len(part: &PathPart, wide: bool) -> usize
    ensures { result ≡ min (part_size wide part.now) (2 ^ 64 - 1) }
{
    ases_in(part)
        .saturating_mul(as_size(wide))
        .saturating_add(2)
}

fn parts_len(parts: &[PathPart], wide: bool) -> usize
    ensures { result ≡ min (sum_by (part_size wide) parts.now) (2 ^ 64 - 1) }
{
    let mut octets = 0usize;
    for part in parts {
        octets = octets.saturating_add(part_len(part, wide));
    }
    octets
}

/// Returns the length of an attribute whose value has `value` octets: flags, type, a length of one
/// octet, or of two above 255, and the value.
fn attr_len(value: usize) -> usize
    ensures { result ≡ min (attr_size_of value) (2 ^ 64 - 1) }
{
    value.saturating_add(if value > 255 { 4 } else { 3 })
}

/// Returns the length of an attribute whose value is a path.
fn path_len(parts: &[PathPart], wide: bool) -> usize
    ensures { result ≡ min (attr_size_of (sum_by (part_size wide) parts.now)) (2 ^ 64 - 1) }
{
    attr_len(parts_len(parts, wide))
}

#[tactic(auto, using(crate::proofs::Lengths::as4_path_size))]
fn as4_path_len(parts: &[PathPart], wide: bool) -> usize
    ensures { result ≡ min (attrs_size (as4_path_written wide parts.now)) (2 ^ 64 - 1) }
{
    if wide || !has_long_as(parts) {
        return 0;
    }
    path_len(parts, true)
}

fn aggregator_len(aggregator: &Option<Aggregator>, wide: bool) -> usize
    ensures { result ≡ attrs_size (aggregator_written wide aggregator.now) + attrs_size (as4_aggregator_written wide aggregator.now) }
{
    match aggregator {
        None => 0,
        Some(_) if wide => LONG_AGGREGATOR,
        Some(aggregator) if is_long_as(aggregator.as_number) => SHORT_AGGREGATOR + LONG_AGGREGATOR,
        Some(_) => SHORT_AGGREGATOR,
    }
}

fn others_len(others: &[RawAttr]) -> usize
    ensures { result ≡ min (sum_by (λ other. attr_size_of (length other.bytes)) others.now) (2 ^ 64 - 1) }
{
    let mut octets = 0usize;
    for other in others {
        octets = octets.saturating_add(attr_len(other.bytes.len()));
    }
    octets
}

fn med_len(med: Option<u32>) -> usize
    ensures { result ≡ attrs_size (med_written med) }
{
    match med {
        Some(_) => MED,
        None => 0,
    }
}

fn atomic_len(atomic: bool) -> usize
    ensures { result ≡ attrs_size (atomic_written atomic) }
{
    if atomic { ATOMIC } else { 0 }
}

/// Returns the length of the attributes of an announcement.
#[tactic(auto, using(crate::proofs::Lengths::spelled_attrs_size))]
fn attrs_len(attrs: &Attrs, wide: bool) -> usize
    ensures { result ≡ min (length (spell_attrs wide attrs.now)) (2 ^ 64 - 1) }
{
    (ORIGIN_AND_NEXT_HOP + med_len(attrs.med) + atomic_len(attrs.atomic))
        .saturating_add(aggregator_len(&attrs.aggregator, wide))
        .saturating_add(path_len(&attrs.path, wide))
        .saturating_add(as4_path_len(&attrs.path, wide))
        .saturating_add(others_len(&attrs.unknown))
}

fn caps_len(caps: &[Cap]) -> usize
    ensures { result ≡ min (sum_by cap_size caps.now) (2 ^ 64 - 1) }
{
    let mut octets = 0usize;
    for cap in caps {
        octets = octets.saturating_add(cap.bytes.len().saturating_add(4));
    }
    octets
}

fn some_attrs_len(attrs: Option<&Attrs>, wide: bool) -> usize
    ensures { result ≡ min (length (spell_some_attrs wide (option_copied attrs.entry))) (2 ^ 64 - 1) }
{
    match attrs {
        Some(attrs) => attrs_len(attrs, wide),
        None => 0,
    }
}

/// Returns the number of octets of the UPDATE message (RFC 4271, section 4.3) with these fields, counted as
/// `message_len` does. It allocates nothing.
#[tactic(auto, using(crate::proofs::Lengths::update_size))]
pub fn update_len(withdrawn: &[Prefix], attrs: Option<&Attrs>, nlri: &[Prefix], wide: bool) -> usize
    ensures { result
        ≡ min (length (spell (UpdateMsg (record { withdrawn = withdrawn.now; attrs = option_copied attrs.entry; nlri = nlri.now })) wide)) (2 ^ 64 - 1) }
{
    prefixes_len(withdrawn)
        .saturating_add(some_attrs_len(attrs, wide))
        .saturating_add(prefixes_len(nlri))
        .saturating_add(HEADER + LENGTHS)
}

/// Returns the number of octets in the written form of a message, in the given width of AS numbers. A
/// field counts with its octets even if its number doesn't fit. A length above the greatest `usize` is
/// given as that number. It allocates nothing.
#[tactic(auto, using(crate::proofs::Lengths::caps_size, crate::proofs::Lengths::framed_size), unfolding(crate::specs::Spelling::spell))]
pub fn message_len(message: &Message, wide: bool) -> usize
    ensures { result ≡ min (length (spell message.now wide)) (2 ^ 64 - 1) }
{
    match message {
        Message::OpenMsg(open) => caps_len(&open.caps).saturating_add(HEADER + OPEN_FIELDS),
        Message::UpdateMsg(update) => update_len(
            &update.withdrawn,
            update.attrs.as_ref(),
            &update.nlri,
            wide,
        ),
        Message::NoticeMsg(notice) => notice.info.len().saturating_add(HEADER + CODES),
        Message::KeepaliveMsg => HEADER,
    }
}
