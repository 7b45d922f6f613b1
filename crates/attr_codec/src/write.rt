//! Writes attributes in ascending order of type.

ghost use Rattle.std.specs.Prelude.{◌≡◌, ◌^◌, ◌<◌, ◌≤◌, ◌++◌, ◌∷◌, [], length, map, take, drop, Bool, true, All, IfOk, OnOk};
ghost use Rattle.std.specs.List.{flat_map, list_any};
ghost use Rattle.std.specs.Int.{to_be_bytes};
ghost use Rattle.bgp_types.specs.declared.attrs.RawAttr.{RawAttr};
ghost use Rattle.bgp_types.specs.Paths.{ases_of};
ghost use Rattle.bgp_types.specs.PathOctets.{as_width, path_octets, path_in_width, is_long_as, has_long_as};
ghost use Rattle.bgp_types.specs.Rising.{IsRising};
ghost use Rattle.bgp_types.specs.Spelling.{origin_number, med_written, atomic_written, passed_flags, aggregator_octets};
ghost use Rattle.bgp_types.specs.Spelling.{aggregator_written, as4_path_written, as4_aggregator_written, other_written, spell_attrs};
ghost use Rattle.bgp_types.specs.Values.{other_kind};
ghost use Rattle.bgp_types.specs.WireAttrs.{attr_octets, written};
ghost use Rattle.bgp_types.specs.Writable.{IsOther};
ghost use Rattle.attr_codec.specs.Fields.{FitsField};
ghost use Rattle.attr_codec.specs.Writing.{AreFlags, as_in_width, as_octets, known_written, as4_written, NeedsLong, AreParts};

use crate::piece::EXTENDED;
use crate::value::{OPTIONAL, PARTIAL, TRANSITIVE};
use bgp_types::kinds::{
    AGGREGATOR, AS_PATH, AS4_AGGREGATOR, AS4_PATH, ATOMIC_AGGREGATE, MULTI_EXIT_DISC, NEXT_HOP,
    ORIGIN,
};
use bgp_types::{
    Aggregator, Attrs, NoMemory, Octets, Origin, PathPart, RawAttr, has_long_as, is_long_as,
    narrow_as,
};
use std::alloc::Global;

/// The greatest length that fits in one octet.
const MOST_SHORT: usize = 255;

/// Appends an attribute, with extended length only where its value has more than 255 octets.
fn put_attr(out: &mut Octets, flags: u8, kind: u8, value: &[u8]) -> Result<(), NoMemory>
    requires flags { AreFlags flags }
    requires size { length value.now < 2 ^ 16 }
    ensures { OnOk result (out.new ≡ out.old ++ attr_octets (written flags kind value.now)) }
{
    let size = value.len();
    if size > MOST_SHORT {
        out.push(flags + EXTENDED)?;
        out.push(kind)?;
        out.extend(&(size as u16).to_be_bytes())?;
    } else {
        out.push(flags)?;
        out.push(kind)?;
        out.push(size as u8)?;
    }
    out.extend(value)
}

/// Appends an AS; AS_TRANS stands for one that doesn't fit into two octets.
fn put_as(out: &mut Octets, as_number: u32, wide: bool) -> Result<(), NoMemory>
    ensures { OnOk result (out.new ≡ out.old ++ as_octets wide as_number) }
{
    if wide {
        return out.extend(&as_number.to_be_bytes());
    }
    out.extend(&narrow_as(as_number).to_be_bytes())
}

/// Appends a part of a path: its kind, its count, and its ASes.
fn put_part(out: &mut Octets, kind: u8, ases: &[u32], wide: bool) -> Result<(), NoMemory>
    requires { length ases.now < 256 }
    ensures { OnOk result (out.new ≡ out.old ++ kind ∷ length ases.now ∷ flat_map (as_octets wide) ases.now) }
{
    out.push(kind)?;
    out.push(ases.len() as u8)?;
    for as_number in ases {
        put_as(out, *as_number, wide)?;
    }
    Ok(())
}

/// Returns the value of an AS_PATH.
fn path_value(alloc: Global, path: &[PathPart], wide: bool) -> Result<Octets, NoMemory>
    requires { All (λ part. length (ases_of part) < 256) path.now }
    ensures { IfOk result (λ value. value ≡ path_octets wide (path_in_width wide path.now)) }
{
    let mut out = Octets::new(alloc);
    for part in path {
        match part {
            PathPart::Set(ases) => put_part(&mut out, 1, ases, wide)?,
            PathPart::Sequence(ases) => put_part(&mut out, 2, ases, wide)?,
        }
    }
    Ok(out)
}

/// Returns the octet of an origin.
fn origin_octet(origin: Origin) -> u8
    ensures { result ≡ origin_number origin }
{
    match origin {
        Origin::Igp => 0,
        Origin::Egp => 1,
        Origin::Incomplete => 2,
    }
}

/// Returns the flags of an optional transitive attribute.
fn passed(partial: bool) -> u8
    ensures value { result ≡ passed_flags partial }
    ensures flags { AreFlags result }
{
    if partial {
        OPTIONAL | TRANSITIVE | PARTIAL
    } else {
        OPTIONAL | TRANSITIVE
    }
}

/// Appends a MULTI_EXIT_DISC, if there is one.
fn put_med(out: &mut Octets, med: Option<u32>) -> Result<(), NoMemory>
    ensures { OnOk result (out.new ≡ out.old ++ flat_map attr_octets (med_written med)) }
{
    match med {
        Some(med) => put_attr(out, OPTIONAL, MULTI_EXIT_DISC, &med.to_be_bytes()),
        None => Ok(()),
    }
}

/// Appends an ATOMIC_AGGREGATE, if there is one.
fn put_atomic(out: &mut Octets, atomic: bool) -> Result<(), NoMemory>
    ensures { OnOk result (out.new ≡ out.old ++ flat_map attr_octets (atomic_written atomic)) }
{
    if !atomic {
        return Ok(());
    }
    put_attr(out, TRANSITIVE, ATOMIC_AGGREGATE, &[])
}

/// Returns the value of an AGGREGATOR.
fn aggregator_value(alloc: Global, aggregator: &Aggregator, wide: bool) -> Result<Octets, NoMemory>
    ensures { IfOk result (λ value. value ≡ aggregator_octets wide (as_in_width wide aggregator.now.as_number) aggregator.now.address) }
{
    let mut value = Octets::new(alloc);
    put_as(&mut value, aggregator.as_number, wide)?;
    value.extend(&aggregator.address.to_be_bytes())?;
    Ok(value)
}

/// Appends an AGGREGATOR, if there is one.
fn put_aggregator(
    alloc: Global,
    out: &mut Octets,
    aggregator: &Option<Aggregator>,
    wide: bool,
) -> Result<(), NoMemory>
    ensures { OnOk result (out.new ≡ out.old ++ flat_map attr_octets (aggregator_written wide aggregator.now)) }
{
    let Some(aggregator) = aggregator else {
        return Ok(());
    };
    let value = aggregator_value(alloc, aggregator, wide)?;
    put_attr(out, passed(aggregator.partial), AGGREGATOR, &value)
}

/// Appends an AS4_PATH, if an AS of the path needs one.
fn put_as4_path(
    alloc: Global,
    out: &mut Octets,
    path: &[PathPart],
    wide: bool,
) -> Result<(), NoMemory>
    requires counts { All (λ part. length (ases_of part) < 256) path.now }
    requires room { NeedsLong wide path.now → length (path_octets true path.now) < 2 ^ 16 }
    ensures { OnOk result (out.new ≡ out.old ++ flat_map attr_octets (as4_path_written wide path.now)) }
{
    if wide || !has_long_as(path) {
        return Ok(());
    }
    let value = path_value(alloc, path, true)?;
    put_attr(out, OPTIONAL | TRANSITIVE, AS4_PATH, &value)
}

/// Appends an AS4_AGGREGATOR, if the AS of an AGGREGATOR needs one.
fn put_as4_aggregator(
    alloc: Global,
    out: &mut Octets,
    aggregator: &Option<Aggregator>,
    wide: bool,
) -> Result<(), NoMemory>
    ensures { OnOk result (out.new ≡ out.old ++ flat_map attr_octets (as4_aggregator_written wide aggregator.now)) }
{
    let Some(aggregator) = aggregator else {
        return Ok(());
    };
    if wide || !is_long_as(aggregator.as_number) {
        return Ok(());
    }
    let value = aggregator_value(alloc, aggregator, true)?;
    put_attr(out, OPTIONAL | TRANSITIVE, AS4_AGGREGATOR, &value)
}

/// Appends attributes of unknown types.
fn put_others(out: &mut Octets, others: &[RawAttr]) -> Result<(), NoMemory>
    requires { All (λ other. length other.bytes < 2 ^ 16) others.now }
    ensures { OnOk result (out.new ≡ out.old ++ flat_map attr_octets (map other_written others.now)) }
{
    for other in others {
        put_attr(out, passed(other.partial), other.kind, &other.bytes)?;
    }
    Ok(())
}

/// Returns the number of attributes at the front whose type is below another.
fn count_below(others: &[RawAttr], kind: u8) -> usize
    requires { IsRising other_kind others.now }
    ensures within { result ≤ length others.now }
    ensures below { All (λ other. other.kind < kind) (take result others.now) }
    ensures above { All (λ other. kind ≤ other.kind) (drop result others.now) }
{
    let mut count = 0;
    for other in others {
        if other.kind >= kind {
            return count;
        }
        count += 1;
    }
    count
}

/// Returns the attributes of unknown types that are below the known ones, those between them and the
/// AS4 ones, and those above.
fn parts_of(others: &[RawAttr]) -> (&[RawAttr], &[RawAttr], &[RawAttr])
    requires rising { IsRising other_kind others.now }
    requires kinds { All IsOther others.now }
    ensures { AreParts others.now result.0.now result.1.now result.2.now }
{
    let (first, rest) = others.split_at(count_below(others, ORIGIN));
    let (middle, last) = rest.split_at(count_below(rest, AS4_PATH));
    (first, middle, last)
}

/// Appends the known attributes, except the AS4 ones.
fn put_known(alloc: Global, out: &mut Octets, attrs: &Attrs, wide: bool) -> Result<(), NoMemory>
    requires counts { All (λ part. length (ases_of part) < 256) attrs.now.path }
    requires room { length (path_octets wide (path_in_width wide attrs.now.path)) < 2 ^ 16 }
    ensures { OnOk result (out.new ≡ out.old ++ flat_map attr_octets (known_written wide attrs.now)) }
{
    put_attr(out, TRANSITIVE, ORIGIN, &[origin_octet(attrs.origin)])?;
    let path = path_value(alloc, &attrs.path, wide)?;
    put_attr(out, TRANSITIVE, AS_PATH, &path)?;
    put_attr(out, TRANSITIVE, NEXT_HOP, &attrs.next_hop.to_be_bytes())?;
    put_med(out, attrs.med)?;
    put_atomic(out, attrs.atomic)?;
    put_aggregator(alloc, out, &attrs.aggregator, wide)
}

/// Appends the AS4 attributes.
fn put_as4(alloc: Global, out: &mut Octets, attrs: &Attrs, wide: bool) -> Result<(), NoMemory>
    requires counts { All (λ part. length (ases_of part) < 256) attrs.now.path }
    requires room { NeedsLong wide attrs.now.path → length (path_octets true attrs.now.path) < 2 ^ 16 }
    ensures { OnOk result (out.new ≡ out.old ++ flat_map attr_octets (as4_written wide attrs.now)) }
{
    put_as4_path(alloc, out, &attrs.path, wide)?;
    put_as4_aggregator(alloc, out, &attrs.aggregator, wide)
}

/// Writes attributes in the given width of AS numbers, in their one written form, in ascending order of
/// type. They have to be attributes as `read_attrs` gives them in one of the two widths, and their
/// written form must have at most 65,535 octets. `read_attrs` reads it as the same attributes.
pub fn write_attrs(alloc: Global, attrs: &Attrs, wide: bool) -> Result<Octets, NoMemory>
    requires { FitsField attrs.now wide }
    ensures { IfOk result (λ octets. octets ≡ spell_attrs wide attrs.now) }
{
    let (first, middle, last) = parts_of(&attrs.unknown);
    let mut out = Octets::new(alloc);
    put_others(&mut out, first)?;
    put_known(alloc, &mut out, attrs, wide)?;
    put_others(&mut out, middle)?;
    put_as4(alloc, &mut out, attrs, wide)?;
    put_others(&mut out, last)?;
    Ok(out)
}
