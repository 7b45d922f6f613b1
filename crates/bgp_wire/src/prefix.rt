//! Fields of prefixes (RFC 4271, section 4.3).

ghost use Rattle.std.specs.Prelude.{◌≡◌, ◌<◌, ◌≤◌, ◌++◌, length, filter, not, IfOk, OnOk, IfSome};
ghost use Rattle.std.specs.Option.{option_map};
ghost use Rattle.bgp_types.specs.Prefixes.{octets_for, address_of, prefix_octets, prefixes_of};
ghost use Rattle.bgp_types.specs.Spelling.{spell_prefixes};
ghost use Rattle.bgp_types.specs.UpdateBody.{apart};
ghost use Rattle.bgp_wire.specs.Fields.{front_said};
ghost use Rattle.bgp_wire.specs.Sets.{has};

use crate::set::{SeenPrefixes, put_once};
use bgp_types::{NoMemory, Octets, Prefix, PrefixList};
use byteorder::{BigEndian, ByteOrder};
use std::alloc::Global;

/// Returns how many octets hold this many bits.
fn size_of(len: u8) -> usize
    ensures { result ≡ octets_for len }
{
    usize::from(len).div_ceil(8)
}

/// Returns the address that begins with these octets.
fn address_in(octets: &[u8]) -> u32
    requires { length octets.now ≤ 4 }
    ensures { result ≡ address_of octets.now }
{
    let mut address = [0u8; 4];
    let (front, _) = address.split_at_mut(octets.len());
    front.copy_from_slice(octets);
    BigEndian::read_u32(&address)
}

/// Returns the prefix at the front, and the octets after it.
#[tactic(auto, unfolding(bgp_types::specs::Prefixes::prefix_at))]
fn prefix_in(octets: &[u8]) -> Option<(Prefix, &[u8])>
    ensures prefix { option_map (λ x. (x.0, x.1.now)) result ≡ front_said octets.now }
    ensures shorter { IfSome result (λ x. length x.1.now < length octets.now) }
{
    let [len, rest @ ..] = octets else {
        return None;
    };
    let size = size_of(*len);
    if *len > 32 || rest.len() < size {
        return None;
    }
    let (front, after) = rest.split_at(size);
    let prefix = Prefix::new(address_in(front), *len)?;
    Some((prefix, after))
}

/// Reads the prefixes of a field, each once, where it first stands. Returns `None` if the field is
/// malformed.
pub fn prefixes_in(alloc: Global, field: &[u8]) -> Result<Option<PrefixList>, NoMemory>
    ensures { IfOk result (λ found. found ≡ prefixes_of field.now) }
{
    let mut set = SeenPrefixes::new(alloc);
    let mut prefixes = PrefixList::new(alloc);
    let mut rest = field;
    while !rest.is_empty() {
        let Some((prefix, after)) = prefix_in(rest) else {
            return Ok(None);
        };
        put_once(&mut set, &mut prefixes, prefix)?;
        rest = after;
    }
    Ok(Some(prefixes))
}

/// Returns the prefixes that aren't in a set, in their order.
fn outside(alloc: Global, prefixes: &[Prefix], set: &SeenPrefixes) -> Result<PrefixList, NoMemory>
    ensures { IfOk result (λ list. list ≡ filter (λ p. not (has set.now p)) prefixes.now) }
{
    let mut list = PrefixList::new(alloc);
    for prefix in prefixes {
        if !set.has(*prefix) {
            list.push(*prefix)?;
        }
    }
    Ok(list)
}

/// Returns the prefixes that aren't among others, in their order. If memory runs out, the list is lost.
pub fn apart_from(
    alloc: Global,
    prefixes: PrefixList,
    others: &[Prefix],
) -> Result<PrefixList, NoMemory>
    ensures { IfOk result (λ list. list ≡ apart prefixes others.now) }
{
    if prefixes.is_empty() {
        return Ok(prefixes);
    }
    let set = SeenPrefixes::of(alloc, others)?;
    outside(alloc, &prefixes, &set)
}

/// Appends a prefix: its length, and the fewest octets that hold that many bits.
fn put_prefix(out: &mut Octets, prefix: Prefix) -> Result<(), NoMemory>
    ensures { OnOk result (out.new ≡ out.old ++ prefix_octets prefix) }
{
    let len = prefix.len();
    let address = prefix.address().to_be_bytes();
    out.push(len)?;
    out.extend(&address[..size_of(len)])
}

/// Returns the octets of prefixes, one after another.
pub fn prefixes_out(alloc: Global, prefixes: &[Prefix]) -> Result<Octets, NoMemory>
    ensures { IfOk result (λ octets. octets ≡ spell_prefixes prefixes.now) }
{
    let mut out = Octets::new(alloc);
    for prefix in prefixes {
        put_prefix(&mut out, *prefix)?;
    }
    Ok(out)
}
