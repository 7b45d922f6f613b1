//! Addresses and prefixes as text.

ghost use Rattle.std.specs.Prelude.{◌≡◌, ◌↔◌, IsTrue, Some};
ghost use Rattle.bgp_types.specs.Finds.{Finds};
ghost use Rattle.bgp_types.specs.Prefixes.{IsPrefix};
ghost use Rattle.bgp_types.specs.Values.{is_no_host};
ghost use Rattle.bgp_types.specs.Texts.{IsAddressText, IsPrefixText, IsLengthText, IsHost, BeginsPlainly, address_text, prefix_text};

use crate::prefix::Prefix;
use std::fmt;
use std::net::Ipv4Addr;

/// Reads an address: four decimals from 0 to 255 without leading zeros, joined by dots.
pub fn read_address(text: &str) -> Option<u32>
    ensures { Finds (IsAddressText text.now) result }
{
    match text.parse::<Ipv4Addr>() {
        Ok(address) => Some(address.to_bits()),
        Err(_) => None,
    }
}

/// Whether an address is none of a host: it is 0.0.0.0, or its first octet is 224 or above.
pub fn is_no_host(address: u32) -> bool
    ensures { result ≡ is_no_host address }
{
    address == 0 || address >= 0xE000_0000
}

/// Whether a host may have the address: it isn't 0.0.0.0, and its first octet is below 224.
pub fn is_host(address: u32) -> bool
    ensures { IsTrue result ↔ IsHost address }
{
    !is_no_host(address)
}

/// Whether a text begins like a decimal without a sign or leading zeros.
fn begins_plainly(text: &str) -> bool
    ensures { IsTrue result ↔ BeginsPlainly text.now }
{
    match text.as_bytes() {
        [b'0'] => true,
        [first, ..] => (b'1'..=b'9').contains(first),
        [] => false,
    }
}

/// Reads the length of a prefix: a decimal from 0 to 32 without a sign or leading zeros.
fn read_length(text: &str) -> Option<u8>
    ensures { Finds (IsLengthText text.now) result }
{
    match text.parse::<u8>() {
        Ok(len) if len <= 32 && begins_plainly(text) => Some(len),
        _ => None,
    }
}

/// Reads a prefix: an address, a slash and a length. The bits of the address past the length are
/// cleared.
pub fn read_prefix(text: &str) -> Option<Prefix>
    ensures { Finds (IsPrefixText text.now) result }
{
    let (address, len) = text.split_once('/')?;
    let address = read_address(address)?;
    let len = read_length(len)?;
    Prefix::new(address, len)
}

/// An address as it is printed: four decimals, joined by dots.
#[derive(Clone, Copy, Debug, PartialEq, Eq, PartialOrd, Ord, Hash)]
pub struct Address(pub u32);

impl fmt::Display for Address {
    ghost output = { λ a. Some (address_text a.0) };

    fn fmt<W: fmt::Write>(&self, f: &mut fmt::Formatter<W>) -> fmt::Result {
        let address = Ipv4Addr::from_bits(self.0);
        write!(f, "{address}")
    }
}

impl fmt::Display for Prefix {
    ghost output = { λ p. Some (prefix_text p) };

    fn fmt<W: fmt::Write>(&self, f: &mut fmt::Formatter<W>) -> fmt::Result {
        let address = Address(self.address());
        let len = self.len();
        write!(f, "{address}/{len}")
    }
}
