//! Prefixes of addresses (RFC 4271, section 4.3; RFC 4632).

ghost use Rattle.std.specs.Prelude.{◌≡◌, ◌↔◌, ◌≤◌, ◌<◌, ◌^◌, IsTrue, IsSome, IfSome};
ghost use Rattle.bgp_types.specs.Prefixes.{IsPrefix, Covers, prefix_of, cleared};

use graft_edge::{Items, NoMemory, TryCopy};
use std::marker::Model;

/// An address prefix: all addresses that begin with the first `len` bits of `address`, whose other bits
/// are 0. Prefixes are ordered by address, and then by length.
#[derive(Clone, Copy, Debug, PartialEq, Eq, PartialOrd, Ord, Hash)]
pub struct Prefix {
    address: u32,
    len: u8,
}

/// A list of prefixes.
pub type PrefixList = Items<Prefix>;

impl Model for Prefix {
    ghost use Rattle.bgp_types.specs.Prefixes.{PrefixValue, IsPrefix, cleared};

    ghost Value = { PrefixValue };

    ghost view = { λ p. record { address = p.address; len = p.len } };

    ghost invariant = { λ p. IsPrefix (record { address = p.address; len = p.len }) };

    ghost inverse = { λ p. record { address = p.address; len = p.len } };
}

/// Returns the address with the bits past the first `len` cleared.
fn without_rest(address: u32, len: u8) -> u32
    requires { len ≤ 32 }
    ensures { result ≡ cleared len address }
{
    if len == 0 {
        return 0;
    }
    let rest = 32 - u32::from(len);
    address >> rest << rest
}

impl Prefix {
    /// Returns the prefix of this length that an address begins with; the bits past the length are
    /// cleared. Returns `None` for a length above 32.
    pub fn new(address: u32, len: u8) -> Option<Prefix>
        ensures some { IsSome result ↔ (len ≤ 32) }
        ensures value { IfSome result (λ p. p ≡ prefix_of len address) }
    {
        if len > 32 {
            return None;
        }
        Some(Prefix {
            address: without_rest(address, len),
            len,
        })
    }

    /// Returns the first address.
    pub fn address(self) -> u32
        ensures value { result ≡ self.address }
        ensures sound { IsPrefix self }
    {
        self.address
    }

    /// Returns the number of leading bits that its addresses share.
    pub fn len(self) -> u8
        ensures value { result ≡ self.len }
        ensures sound { IsPrefix self }
    {
        self.len
    }

    /// Whether each address of the other prefix is in this one.
    pub fn covers(&self, other: &Prefix) -> bool
        ensures { IsTrue result ↔ Covers self.now other.now }
    {
        self.len <= other.len && without_rest(other.address, self.len) == self.address
    }
}

impl TryCopy for Prefix {
    fn copy(&self) -> Result<Prefix, NoMemory> {
        Ok(*self)
    }
}
