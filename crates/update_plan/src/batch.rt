//! What one UPDATE tells.

ghost use Rattle.std.specs.Prelude.{◌≡◌, ◌-◌, ◌^◌, min, MatchBool};
ghost use Rattle.session_value.specs.Cases.{update_for};
ghost use Rattle.update_plan.specs.Plans.{IsWritableFor, octets as octets_lem};

use crate::writable::are_writable;
use bgp_types::{Attrs, Items, PrefixList, Update, update_len};
use std::alloc::Global;

/// What one UPDATE tells: that prefixes have these attributes, or that they no longer have any.
#[derive(Debug, Drop)]
pub struct Batch {
    pub attrs: Option<Attrs>,
    pub prefixes: PrefixList,
}

impl Batch {
    /// Returns the UPDATE that tells it (RFC 4271, section 4.3).
    pub fn into_update(self, alloc: Global) -> Update
        ensures { result ≡ update_for self.attrs self.prefixes }
    {
        let Batch { attrs, prefixes } = self;
        match attrs {
            None => Update {
                withdrawn: prefixes,
                attrs: None,
                nlri: Items::new(alloc),
            },
            Some(attrs) => Update {
                withdrawn: Items::new(alloc),
                attrs: Some(attrs),
                nlri: prefixes,
            },
        }
    }

    /// Returns the number of octets of its UPDATE, in one of the widths of AS numbers. It takes time in
    /// proportion to what the UPDATE tells, and allocates nothing.
    pub fn octets(&self, wide: bool) -> usize
        ensures { result ≡ min (octets_lem wide self.now.attrs self.now.prefixes) (2 ^ 64 - 1) }
    {
        match &self.attrs {
            None => update_len(&self.prefixes, None, &[], wide),
            Some(attrs) => update_len(&[], Some(attrs), &self.prefixes, wide),
        }
    }

    /// Whether its attributes, if it has any, can be written: the parts of the path have 1 to 255 ASes
    /// each, the next hop is the address of a host, and the attributes of unknown types are in
    /// ascending order of type. It takes time in proportion to the attributes.
    pub fn is_writable(&self) -> bool
        ensures { MatchBool result (IsWritableFor self.now) (¬ IsWritableFor self.now) }
    {
        match &self.attrs {
            Some(attrs) => are_writable(attrs),
            None => true,
        }
    }
}
