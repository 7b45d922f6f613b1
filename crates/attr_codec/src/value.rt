//! Reads one attribute, or finds its fault (RFC 4271, section 6.3).

ghost use Rattle.std.specs.Prelude.{◌≡◌, ◌==◌, ◌+◌, bit_and, length, not, Some, IfOk};
ghost use Rattle.std.specs.Int.{byte_len};
ghost use Rattle.bgp_types.specs.Faults.{about, fault_in, is_partial, is_transitive, origin_in, path_in, next_hop_in};
ghost use Rattle.bgp_types.specs.Faults.{med_in, atomic_in, aggregator_of, aggregator_in, other_in};
ghost use Rattle.bgp_types.specs.Found.{as4_path_in, as4_aggregator_in, unless_wide};
ghost use Rattle.bgp_types.specs.PathOctets.{as_width};
ghost use Rattle.bgp_types.specs.WireAttrs.{attr_octets};
ghost use Rattle.attr_codec.specs.Decoding.{Stops, Decodes, PassesOrStops};
ghost use Rattle.attr_codec.specs.Pieces.{wire, IsPiece};

use crate::fault::{CodecFault, bare_fault, fault_about};
use crate::number::as_in;
use crate::path::path_in;
use crate::piece::Piece;
use bgp_types::{Aggregator, AsPath, NoMemory, Octets, Origin, RawAttr, as_size, is_no_host};
use byteorder::{BigEndian, ByteOrder};
use std::alloc::Global;

pub const OPTIONAL: u8 = 0x80;

pub const TRANSITIVE: u8 = 0x40;

pub const PARTIAL: u8 = 0x20;

/// The subcodes of the faults whose data is the attribute.
const UNKNOWN_WELL_KNOWN: u8 = 2;

const WRONG_FLAGS: u8 = 4;

const WRONG_LENGTH: u8 = 5;

const WRONG_ORIGIN: u8 = 6;

const WRONG_NEXT_HOP: u8 = 8;

/// The subcode of a malformed AS_PATH, which has no data.
const MALFORMED_PATH: u8 = 11;

impl Piece<'_> {
    /// Returns a fault with the attribute as its data.
    fn fault(&self, alloc: Global, subcode: u8) -> CodecFault
        requires { IsPiece self.now }
        ensures { Stops result (Some (about subcode (attr_octets (wire self.now)))) }
    {
        fault_about(alloc, subcode, self.octets)
    }

    /// Whether the optional and transitive flags are these.
    fn has_mode(&self, mode: u8) -> bool
        ensures { result ≡ (bit_and self.now.flags 192 == mode) }
    {
        self.flags & (OPTIONAL | TRANSITIVE) == mode
    }

    fn is_transitive(&self) -> bool
        ensures { result ≡ is_transitive (wire self.now) }
    {
        self.flags & TRANSITIVE != 0
    }

    fn is_partial(&self) -> bool
        ensures { result ≡ is_partial (wire self.now) }
    {
        self.flags & PARTIAL != 0
    }

    /// Reads the origin in an ORIGIN.
    #[tactic(auto, unfolding(bgp_types::specs::Faults::origin_in))]
    pub fn origin(&self, alloc: Global) -> Result<Origin, CodecFault>
        requires { IsPiece self.now }
        ensures { Decodes result (origin_in (wire self.now)) }
    {
        if !self.has_mode(TRANSITIVE) {
            return Err(self.fault(alloc, WRONG_FLAGS));
        }
        let [origin] = self.value else {
            return Err(self.fault(alloc, WRONG_LENGTH));
        };
        match *origin {
            0 => Ok(Origin::Igp),
            1 => Ok(Origin::Egp),
            2 => Ok(Origin::Incomplete),
            _ => Err(self.fault(alloc, WRONG_ORIGIN)),
        }
    }

    /// Reads the path in an AS_PATH.
    #[tactic(auto, unfolding(bgp_types::specs::Faults::path_in))]
    pub fn path(&self, alloc: Global, wide: bool) -> Result<AsPath, CodecFault>
        requires { IsPiece self.now }
        ensures { Decodes result (path_in wide (wire self.now)) }
    {
        if !self.has_mode(TRANSITIVE) {
            return Err(self.fault(alloc, WRONG_FLAGS));
        }
        match path_in(alloc, wide, self.value)? {
            Some(path) => Ok(path),
            None => Err(bare_fault(alloc, MALFORMED_PATH)),
        }
    }

    /// Reads the address in a NEXT_HOP.
    #[tactic(auto, unfolding(bgp_types::specs::Faults::next_hop_in))]
    pub fn next_hop(&self, alloc: Global) -> Result<u32, CodecFault>
        requires { IsPiece self.now }
        ensures { Decodes result (next_hop_in (wire self.now)) }
    {
        if !self.has_mode(TRANSITIVE) {
            return Err(self.fault(alloc, WRONG_FLAGS));
        }
        if self.value.len() != 4 {
            return Err(self.fault(alloc, WRONG_LENGTH));
        }
        let address = BigEndian::read_u32(self.value);
        if is_no_host(address) {
            return Err(self.fault(alloc, WRONG_NEXT_HOP));
        }
        Ok(address)
    }

    /// Reads the number in a MULTI_EXIT_DISC.
    #[tactic(auto, unfolding(bgp_types::specs::Faults::med_in))]
    pub fn med(&self, alloc: Global) -> Result<u32, CodecFault>
        requires { IsPiece self.now }
        ensures { Decodes result (med_in (wire self.now)) }
    {
        if !self.has_mode(OPTIONAL) {
            return Err(self.fault(alloc, WRONG_FLAGS));
        }
        if self.value.len() != 4 {
            return Err(self.fault(alloc, WRONG_LENGTH));
        }
        Ok(BigEndian::read_u32(self.value))
    }

    /// Checks an ATOMIC_AGGREGATE.
    #[tactic(auto, unfolding(bgp_types::specs::Faults::atomic_in))]
    pub fn atomic(&self, alloc: Global) -> Result<(), CodecFault>
        requires { IsPiece self.now }
        ensures { PassesOrStops result (fault_in (atomic_in (wire self.now))) }
    {
        if !self.has_mode(TRANSITIVE) {
            return Err(self.fault(alloc, WRONG_FLAGS));
        }
        if !self.value.is_empty() {
            return Err(self.fault(alloc, WRONG_LENGTH));
        }
        Ok(())
    }

    /// Reads the values of an AGGREGATOR of the right length.
    fn aggregator_value(&self, wide: bool) -> Aggregator
        requires { length self.now.value.now ≡ byte_len (as_width wide) + 4 }
        ensures { result ≡ aggregator_of wide (wire self.now) }
    {
        let (as_number, address) = self.value.split_at(as_size(wide));
        Aggregator {
            as_number: as_in(wide, as_number),
            address: BigEndian::read_u32(address),
            partial: self.is_partial(),
        }
    }

    /// Reads the speaker in an AGGREGATOR.
    #[tactic(auto, unfolding(bgp_types::specs::Faults::aggregator_in))]
    pub fn aggregator(&self, alloc: Global, wide: bool) -> Result<Aggregator, CodecFault>
        requires { IsPiece self.now }
        ensures { Decodes result (aggregator_in wide (wire self.now)) }
    {
        if !self.has_mode(OPTIONAL | TRANSITIVE) {
            return Err(self.fault(alloc, WRONG_FLAGS));
        }
        if self.value.len() != as_size(wide) + 4 {
            return Err(self.fault(alloc, WRONG_LENGTH));
        }
        Ok(self.aggregator_value(wide))
    }

    /// Checks that an attribute of a type that isn't well-known is optional.
    #[tactic(auto, unfolding(bgp_types::specs::Faults::other_in))]
    pub fn optional(&self, alloc: Global) -> Result<(), CodecFault>
        requires { IsPiece self.now }
        ensures { PassesOrStops result (fault_in (other_in (wire self.now))) }
    {
        if self.flags & OPTIONAL == 0 {
            return Err(self.fault(alloc, UNKNOWN_WELL_KNOWN));
        }
        Ok(())
    }

    /// Reads an attribute of an unknown type. Returns `None` if it isn't kept.
    #[tactic(auto, unfolding(bgp_types::specs::Faults::other_in))]
    pub fn other(&self, alloc: Global) -> Result<Option<RawAttr>, CodecFault>
        requires { IsPiece self.now }
        ensures { Decodes result (other_in (wire self.now)) }
    {
        if self.flags & OPTIONAL == 0 {
            return Err(self.fault(alloc, UNKNOWN_WELL_KNOWN));
        }
        if !self.is_transitive() {
            return Ok(None);
        }
        Ok(Some(RawAttr {
            kind: self.kind,
            partial: self.is_partial(),
            bytes: Octets::from_slice(alloc, self.value)?,
        }))
    }

    /// Reads the path of an AS4_PATH. Returns `None` in a wide UPDATE, and if the attribute isn't
    /// transitive, is empty or is malformed.
    pub fn as4_path(&self, alloc: Global, wide: bool) -> Result<Option<AsPath>, NoMemory>
        ensures { IfOk result (λ path. path ≡ unless_wide wide (as4_path_in (Some (wire self.now)))) }
    {
        if wide || !self.is_transitive() {
            return Ok(None);
        }
        match path_in(alloc, true, self.value)? {
            Some(path) if !path.is_empty() => Ok(Some(path)),
            _ => Ok(None),
        }
    }

    /// Reads the speaker of an AS4_AGGREGATOR. Returns `None` in a wide UPDATE, and if the attribute
    /// isn't transitive or its length isn't 8.
    pub fn as4_aggregator(&self, wide: bool) -> Option<Aggregator>
        ensures { result ≡ unless_wide wide (as4_aggregator_in (Some (wire self.now))) }
    {
        if wide || !self.is_transitive() || self.value.len() != 8 {
            return None;
        }
        Some(self.aggregator_value(true))
    }
}
