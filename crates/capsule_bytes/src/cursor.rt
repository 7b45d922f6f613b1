//! Octets that are read from the left, field by field.

ghost use Rattle.std.specs.Prelude.{◌≡◌, ◌<◌, ◌^◌, ◌∷◌, [], ℕ, true, length, IfOk, IfErr};
ghost use Rattle.std.specs.Int.{w8, w16, w32, is_in_range};
ghost use Rattle.capsule_bytes.specs.Fields.{Field, any_number, number, flag, octets_where, text as text_fields};
ghost use Rattle.capsule_bytes.specs.Stops.{Passes, Reads, StopsAt, all_unread};

use crate::stop::CapsuleStop;
use graft_edge::Octets;
use std::alloc::Global;
use std::marker::Model;

/// The octets that aren't read yet, and the place where they begin.
#[derive(Drop)]
pub(crate) struct Cursor<'a> {
    left: &'a [u8],
    place: u32,
}

impl<'a> Model for Cursor<'a> {
    ghost use Rattle.std.specs.Prelude.{◌+◌, ◌<◌, ◌^◌, length};
    ghost use Rattle.capsule_bytes.specs.Stops.{Unread};

    ghost Value = { Unread };

    ghost view = { λ cursor. record { octets = cursor.left.now; place = cursor.place } };

    ghost invariant = { λ cursor. cursor.place + length cursor.left.now < 2 ^ 32 };
}

impl<'a> Cursor<'a> {
    /// Returns a cursor at the first of some octets.
    pub(crate) fn new(bytes: &'a [u8]) -> Cursor<'a>
        requires { length bytes.now < 2 ^ 32 }
        ensures { result ≡ all_unread bytes.now }
    {
        Cursor {
            left: bytes,
            place: 0,
        }
    }

    /// Returns the place of the next octet.
    pub(crate) fn place(&self) -> u32
        ensures { result ≡ self.now.place }
    {
        self.place
    }

    /// Returns the octets that aren't read yet.
    pub(crate) fn left(&self) -> &[u8]
        ensures { result.now ≡ self.now.octets }
    {
        self.left
    }

    /// Takes the next `size` octets.
    pub(crate) fn take(&mut self, size: usize) -> Result<&'a [u8], CapsuleStop>
        ensures size { IfOk result (λ octets. length octets.now ≡ size) }
        ensures passed { IfOk result (λ octets. Passes (octets_where (λ _. true) octets.now ∷ []) self.old self.new) }
        ensures stops { (field : Field) → length field.octets ≡ size → IfErr result (λ stop. StopsAt field self.old stop) }
    {
        if self.left.len() < size {
            return Err(CapsuleStop::Cut(self.place));
        }
        let (octets, left) = self.left.split_at(size);
        self.left = left;
        self.place += size as u32;
        Ok(octets)
    }

    /// Takes an octet.
    pub(crate) fn read_u8(&mut self) -> Result<u8, CapsuleStop>
        ensures passed { IfOk result (λ n. Passes (any_number w8 n ∷ []) self.old self.new) }
        ensures stops { (field : Field) → length field.octets ≡ 1 → IfErr result (λ stop. StopsAt field self.old stop) }
    {
        let octets = self.take(1)?;
        Ok(octets[0])
    }

    /// Takes a number of two octets.
    pub(crate) fn read_u16(&mut self) -> Result<u16, CapsuleStop>
        ensures passed { IfOk result (λ n. Passes (any_number w16 n ∷ []) self.old self.new) }
        ensures stops { (field : Field) → length field.octets ≡ 2 → IfErr result (λ stop. StopsAt field self.old stop) }
    {
        let octets = self.take(2)?;
        Ok(u16::from_be_bytes([octets[0], octets[1]]))
    }

    /// Takes a number of four octets.
    pub(crate) fn read_u32(&mut self) -> Result<u32, CapsuleStop>
        ensures passed { IfOk result (λ n. Passes (any_number w32 n ∷ []) self.old self.new) }
        ensures stops { (field : Field) → length field.octets ≡ 4 → IfErr result (λ stop. StopsAt field self.old stop) }
    {
        let octets = self.take(4)?;
        Ok(u32::from_be_bytes([octets[0], octets[1], octets[2], octets[3]]))
    }

    /// Takes an octet that is at least `least` and at most `most`.
    pub(crate) fn read_u8_within(&mut self, least: u8, most: u8) -> Result<u8, CapsuleStop>
        ensures passed { IfOk result (λ n. Passes (number w8 (is_in_range least most) n ∷ []) self.old self.new) }
        ensures stops { (n : ℕ) → IfErr result (λ stop. StopsAt (number w8 (is_in_range least most) n) self.old stop) }
    {
        let place = self.place;
        let n = self.read_u8()?;
        if n < least || most < n {
            return Err(CapsuleStop::Value(place));
        }
        Ok(n)
    }

    /// Takes a flag.
    pub(crate) fn read_flag(&mut self) -> Result<bool, CapsuleStop>
        ensures { Reads (λ b. flag b ∷ []) result self.old self.new }
    {
        let n = self.read_u8_within(0, 1)?;
        Ok(n == 1)
    }

    /// Takes a copy of the next `size` octets.
    pub(crate) fn read_octets(&mut self, alloc: Global, size: usize) -> Result<Octets, CapsuleStop>
        ensures size { IfOk result (λ octets. length octets ≡ size) }
        ensures passed { IfOk result (λ octets. Passes (octets_where (λ _. true) octets ∷ []) self.old self.new) }
        ensures stops { (field : Field) → length field.octets ≡ size → IfErr result (λ stop. StopsAt field self.old stop) }
    {
        let octets = self.take(size)?;
        Ok(Octets::from_slice(alloc, octets)?)
    }

    /// Takes octets behind their number, which has four octets.
    pub(crate) fn read_text(&mut self, alloc: Global) -> Result<Octets, CapsuleStop>
        ensures { Reads (text_fields w32) result self.old self.new }
    {
        let size = self.read_u32()?;
        self.read_octets(alloc, size as usize)
    }

    /// Takes octets behind their number, which has two octets.
    pub(crate) fn read_short_text(&mut self, alloc: Global) -> Result<Octets, CapsuleStop>
        ensures { Reads (text_fields w16) result self.old self.new }
    {
        let size = self.read_u16()?;
        self.read_octets(alloc, usize::from(size))
    }
}
