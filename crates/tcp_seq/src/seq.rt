//! Sequence numbers.

ghost use Rattle.std.specs.Prelude.{◌≡◌, ◌<◌, ◌^◌};
ghost use Rattle.tcp_seq.specs.Numbers.{plus as plus_lem, offset_from as offset_from_lem};

/// The number of a byte in a stream. Numbers wrap around modulo 2^32, so they have no order of their
/// own: they are compared by their offset from another number (RFC 9293, section 3.4).
#[derive(Clone, Copy, Debug, PartialEq, Eq, Hash)]
pub struct Seq(pub u32);

impl Seq {
    /// Returns the number `n` after this one.
    pub fn plus(self, n: u32) -> Seq
        ensures { result.0 ≡ plus_lem self.0 n }
    {
        Seq(self.0.wrapping_add(n))
    }

    /// Returns how far this number is after `first`.
    pub fn offset_from(self, first: Seq) -> u32
        ensures { result ≡ offset_from_lem self.0 first.0 }
    {
        self.0.wrapping_sub(first.0)
    }
}
