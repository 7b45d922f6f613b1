//! Random numbers that are the same in each run.

ghost use Rattle.std.specs.Prelude.{◌<◌, ◌≡◌};

/// A linear congruential generator modulo 2^64, with the constants of Knuth's MMIX. Only the upper bits are used.
#[derive(Debug, Drop)]
pub struct Random(u64);

impl Random {
    pub fn new(seed: u32) -> Random {
        Random(u64::from(seed))
    }

    /// Returns a number below `limit`; 0 if that is 0.
    pub fn below(&mut self, limit: u32) -> u32
        ensures below { 0 < limit → result < limit }
        ensures zero { limit ≡ 0 → result ≡ 0 }
    {
        self.0 = self
            .0
            .wrapping_mul(6_364_136_223_846_793_005)
            .wrapping_add(1_442_695_040_888_963_407);
        (self.0 >> 33) as u32 % limit.max(1)
    }
}
