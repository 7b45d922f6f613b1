//! A capture is read in one way.

ghost use Rattle.std.specs.Prelude.{◌≡◌, ℕ, List, Option};
ghost use Rattle.pcap_form.specs.Blocks.{Captured};
ghost use Rattle.captured_streams.specs.declared.streams.Streams.{Streams};
ghost use Rattle.captured_streams.specs.declared.stop.Hole.{Hole};
ghost use Rattle.captured_streams.specs.Readings.{IsHole, IsReading};

/// A capture has one reading at most, and one first hole at most, and where it has a hole it has no reading.
pub fn one_reading()
    ensures streams { (home : Option ℕ) (packets : List Captured) (one other : Streams) → IsReading home packets one
        → IsReading home packets other → one ≡ other }
    ensures sound { (home : Option ℕ) (packets : List Captured) (streams : Streams) (hole : Hole) → IsReading home packets streams
        → ¬ IsHole home packets hole }
    ensures hole { (home : Option ℕ) (packets : List Captured) (one other : Hole) → IsHole home packets one → IsHole home packets other → one ≡ other }
{}
