//! What holds of messages that are written.

ghost use Rattle.std.specs.Prelude.{◌≡◌, ◌≤◌, ◌↔◌, ℕ, List, [], length, Bool, Some, Ok};
ghost use Rattle.bgp_types.specs.declared.fault.Expected.{Expected};
ghost use Rattle.bgp_types.specs.declared.message.Message.{Message};
ghost use Rattle.bgp_types.specs.Expect.{IsExpected};
ghost use Rattle.bgp_types.specs.FirstFault.{message_of};
ghost use Rattle.bgp_types.specs.Header.{frame_at};
ghost use Rattle.bgp_types.specs.OctetLists.{AreOctets};
ghost use Rattle.bgp_types.specs.Reads.{Reads};
ghost use Rattle.bgp_types.specs.Spelling.{spell};
ghost use Rattle.bgp_types.specs.Writable.{IsWritable};
ghost use Rattle.bgp_wire.specs.Written.{written_limit};

/// The written form of a message reads as that message, in a session of its width that expects it.
pub fn written_message_reads()
    ensures { (message : Message) (expected : Expected) → IsWritable message expected.wide
        → IsExpected expected message → message_of expected (spell message expected.wide) ≡ Ok message }
{}

/// A message that was read is writable in each width of AS numbers if and only if its written form
/// fits: in 4,096 octets, and for an OPEN in 284, since each of its capabilities is written in a
/// parameter of its own.
pub fn read_message_is_writable()
    ensures any_spelling { (frame : List ℕ) (message : Message) (wide : Bool) (other : Bool) → AreOctets frame
        → Reads frame message wide → (IsWritable message other ↔ (length (spell message other) ≤ written_limit message)) }
    ensures answered { (frame : List ℕ) (expected : Expected) (message : Message) (other : Bool) → AreOctets frame → frame_at frame ≡ Some (frame, [])
        → message_of expected frame ≡ Ok message → (IsWritable message other ↔ (length (spell message other) ≤ written_limit message)) }
{}
