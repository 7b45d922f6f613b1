//! Worked messages in words.

ghost use Rattle.std.specs.Prelude.{◌≡◌, map, true};
ghost use Rattle.message_words.specs.Messages.{message_words, read_words};
ghost use Rattle.message_words.specs.Worked.{worked_messages, worked_words, worked_expected, worked_faults, worked_fault_words};

/// Messages of each type in full, and octets in which a session that waits for the OPEN of its remote finds a fault.
pub fn worked_words()
    ensures messages { map (message_words true) worked_messages ≡ worked_words }
    ensures faults { map (read_words true worked_expected) worked_faults ≡ worked_fault_words }
{}
