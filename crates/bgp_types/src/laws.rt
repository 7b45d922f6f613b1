//! What holds of the definitions of texts and of the wire format, and of `==`.

ghost use Rattle.std.specs.Prelude.{◌≡◌, ◌↔◌, ◌<◌, ◌^◌, ℕ, List, [], Bool, Some, Ok, IsTrue};
ghost use Rattle.bgp_types.specs.declared.attrs.Attrs.{Attrs};
ghost use Rattle.bgp_types.specs.declared.attrs.Route.{Route};
ghost use Rattle.bgp_types.specs.declared.fault.Expected.{Expected};
ghost use Rattle.bgp_types.specs.declared.message.Message.{Message};
ghost use Rattle.bgp_types.specs.declared.message.Message.TheVariants.{NoticeMsg};
ghost use Rattle.bgp_types.specs.declared.message.Notice.{Notice};
ghost use Rattle.bgp_types.specs.Expect.{IsExpected};
ghost use Rattle.bgp_types.specs.FirstFault.{first_fault, message_of};
ghost use Rattle.bgp_types.specs.Header.{frame_at};
ghost use Rattle.bgp_types.specs.OctetLists.{AreOctets};
ghost use Rattle.bgp_types.specs.Prefixes.{PrefixValue, IsPrefix, EachOnce, once_after};
ghost use Rattle.bgp_types.specs.Reads.{Reads};
ghost use Rattle.bgp_types.specs.Spelling.{spell};
ghost use Rattle.bgp_types.specs.Texts.{IsAddressText, IsPrefixText, address_text, prefix_text};
ghost use Rattle.bgp_types.specs.Writable.{IsWritable};

use crate::{attrs, message};

/// Attributes, routes and messages are equal by `==` if and only if they are the same.
pub fn equal_is_same()
    ensures attrs { (a : Attrs) (b : Attrs) → IsTrue (⟦<attrs::Attrs as PartialEq>⟧.eq a b) ↔ (a ≡ b) }
    ensures route { (a : Route) (b : Route) → IsTrue (⟦<attrs::Route as PartialEq>⟧.eq a b) ↔ (a ≡ b) }
    ensures message { (a : Message) (b : Message) → IsTrue (⟦<message::Message as PartialEq>⟧.eq a b) ↔ (a ≡ b) }
{}

/// The text of an address is read as that address, and as no other.
pub fn printed_address_reads()
    ensures { (address other : ℕ) → address < 2 ^ 32 → IsAddressText (address_text address) other ↔ (other ≡ address) }
{}

/// The text of a prefix is read as that prefix, and as no other.
pub fn printed_prefix_reads()
    ensures { (p q : PrefixValue) → IsPrefix p → IsPrefixText (prefix_text p) q ↔ (q ≡ p) }
{}

/// The list that keeps each prefix where it first stands is the one list with the same members, each
/// once, in the order of their first indices.
pub fn each_prefix_once()
    ensures { (prefixes : List PrefixValue) (once : List PrefixValue) → (once ≡ once_after [] prefixes) ↔ EachOnce prefixes once }
{}

/// A frame reads as at most one message in a given width of AS numbers.
pub fn reads_once()
    ensures { (frame : List ℕ) (one : Message) (other : Message) (wide : Bool) → Reads frame one wide → Reads frame other wide → one ≡ other }
{}

/// A session takes a message from octets that are a whole frame with a sound header if and only if they
/// read as that message in the session's width of AS numbers and the session expects it.
pub fn reads_exactly()
    ensures { (frame : List ℕ) (expected : Expected) (message : Message) → AreOctets frame
        → ((frame_at frame ≡ Some (frame, [])) × (message_of expected frame ≡ Ok message)) ↔ (Reads frame message expected.wide × IsExpected expected message) }
{}

/// A message that is writable in a width of AS numbers has a written form that reads as itself.
pub fn written_reads()
    ensures { (message : Message) (wide : Bool) → IsWritable message wide → Reads (spell message wide) message wide }
{}

/// The NOTIFICATION that answers a fault is writable in both widths of AS numbers: its data fits.
pub fn fault_is_writable()
    ensures { (frame : List ℕ) (expected : Expected) (notice : Notice) (wide : Bool)
        → first_fault frame expected ≡ Some notice → IsWritable (NoticeMsg notice) wide }
{}
