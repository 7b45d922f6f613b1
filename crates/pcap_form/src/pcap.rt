//! The header and the records of a pcap file.

ghost use Rattle.std.specs.Prelude.{◌≡◌, ◌≤◌, length};
ghost use Rattle.pcap_form.specs.Numbers.{first_wrong};
ghost use Rattle.pcap_form.specs.Pcap.{is_magic as is_magic_lem, header_order as header_order_lem, header_fields, header_link as header_link_lem};
ghost use Rattle.pcap_form.specs.Pcap.{record_size as record_size_lem, record_fields};

use crate::link::LinkType;
use crate::order::{ByteOrder, half_at, word_at};

/// The length of the header.
pub(crate) const HEADER: usize = 24;

/// The length of what stands before a record's octets.
pub(crate) const RECORD: usize = 16;

/// The numbers that a file begins with, by what its times are counted in.
pub(crate) const MICROSECONDS: u32 = 0xA1B2_C3D4;

const NANOSECONDS: u32 = 0xA1B2_3C4D;

fn is_magic(number: u32) -> bool
    ensures { result ≡ is_magic_lem number }
{
    number == MICROSECONDS || number == NANOSECONDS
}

/// Returns the order of the numbers in a file.
pub(crate) fn header_order(file: &[u8]) -> ByteOrder
    requires { 4 ≤ length file.now }
    ensures { result ≡ header_order_lem file.now }
{
    if is_magic(word_at(ByteOrder::Big, file, 0)) {
        ByteOrder::Big
    } else {
        ByteOrder::Little
    }
}

/// Returns the place of the first field of the header that is cut off or wrong.
pub(crate) fn header_fault(file: &[u8]) -> Option<usize>
    ensures { result ≡ first_wrong (header_fields file.now) }
{
    if file.len() < 4 {
        return Some(0);
    }
    let order = header_order(file);
    if !is_magic(word_at(order, file, 0)) {
        return Some(0);
    }
    if file.len() < 6 || half_at(order, file, 4) != 2 {
        return Some(4);
    }
    if file.len() < 8 || half_at(order, file, 6) != 4 {
        return Some(6);
    }
    // The other fields have four octets each.
    if file.len() < HEADER {
        return Some(file.len() / 4 * 4);
    }
    None
}

/// Returns the type of the link that all packets of a file were captured on.
pub(crate) fn header_link(file: &[u8]) -> LinkType
    requires { 24 ≤ length file.now }
    ensures { result ≡ header_link_lem file.now }
{
    let network = word_at(header_order(file), file, 20);
    LinkType::from_number((network % 65536) as u16)
}

/// Returns the length of the record that begins here.
pub(crate) fn record_size(order: ByteOrder, left: &[u8]) -> usize
    requires { 16 ≤ length left.now }
    ensures { result ≡ record_size_lem order left.now }
{
    RECORD + word_at(order, left, 8) as usize
}

/// Returns the place of what is cut off of the record that begins here.
pub(crate) fn record_fault(order: ByteOrder, left: &[u8]) -> Option<usize>
    ensures { result ≡ first_wrong (record_fields order left.now) }
{
    if left.len() < RECORD {
        return Some(0);
    }
    if left.len() < record_size(order, left) {
        return Some(8);
    }
    None
}
