//! The blocks of a pcapng file, and its sections.

ghost use Rattle.std.specs.Prelude.{◌≡◌, ◌+◌, ◌^◌, ◌<◌, ◌≤◌, IfSome, ◌++◌, ◌∷◌, [], MatchOption, None, OnOk, length};
ghost use Rattle.pcap_form.specs.Numbers.{first_wrong, word_at as word_at_lem};
ghost use Rattle.pcap_form.specs.Blocks.{begins_section as begins_section_lem, section_order as section_order_lem, section_size as section_size_lem};
ghost use Rattle.pcap_form.specs.Blocks.{is_length as is_length_lem, least_length as least_length_lem, section_fields, block_fields};
ghost use Rattle.pcap_form.specs.Blocks.{interfaces_in, enhanced_packets, simple_packets, simple_length as simple_length_lem};
ghost use Rattle.pcap_form.specs.Captures.{InSection, fields, size, packets_of, behind};

use crate::link::LinkType;
use crate::order::{ByteOrder, half_at, word_at};
use crate::packet::Packet;
use graft_edge::{Items, NoMemory};
use std::alloc::Global;

/// The types of blocks that matter here.
const SECTION: u32 = 0x0A0D_0D0A;

const INTERFACE: u32 = 1;

const SIMPLE: u32 = 3;

const ENHANCED: u32 = 6;

/// The number by which a section says the order of its numbers.
const BYTE_ORDER: u32 = 0x1A2B_3C4D;

/// The length of a block that has a type and its length alone.
const LEAST: usize = 12;

/// An interface of a section: the type of its link, and the most octets of a packet, or 0 for no limit.
#[derive(Clone, Copy, Debug)]
pub(crate) struct Interface {
    pub(crate) link: LinkType,
    pub(crate) snaplen: u32,
}

/// What a section has said so far: the order of its numbers, and its interfaces.
#[derive(Drop)]
pub(crate) struct Section {
    pub(crate) order: ByteOrder,
    pub(crate) interfaces: Items<Interface>,
}

// ---- the block that begins a section

/// Whether the block that begins here begins a section.
pub(crate) fn begins_section(left: &[u8]) -> bool
    ensures { result ≡ begins_section_lem left.now }
{
    left.len() >= 4 && word_at(ByteOrder::Big, left, 0) == SECTION
}

/// Returns the order of the numbers in the section that begins here.
pub(crate) fn section_order(left: &[u8]) -> ByteOrder
    requires { 12 ≤ length left.now }
    ensures { result ≡ section_order_lem left.now }
{
    if word_at(ByteOrder::Big, left, 8) == BYTE_ORDER {
        ByteOrder::Big
    } else {
        ByteOrder::Little
    }
}

/// Returns the length of the block that begins here, as it says at its beginning.
fn block_size(order: ByteOrder, left: &[u8]) -> usize
    requires { 12 ≤ length left.now }
    ensures size { result ≡ word_at_lem order left.now 4 }
    ensures small { result < 2 ^ 32 }
{
    word_at(order, left, 4) as usize
}

/// Returns the length of the block that begins a section.
pub(crate) fn section_size(left: &[u8]) -> usize
    requires { 12 ≤ length left.now }
    ensures { result ≡ section_size_lem left.now }
{
    block_size(section_order(left), left)
}

/// Whether a block can have this length here.
fn is_length(least: usize, size: usize, left: &[u8]) -> bool
    ensures { result ≡ is_length_lem least size left.now }
{
    least <= size && size % 4 == 0 && size <= left.len()
}

/// Returns the place of the first field that is cut off or wrong, in the block that begins a section.
pub(crate) fn section_fault(left: &[u8]) -> Option<usize>
    ensures place { result ≡ first_wrong (section_fields left.now) }
    ensures small { IfSome result (λ place. place < 2 ^ 32) }
{
    if left.len() < LEAST {
        return Some(0);
    }
    let order = section_order(left);
    if word_at(order, left, 8) != BYTE_ORDER {
        return Some(8);
    }
    let size = block_size(order, left);
    if !is_length(28, size, left) {
        return Some(4);
    }
    if half_at(order, left, 12) != 1 {
        return Some(12);
    }
    if word_at(order, left, size - 4) as usize != size {
        return Some(size - 4);
    }
    None
}

// ---- the other blocks of a section

/// Returns the least length of the block that begins here, by its type.
fn least_length(order: ByteOrder, left: &[u8]) -> usize
    requires { 12 ≤ length left.now }
    ensures { result ≡ least_length_lem order left.now }
{
    match word_at(order, left, 0) {
        INTERFACE => 20,
        SIMPLE => 16,
        ENHANCED => 32,
        _ => LEAST,
    }
}

/// Returns the place of the first field that is cut off or wrong, in another block of a section.
fn block_fault(section: &Section, left: &[u8]) -> Option<usize>
    ensures place { result ≡ first_wrong (block_fields section.now.order section.now.interfaces left.now) }
    ensures small { IfSome result (λ place. place < 2 ^ 32) }
{
    let order = section.order;
    if left.len() < LEAST {
        return Some(0);
    }
    let kind = word_at(order, left, 0);
    if kind == SIMPLE && section.interfaces.is_empty() {
        return Some(0);
    }
    let size = block_size(order, left);
    if !is_length(least_length(order, left), size, left) {
        return Some(4);
    }
    if kind == ENHANCED && word_at(order, left, 8) as usize >= section.interfaces.len() {
        return Some(8);
    }
    if kind == ENHANCED && word_at(order, left, 20) as usize > size - 32 {
        return Some(20);
    }
    if word_at(order, left, size - 4) as usize != size {
        return Some(size - 4);
    }
    None
}

/// Returns the place of the first field that is cut off or wrong, in the block that begins here.
pub(crate) fn fault_in(section: &Section, left: &[u8]) -> Option<usize>
    ensures place { result ≡ first_wrong (fields (InSection section.now.order section.now.interfaces) left.now) }
    ensures small { IfSome result (λ place. place < 2 ^ 32) }
{
    if begins_section(left) {
        section_fault(left)
    } else {
        block_fault(section, left)
    }
}

/// Returns the length of the block that begins here.
pub(crate) fn size_of(section: &Section, left: &[u8]) -> usize
    requires { 12 ≤ length left.now }
    ensures { result ≡ size (InSection section.now.order section.now.interfaces) left.now }
{
    if begins_section(left) {
        section_size(left)
    } else {
        block_size(section.order, left)
    }
}

// ---- what a block says

/// Returns how many octets of a simple packet were captured.
fn simple_length(original: usize, snaplen: usize, held: usize) -> usize
    ensures { result ≡ simple_length_lem original snaplen held }
{
    let most = if snaplen == 0 {
        held
    } else {
        snaplen.min(held)
    };
    original.min(most)
}

fn enhanced_packet<'a>(section: &Section, block: &'a [u8]) -> Option<Packet<'a>>
    requires { 32 + word_at_lem section.now.order block.now 20 ≤ length block.now }
    ensures { let packets = enhanced_packets section.now.order section.now.interfaces block.now in
        MatchOption result (packets ≡ []) (λ packet. packets ≡ packet ∷ []) }
{
    let order = section.order;
    let interface = section.interfaces.get(word_at(order, block, 8) as usize)?;
    let captured = word_at(order, block, 20) as usize;
    let octets = &block[28..];
    Some(Packet::new(interface.link, &octets[..captured]))
}

fn simple_packet<'a>(section: &Section, block: &'a [u8]) -> Option<Packet<'a>>
    requires { 16 ≤ length block.now }
    ensures { let packets = simple_packets section.now.order section.now.interfaces block.now in
        MatchOption result (packets ≡ []) (λ packet. packets ≡ packet ∷ []) }
{
    let interface = section.interfaces.get(0)?;
    let original = word_at(section.order, block, 8) as usize;
    let captured = simple_length(original, interface.snaplen as usize, block.len() - 16);
    let octets = &block[12..];
    Some(Packet::new(interface.link, &octets[..captured]))
}

/// Returns the packet of a block, if it is the block of one.
pub(crate) fn packet_in<'a>(section: &Section, block: &'a [u8]) -> Option<Packet<'a>>
    requires { first_wrong (fields (InSection section.now.order section.now.interfaces) block.now) ≡ None }
    ensures { let packets = packets_of (InSection section.now.order section.now.interfaces) block.now in
        MatchOption result (packets ≡ []) (λ packet. packets ≡ packet ∷ []) }
{
    if begins_section(block) {
        return None;
    }
    let kind = word_at(section.order, block, 0);
    if kind == ENHANCED {
        return enhanced_packet(section, block);
    }
    if kind == SIMPLE {
        return simple_packet(section, block);
    }
    None
}

/// Adds the interface of a block, if it is the block of one.
fn add_interface(section: &mut Section, block: &[u8]) -> Result<(), NoMemory>
    requires long { 12 ≤ length block.now }
    requires interface { word_at_lem section.old.order block.now 0 ≡ 1 → 20 ≤ length block.now }
    ensures order { OnOk result (section.new.order ≡ section.old.order) }
    ensures interfaces { OnOk result (section.new.interfaces ≡ section.old.interfaces ++ interfaces_in section.old.order block.now) }
{
    let order = section.order;
    if word_at(order, block, 0) != INTERFACE {
        return Ok(());
    }
    let link = LinkType::from_number(half_at(order, block, 8));
    let snaplen = word_at(order, block, 12);
    section.interfaces.push(Interface { link, snaplen })
}

/// Takes what a block says of its section: that another one begins, or an interface.
pub(crate) fn take_block(alloc: Global, section: &mut Section, block: &[u8]) -> Result<(), NoMemory>
    requires { first_wrong (fields (InSection section.old.order section.old.interfaces) block.now) ≡ None }
    ensures { OnOk result (InSection section.new.order section.new.interfaces ≡ behind (InSection section.old.order section.old.interfaces) block.now) }
{
    if begins_section(block) {
        section.order = section_order(block);
        section.interfaces = Items::new(alloc);
        return Ok(());
    }
    add_interface(section, block)
}
