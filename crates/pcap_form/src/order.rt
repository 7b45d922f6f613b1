//! Numbers in either order of octets.

ghost use Rattle.std.specs.Prelude.{◌≡◌, ◌+◌, ◌≤◌, length};
ghost use Rattle.pcap_form.specs.Numbers.{word_at as word_at_lem, half_at as half_at_lem};

/// Whether the octet of a number that counts most stands first, or last.
#[derive(Clone, Copy, Debug, PartialEq, Eq, Hash)]
pub enum ByteOrder {
    Big,
    Little,
}

/// Returns the number of the four octets at a place.
#[tactic(auto, unfolding(crate::specs::Numbers::word_at))]
pub fn word_at(order: ByteOrder, octets: &[u8], place: usize) -> u32
    requires { place + 4 ≤ length octets.now }
    ensures { result ≡ word_at_lem order octets.now place }
{
    let field = &octets[place..];
    let word = [field[0], field[1], field[2], field[3]];
    match order {
        ByteOrder::Big => u32::from_be_bytes(word),
        ByteOrder::Little => u32::from_le_bytes(word),
    }
}

/// Returns the number of the two octets at a place.
#[tactic(auto, unfolding(crate::specs::Numbers::half_at))]
pub fn half_at(order: ByteOrder, octets: &[u8], place: usize) -> u16
    requires { place + 2 ≤ length octets.now }
    ensures { result ≡ half_at_lem order octets.now place }
{
    let field = &octets[place..];
    let half = [field[0], field[1]];
    match order {
        ByteOrder::Big => u16::from_be_bytes(half),
        ByteOrder::Little => u16::from_le_bytes(half),
    }
}
