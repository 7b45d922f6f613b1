//! The checksum of IPv4 and TCP (RFC 1071).

ghost use Rattle.std.specs.Prelude.{◌≡◌, ◌-◌, ◌*◌, ◌≤◌, length};
ghost use Rattle.tcp_packets.specs.Writing.{carried_around, word_sum as word_sum_lem};

/// Returns the sum of the words of 16 bits; behind an odd octet at the end a 0 is added.
pub(crate) fn word_sum(octets: &[u8]) -> u64
    requires { length octets.now ≤ 65535 }
    ensures sum { result ≡ word_sum_lem octets.now }
    ensures small { result ≤ 65535 * length octets.now }
{
    let mut sum = 0u64;
    let mut left = octets;
    while left.len() >= 2 {
        sum += u64::from(left[0]) * 256 + u64::from(left[1]);
        left = &left[2..];
    }
    match left.first() {
        Some(high) => sum + u64::from(*high) * 256,
        None => sum,
    }
}

/// Returns the checksum of octets by the sum of their words.
pub(crate) fn checksum(sum: u64) -> u16
    ensures { result ≡ 65535 - carried_around sum }
{
    let carried_around = if sum == 0 { 0 } else { 1 + (sum - 1) % 65535 };
    u16::MAX - carried_around as u16
}
