//! AS numbers in a field.

ghost use Rattle.std.specs.Prelude.{◌≡◌, length};
ghost use Rattle.std.specs.Int.{byte_len, from_be_bytes};
ghost use Rattle.bgp_types.specs.PathOctets.{as_width};

use byteorder::{BigEndian, ByteOrder};

/// Returns the AS in these octets: four where the message is wide, else two.
pub fn as_in(wide: bool, octets: &[u8]) -> u32
    requires { length octets.now ≡ byte_len (as_width wide) }
    ensures { result ≡ from_be_bytes (as_width wide) octets.now }
{
    if wide {
        BigEndian::read_u32(octets)
    } else {
        u32::from(BigEndian::read_u16(octets))
    }
}
