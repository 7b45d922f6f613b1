//! AS numbers in two octets and in four (RFC 6793).

ghost use Rattle.std.specs.Prelude.{◌≡◌};
ghost use Rattle.std.specs.List.{list_any};
ghost use Rattle.std.specs.Int.{byte_len};
ghost use Rattle.bgp_types.specs.PathOctets.{as_width, has_long_as, is_long_as, narrow_as};
ghost use Rattle.bgp_types.specs.Paths.{ases_of};

use crate::path::PathPart;

/// AS_TRANS, which stands in two octets for an AS that needs four (RFC 6793, section 9).
pub const AS_TRANS: u16 = 23456;

/// Returns the number of octets of an AS: four where the message is wide, else two.
pub fn as_size(wide: bool) -> usize
    ensures { result ≡ byte_len (as_width wide) }
{
    if wide { 4 } else { 2 }
}

/// Whether the AS doesn't fit into two octets.
pub fn is_long_as(as_number: u32) -> bool
    ensures { result ≡ is_long_as as_number }
{
    as_number > u32::from(u16::MAX)
}

/// Returns the AS in two octets: AS_TRANS where it doesn't fit.
pub fn narrow_as(as_number: u32) -> u16
    ensures { result ≡ narrow_as as_number }
{
    u16::try_from(as_number).unwrap_or(AS_TRANS)
}

/// Whether some AS of a part needs four octets.
fn is_long_part(part: &PathPart) -> bool
    ensures { result ≡ list_any is_long_as (ases_of part.now) }
{
    match part {
        PathPart::Set(ases) => ases.iter().any(|number| is_long_as(*number)),
        PathPart::Sequence(ases) => ases.iter().any(|number| is_long_as(*number)),
    }
}

/// Whether some AS of a path needs four octets.
pub fn has_long_as(path: &[PathPart]) -> bool
    ensures { result ≡ has_long_as path.now }
{
    path.iter().any(is_long_part)
}
