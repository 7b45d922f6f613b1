//! Names, addresses, prefixes and octets as texts.

ghost use Rattle.std.specs.Prelude.{◌≡◌};
ghost use Rattle.std.specs.List.{list_all};
ghost use Rattle.lab_keys.specs.Texts.{is_name_char as is_name_char_lem, is_name as is_name_lem};
ghost use Rattle.lab_keys.specs.Texts.{address_in as address_in_lem, host_address_in, prefix_in as prefix_in_lem, is_hex as is_hex_lem};
ghost use Rattle.hex.specs.Hex.{is_hex_digit};

use bgp_types::{Prefix, is_no_host, read_address, read_prefix};

fn is_name_char(c: u8) -> bool
    ensures { result ≡ is_name_char_lem c }
{
    c.is_ascii_lowercase() || c.is_ascii_digit() || c == b'-'
}

fn are_name_chars(bytes: &[u8]) -> bool
    ensures { result ≡ list_all is_name_char_lem bytes.now }
{
    bytes.iter().all(|c| is_name_char(*c))
}

/// Returns whether a text is a name: 1 to 16 characters, the first one a to z, the others a to z, 0 to 9 or a dash.
pub fn is_name(text: &str) -> bool
    ensures { result ≡ is_name_lem text.now }
{
    let bytes = text.as_bytes();
    if bytes.is_empty() || bytes.len() > 16 {
        return false;
    }
    bytes[0].is_ascii_lowercase() && are_name_chars(bytes)
}

/// Returns the address written by a text.
pub fn address_in(text: &str) -> Option<u32>
    ensures { result ≡ address_in_lem text.now }
{
    read_address(text)
}

/// Returns the address written by a text, if it is that of a host.
pub fn host_in(text: &str) -> Option<u32>
    ensures { result ≡ host_address_in text.now }
{
    let address = address_in(text)?;
    if is_no_host(address) {
        None
    } else {
        Some(address)
    }
}

/// Returns the prefix written by a text.
pub fn prefix_in(text: &str) -> Option<Prefix>
    ensures { result ≡ prefix_in_lem text.now }
{
    read_prefix(text)
}

fn are_hex_digits(bytes: &[u8]) -> bool
    ensures { result ≡ list_all is_hex_digit bytes.now }
{
    bytes.iter().all(|c| c.is_ascii_hexdigit())
}

/// Returns whether a text is an even number of hexadecimal digits.
pub fn is_hex(text: &str) -> bool
    ensures { result ≡ is_hex_lem text.now }
{
    let bytes = text.as_bytes();
    bytes.len() % 2 == 0 && are_hex_digits(bytes)
}
