//! The names of policies.

ghost use Rattle.std.specs.Prelude.{◌≡◌, true, false, MatchOption};
ghost use Rattle.std.specs.List.{list_all};
ghost use Rattle.capsule_bytes.specs.Capsules.{is_name_char as is_name_char_lem, is_name as is_name_lem};

fn is_name_char(c: u8) -> bool
    ensures { result ≡ is_name_char_lem c }
{
    c.is_ascii_lowercase() || c.is_ascii_digit() || c == b'-'
}

fn are_name_chars(octets: &[u8]) -> bool
    ensures { result ≡ list_all is_name_char_lem octets.now }
{
    octets.iter().all(|c| is_name_char(*c))
}

/// Whether octets are a name: 1 to 16 characters, the first one a to z, the others a to z, 0 to 9 or a dash.
fn is_name(octets: &[u8]) -> bool
    ensures { result ≡ is_name_lem octets.now }
{
    if octets.is_empty() || octets.len() > 16 {
        return false;
    }
    octets[0].is_ascii_lowercase() && are_name_chars(octets)
}

/// Returns octets as a text if they are a name.
pub(crate) fn name_in(octets: &[u8]) -> Option<&str>
    ensures { MatchOption result (is_name_lem octets.now ≡ false) (λ text. (is_name_lem octets.now ≡ true) × (text.now ≡ octets.now)) }
{
    if !is_name(octets) {
        return None;
    }
    str::from_utf8(octets).ok()
}
