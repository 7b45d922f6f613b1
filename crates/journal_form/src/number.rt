//! A number in the line of an entry.

ghost use Rattle.std.specs.Prelude.{◌≡◌, ◌≤◌, ◌<◌, ◌++◌, ◌∷◌, ◌↔◌, ℕ, IsTrue, MatchOption, decimal};
ghost use Rattle.journal_form.specs.Numbers.{BeginsWithNumber, IsNumber, BeginsPlainly};

use memchr::memchr;

/// Whether octets begin as a decimal without leading zeros does: with a digit, and with 0 only where
/// that is all.
fn begins_plainly(octets: &[u8]) -> bool
    ensures { IsTrue result ↔ BeginsPlainly octets.now }
{
    match octets {
        [b'0'] => true,
        [first, ..] => (b'1'..=b'9').contains(first),
        [] => false,
    }
}

/// Reads a decimal of at most `most` without leading zeros.
fn read_decimal(octets: &[u8], most: u64) -> Option<u64>
    ensures { MatchOption result ((n : ℕ) → ¬ IsNumber most n octets.now) (λ number. IsNumber most number octets.now) }
{
    let text = str::from_utf8(octets).ok()?;
    match text.parse::<u64>() {
        Ok(number) if number <= most && begins_plainly(octets) => Some(number),
        _ => None,
    }
}

/// Reads such a decimal in front of the octet `end`, and returns what stands behind that octet.
pub(crate) fn read_number(text: &[u8], most: u64, end: u8) -> Option<(u64, &[u8])>
    requires { end < 48 }
    ensures { MatchOption result (¬ BeginsWithNumber most end text.now)
        (λ found. (found.0 ≤ most) × (text.now ≡ decimal found.0 ++ end ∷ found.1.now)) }
{
    let at = memchr(end, text)?;
    let number = read_decimal(&text[..at], most)?;
    Some((number, &text[at + 1..]))
}
