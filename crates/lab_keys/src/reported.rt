//! The texts by which an input says what it expects of a run, each as a report writes it.

ghost use Rattle.std.specs.Prelude.{◌≡◌, ◌<◌, option_map};
ghost use Rattle.std.specs.List.{list_all};
ghost use Rattle.lab_keys.specs.Reported.{state_in as state_in_lem, before as before_lem, behind as behind_lem};
ghost use Rattle.lab_keys.specs.Reported.{first_word as first_word_lem, further_words as further_words_lem, bracketed as bracketed_lem};
ghost use Rattle.lab_keys.specs.Reported.{is_digit, is_small_number as is_small_number_lem, is_detailed as is_detailed_lem};
ghost use Rattle.lab_keys.specs.Reported.{is_reason as is_reason_lem, is_outcome as is_outcome_lem, is_sender as is_sender_lem};
ghost use Rattle.lab_keys.specs.Reported.{is_best as is_best_lem};

use crate::texts::is_name;
use bgp_types::SessionState;

/// Returns the state of a session that a text names (RFC 4271, section 8.2.2).
pub fn state_in(text: &str) -> Option<SessionState>
    ensures { result ≡ state_in_lem text.now }
{
    match text {
        "OpenSent" => Some(SessionState::OpenSent),
        "OpenConfirm" => Some(SessionState::OpenConfirm),
        "Established" => Some(SessionState::Established),
        "Closed" => Some(SessionState::Closed),
        _ => None,
    }
}

/// Returns what stands before the first `mark` of a text, or all of it if there is none.
fn before(text: &str, mark: char) -> &str
    requires { mark < 128 }
    ensures { result.now ≡ before_lem mark text.now }
{
    match text.split_once(mark) {
        Some((front, _)) => front,
        None => text,
    }
}

/// Returns what stands behind the first `mark` of a text, or nothing if there is none.
fn behind(text: &str, mark: char) -> &str
    requires { mark < 128 }
    ensures { result.now ≡ behind_lem mark text.now }
{
    match text.split_once(mark) {
        Some((_, back)) => back,
        None => "",
    }
}

/// Returns a text up to its first space.
pub fn first_word(text: &str) -> &str
    ensures { result.now ≡ first_word_lem text.now }
{
    before(text, ' ')
}

/// Returns a text from behind its first space.
pub fn further_words(text: &str) -> &str
    ensures { result.now ≡ further_words_lem text.now }
{
    behind(text, ' ')
}

/// Returns what the first closing bracket ends, if that is the last character.
fn bracketed(text: &str) -> Option<&str>
    ensures { option_map (λ t. t.now) result ≡ bracketed_lem text.now }
{
    match text.split_once(')') {
        Some((detail, back)) => if back.is_empty() { Some(detail) } else { None },
        None => None,
    }
}

fn are_digits(bytes: &[u8]) -> bool
    ensures { result ≡ list_all is_digit bytes.now }
{
    bytes.iter().all(|c| c.is_ascii_digit())
}

/// Returns whether a text is a decimal number of one or two digits, without a leading zero.
fn is_small_number(text: &str) -> bool
    ensures { result ≡ is_small_number_lem text.now }
{
    let bytes = text.as_bytes();
    if bytes.is_empty() || bytes.len() > 2 {
        return false;
    }
    are_digits(bytes) && (bytes.len() == 1 || bytes[0] != b'0')
}

/// Returns whether a detail is one that this reason has.
fn is_detail_of(reason: &str, detail: &str) -> bool
    ensures { result ≡ is_detailed_lem reason.now (Some detail.now) }
{
    match reason {
        "NotEstablished" => state_in(detail).is_some(),
        "HoldTooShort" => is_small_number(detail),
        "RouterFull" => is_small_number(detail),
        "PolicyMissing" => is_name(detail),
        _ => false,
    }
}

/// Returns whether a reason with a detail is one for which a graft is refused.
fn is_detailed(reason: &str, detail: Option<&str>) -> bool
    ensures { result ≡ is_detailed_lem reason.now (option_map (λ t. t.now) detail.entry) }
{
    match detail {
        Some(detail) => is_detail_of(reason, detail),
        None => false,
    }
}

/// Returns whether a text is a reason for which a graft is refused.
fn is_reason(text: &str) -> bool
    ensures { result ≡ is_reason_lem text.now }
{
    if text == "SameRouter" || text == "NoTarget" {
        return true;
    }
    is_detailed(before(text, '('), bracketed(behind(text, '(')))
}

/// Returns whether a text says how a graft ends: `accepted`, or `refused` and a reason.
pub fn is_outcome(text: &str) -> bool
    ensures { result ≡ is_outcome_lem text.now }
{
    if text == "accepted" {
        return true;
    }
    first_word(text) == "refused" && is_reason(further_words(text))
}

/// Returns whether a text is the word `peering` or `router`, and a name.
fn is_sender(text: &str) -> bool
    ensures { result ≡ is_sender_lem text.now }
{
    let word = first_word(text);
    (word == "peering" || word == "router") && is_name(further_words(text))
}

/// Returns whether a text says where a best route comes from: `own`, or a peering or router and its name; or that there
/// is none, `none`.
pub fn is_best(text: &str) -> bool
    ensures { result ≡ is_best_lem text.now }
{
    if text == "none" || text == "own" {
        return true;
    }
    is_sender(text)
}

ghost use Rattle.std.specs.Prelude.{Some};
