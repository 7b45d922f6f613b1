//! The words of an input, and what each of them stands for.

ghost use Rattle.std.specs.Prelude.{◌≡◌};
ghost use Rattle.lab_keys.specs.Words.{origin_in as origin_in_lem, way_in as way_in_lem};
ghost use Rattle.lab_keys.specs.Words.{fault_kind_in as fault_kind_in_lem, step_word_in as step_word_in_lem};

use bgp_types::Origin;
use link_bag::FaultKind;
use tcp_seq::Way;

/// What a step does.
#[derive(Clone, Copy, Debug, PartialEq, Eq)]
pub enum StepWord {
    Announces,
    Withdraws,
    SaysRaw,
    Grafts,
    Settles,
    Evacuates,
}

/// Returns the origin that a text names (RFC 4271, section 4.3).
pub fn origin_in(text: &str) -> Option<Origin>
    ensures { result ≡ origin_in_lem text.now }
{
    match text {
        "igp" => Some(Origin::Igp),
        "egp" => Some(Origin::Egp),
        "incomplete" => Some(Origin::Incomplete),
        _ => None,
    }
}

/// Returns the side that a text names, to which a segment goes.
pub fn way_in(text: &str) -> Option<Way>
    ensures { result ≡ way_in_lem text.now }
{
    match text {
        "home" => Some(Way::Home),
        "remote" => Some(Way::Remote),
        _ => None,
    }
}

/// Returns the kind of a planned fault that a text names.
pub fn fault_kind_in(text: &str) -> Option<FaultKind>
    ensures { result ≡ fault_kind_in_lem text.now }
{
    match text {
        "lose" => Some(FaultKind::Lose),
        "repeat" => Some(FaultKind::Repeat),
        "hold" => Some(FaultKind::Hold),
        "stray" => Some(FaultKind::Stray),
        _ => None,
    }
}

/// Returns what a step of this word does.
pub fn step_word_in(text: &str) -> Option<StepWord>
    ensures { result ≡ step_word_in_lem text.now }
{
    match text {
        "announce" => Some(StepWord::Announces),
        "withdraw" => Some(StepWord::Withdraws),
        "raw" => Some(StepWord::SaysRaw),
        "graft" => Some(StepWord::Grafts),
        "settle" => Some(StepWord::Settles),
        "evacuate" => Some(StepWord::Evacuates),
        _ => None,
    }
}
