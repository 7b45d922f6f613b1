//! The keys of a step, by its word. The word's own key is the first one.

ghost use Rattle.std.specs.Prelude.{◌≡◌, ◌++◌, ◌∷◌, []};
ghost use Rattle.lab_tables.specs.Scripts.{do_keys, announce_keys as announce_keys_lem, withdraw_keys as withdraw_keys_lem};
ghost use Rattle.lab_tables.specs.Scripts.{raw_keys as raw_keys_lem, graft_keys as graft_keys_lem};
ghost use Rattle.lab_tables.specs.Scripts.{settle_keys as settle_keys_lem, evacuate_keys as evacuate_keys_lem};

use crate::numbers::{ANY_NUMBER, AS_NUMBER, MOST_OCTETS, MOST_PREFIXES};
use lab_keys::{Key, Kind};

/// Returns the key of a step's word.
pub(crate) fn do_key() -> Key
    ensures { result ∷ [] ≡ do_keys }
{
    Key::required("do", Kind::StepWord)
}

/// Returns the keys of an announce step.
pub(crate) fn announce_keys() -> [Key; 7]
    ensures { result ≡ do_keys ++ announce_keys_lem }
{
    [
        do_key(),
        Key::required("peering", Kind::Name),
        Key::required_array("prefixes", 1, MOST_PREFIXES, Kind::Prefix),
        Key::optional_array("path", 0, 64, AS_NUMBER),
        Key::optional("origin", Kind::Origin),
        Key::optional("med", ANY_NUMBER),
        Key::optional("next_hop", Kind::Host),
    ]
}

/// Returns the keys of a withdraw step.
pub(crate) fn withdraw_keys() -> [Key; 3]
    ensures { result ≡ do_keys ++ withdraw_keys_lem }
{
    [
        do_key(),
        Key::required("peering", Kind::Name),
        Key::required_array("prefixes", 1, MOST_PREFIXES, Kind::Prefix),
    ]
}

/// Returns the keys of a raw step.
pub(crate) fn raw_keys() -> [Key; 3]
    ensures { result ≡ do_keys ++ raw_keys_lem }
{
    [
        do_key(),
        Key::required("peering", Kind::Name),
        Key::required(
            "hex",
            Kind::Hex {
                low: 1,
                high: MOST_OCTETS,
            },
        ),
    ]
}

/// Returns the keys of a graft step.
pub(crate) fn graft_keys() -> [Key; 3]
    ensures { result ≡ do_keys ++ graft_keys_lem }
{
    [
        do_key(),
        Key::required("peering", Kind::Name),
        Key::required("to", Kind::Name),
    ]
}

/// Returns the keys of a settle step.
pub(crate) fn settle_keys() -> [Key; 3]
    ensures { result ≡ do_keys ++ settle_keys_lem }
{
    [
        do_key(),
        Key::optional(
            "rounds",
            Kind::Number {
                low: 1,
                high: 16384,
            },
        ),
        Key::optional("least", Kind::Number { low: 0, high: 1024 }),
    ]
}

/// Returns the keys of an evacuate step.
pub(crate) fn evacuate_keys() -> [Key; 2]
    ensures { result ≡ do_keys ++ evacuate_keys_lem }
{
    [do_key(), Key::required("router", Kind::Name)]
}
