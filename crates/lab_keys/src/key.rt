//! Keys, and the kinds of their values.

use std::marker::Model;

/// The kind of a value.
#[derive(Clone, Copy, Debug, PartialEq, Eq)]
pub enum Kind {
    Number { low: u32, high: u32 },
    /// Seconds: 0, or 3 to 65535.
    HoldTime,
    Name,
    Host,
    Address,
    Prefix,
    Flag,
    Origin,
    Way,
    FaultKind,
    StepWord,
    /// The state of a session.
    State,
    /// How a graft ends.
    Outcome,
    /// Where a best route comes from, or that there is none.
    Best,
    /// Octets in hexadecimal, from `low` to `high` of them.
    Hex { low: usize, high: usize },
    Table,
    /// The key isn't allowed here.
    Misplaced,
}

/// Limits of the number of members of an array.
#[derive(Clone, Copy, Debug, PartialEq, Eq)]
pub struct Counts {
    pub low: usize,
    pub high: usize,
}

/// A key of a table: whether it is required, and the kind of its value or, with `counts`, of the members of the array
/// that it holds.
#[derive(Debug, Drop)]
pub struct Key {
    name: &'static str,
    needed: bool,
    kind: Kind,
    counts: Option<Counts>,
}

impl Model for Key {
    ghost use Rattle.lab_keys.specs.KeyRows.{KeyRow};

    ghost Value = { KeyRow };

    ghost view = { λ k. record { name = k.name.now; needed = k.needed; kind = k.kind; counts = k.counts } };
}

impl Key {
    ghost use Rattle.std.specs.Prelude.{◌≡◌};
    ghost use Rattle.lab_keys.specs.Keys.{required as required_lem, optional as optional_lem};
    ghost use Rattle.lab_keys.specs.Keys.{required_array as required_array_lem, optional_array as optional_array_lem};
    ghost use Rattle.lab_keys.specs.Keys.{limits_of};

    pub fn required(name: &'static str, kind: Kind) -> Key
        ensures { result ≡ required_lem name.now kind }
    {
        Key {
            name,
            needed: true,
            kind,
            counts: None,
        }
    }

    pub fn optional(name: &'static str, kind: Kind) -> Key
        ensures { result ≡ optional_lem name.now kind }
    {
        Key {
            name,
            needed: false,
            kind,
            counts: None,
        }
    }

    pub fn required_array(name: &'static str, low: usize, high: usize, kind: Kind) -> Key
        ensures { result ≡ required_array_lem name.now low high kind }
    {
        Key {
            name,
            needed: true,
            kind,
            counts: Some(Counts { low, high }),
        }
    }

    pub fn optional_array(name: &'static str, low: usize, high: usize, kind: Kind) -> Key
        ensures { result ≡ optional_array_lem name.now low high kind }
    {
        Key {
            name,
            needed: false,
            kind,
            counts: Some(Counts { low, high }),
        }
    }

    pub fn name(&self) -> &'static str
        ensures { result.now ≡ self.now.name }
    {
        self.name
    }

    pub fn is_needed(&self) -> bool
        ensures { result ≡ self.now.needed }
    {
        self.needed
    }

    pub fn kind(&self) -> Kind
        ensures { result ≡ self.now.kind }
    {
        self.kind
    }

    pub fn counts(&self) -> Option<Counts>
        ensures { result ≡ self.now.counts }
    {
        self.counts
    }

    /// Returns the limits of the number of members of the array at the key. A key of one value has none.
    pub fn limits(&self) -> Counts
        ensures { result ≡ limits_of self.now.counts }
    {
        self.counts.unwrap_or(Counts { low: 0, high: 0 })
    }
}
