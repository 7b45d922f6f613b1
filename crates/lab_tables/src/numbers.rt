//! Kinds and defaults that stand in several tables.

use lab_keys::Kind;

/// An AS number.
pub(crate) const AS_NUMBER: Kind = Kind::Number {
    low: 1,
    high: u32::MAX,
};

/// Any number of 32 bits.
pub(crate) const ANY_NUMBER: Kind = Kind::Number {
    low: 0,
    high: u32::MAX,
};

/// The limit of prefixes of a step.
pub(crate) const MOST_PREFIXES: usize = 200;

/// The limit of octets of a text in hexadecimal, the length of the longest message (RFC 4271, section 4.1).
pub(crate) const MOST_OCTETS: usize = 4096;
