//! The types of attributes (RFC 4271, section 5; RFC 6793, section 3).

pub const ORIGIN: u8 = 1;

pub const AS_PATH: u8 = 2;

pub const NEXT_HOP: u8 = 3;

pub const MULTI_EXIT_DISC: u8 = 4;

pub const LOCAL_PREF: u8 = 5;

pub const ATOMIC_AGGREGATE: u8 = 6;

pub const AGGREGATOR: u8 = 7;

pub const AS4_PATH: u8 = 17;

pub const AS4_AGGREGATOR: u8 = 18;
