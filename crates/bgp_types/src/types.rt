//! The types of messages (RFC 4271, section 4.1).

pub const OPEN: u8 = 1;

pub const UPDATE: u8 = 2;

pub const NOTIFICATION: u8 = 3;

pub const KEEPALIVE: u8 = 4;
