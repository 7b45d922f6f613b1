//! Ends of connections.

/// An end of a TCP connection: an IPv4 address and a port.
#[derive(Clone, Copy, Debug, PartialEq, Eq, Hash)]
pub struct Socket {
    pub address: u32,
    pub port: u16,
}
