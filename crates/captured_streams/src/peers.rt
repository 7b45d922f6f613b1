//! The sessions that a capture has.

ghost use Rattle.std.specs.Prelude.{◌≡◌, ◌<◌, length, IfOk, IfSome};
ghost use Rattle.captured_streams.specs.Numbered.{IsNumbered};
ghost use Rattle.captured_streams.specs.Peers.{peer_at, peers, says as says_lem};

use crate::directed::{Directed, Peer};
use graft_edge::{Items, NoMemory};
use std::alloc::Global;
use std::collections::BTreeMap;
use tcp_seq::Way;

/// The first connection of each remote address on which it sends octets, in their order.
#[derive(Drop)]
pub(crate) struct Peers {
    pub(crate) list: Items<Peer>,
    /// The number of the connection of each address.
    numbers: BTreeMap<u32, usize>,
}

/// Whether a remote sends octets by a segment.
fn says(segment: &Directed<'_>) -> bool
    ensures { result ≡ says_lem segment.now }
{
    segment.way == Way::Home && !segment.segment.octets.is_empty()
}

impl Peers {
    /// Returns those of a capture's segments.
    pub(crate) fn of(alloc: Global, segments: &[Directed<'_>]) -> Result<Peers, NoMemory>
        ensures peers { IfOk result (λ known. known.list ≡ peers segments.now) }
        ensures numbered { IfOk result (λ known. IsNumbered known.list known.numbers) }
    {
        let mut list = Items::new(alloc);
        let mut numbers = BTreeMap::new(alloc);
        for segment in segments {
            if !says(segment) {
                continue;
            }
            let peer = segment.peer;
            if numbers.contains_key(&peer.remote.address) {
                continue;
            }
            numbers.insert(peer.remote.address, list.len())?;
            list.push(peer)?;
        }
        Ok(Peers { list, numbers })
    }

    /// Returns the number of a segment's connection. There is none if it is another one.
    pub(crate) fn at(&self, segment: &Directed<'_>) -> Option<usize>
        requires { IsNumbered self.now.list self.now.numbers }
        ensures { result ≡ peer_at self.now.list segment.now }
    {
        let peer = segment.peer;
        let number = *self.numbers.get(&peer.remote.address)?;
        let known = self.list.get(number)?;
        (peer == *known).then_some(number)
    }
}
