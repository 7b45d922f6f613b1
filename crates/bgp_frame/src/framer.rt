//! Takes the bytes of a stream and gives its messages.

ghost use Rattle.std.specs.Prelude.{◌≡◌, ◌++◌, [], Some, IfOk, IfSome, OnOk, OnErr};
ghost use Rattle.bgp_types.specs.Header.{frame_at};
ghost use Rattle.bgp_frame.specs.Next.{Next, has_next};

use crate::front::first_frame;
use bgp_types::{HeaderFault, NoMemory, Octets};
use graft_edge::ByteQueue;
use std::alloc::Global;
use std::marker::Model;
use thiserror::Error;

/// A whole message with a sound header: its type, and all of its octets with the header.
#[derive(Debug, Drop)]
pub struct Frame {
    pub kind: u8,
    pub bytes: Octets,
}

/// Why `next` gives no answer.
#[derive(Clone, Copy, Debug, PartialEq, Eq, Error)]
pub enum FrameStop {
    /// The header at the front is faulty. The stream can't be divided any further.
    #[error("a faulty header")]
    Header(HeaderFault),
    #[error("no memory")]
    NoMemory,
}

impl std::convert::From<NoMemory> for FrameStop {
    ghost use Rattle.std.specs.Prelude.{◌≡◌};
    ghost use Rattle.bgp_frame.specs.declared.framer.FrameStop.TheVariants as stops;

    ghost from_gives = { λ _ stop. stop ≡ stops.NoMemory };

    fn from(_error: NoMemory) -> FrameStop {
        FrameStop::NoMemory
    }
}

/// The bytes of a stream that aren't part of a message already given.
#[derive(Debug, Drop)]
pub struct Framer {
    held: ByteQueue,
}

impl Model for Framer {
    ghost use Rattle.std.specs.Prelude.{ℕ, List};

    ghost Value = { List ℕ };

    ghost view = { λ framer. framer.held };
}

impl Framer {
    /// Returns a framer that holds no bytes.
    pub fn new(alloc: Global) -> Framer
        ensures { result ≡ [] }
    {
        Framer {
            held: ByteQueue::new(alloc),
        }
    }

    /// Takes the next piece of the stream. If memory runs out, nothing changes.
    pub fn feed(&mut self, bytes: &[u8]) -> Result<(), NoMemory>
        ensures ok { OnOk result (self.new ≡ self.old ++ bytes.now) }
        ensures err { OnErr result (self.new ≡ self.old) }
    {
        self.held.extend(bytes)
    }

    /// Whether the bytes held begin with a whole message or with a faulty header, so that `next` has
    /// something to answer.
    pub fn waits(&self) -> bool
        ensures { result ≡ has_next self.now }
    {
        !matches!(first_frame(self.held.as_slice()), Ok(None))
    }

    /// Removes and returns the next message, or returns `None` while fewer octets are held than a
    /// header has, or than a sound header gives as its length. A faulty header is the answer of every
    /// call from then on. If the header is faulty or memory runs out, nothing changes.
    pub fn next(&mut self) -> Result<Option<Frame>, FrameStop>
        ensures answer { Next result self.old self.new }
        ensures whole { IfOk result (λ frame. IfSome frame (λ f. frame_at f.bytes ≡ Some (f.bytes, []))) }
    {
        let octets = self.held.as_slice();
        let front = match first_frame(octets) {
            Err(fault) => return Err(FrameStop::Header(fault)),
            Ok(None) => return Ok(None),
            Ok(Some(front)) => front,
        };
        let bytes = Octets::from_slice(self.held.allocator(), &octets[..front.len])?;
        self.held.drop_front(front.len);
        Ok(Some(Frame {
            kind: front.kind,
            bytes,
        }))
    }
}
