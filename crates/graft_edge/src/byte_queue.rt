//! A queue of bytes: they are added at the back and dropped at the front.
ghost use Rattle.std.specs.Prelude.{◌≡◌, ◌≤◌, ◌++◌, [], length, take, drop, OnOk, OnErr};

use crate::items::{Items, Octets};
use crate::memory::NoMemory;
use std::alloc::Global;
use std::marker::Model;

/// A queue of bytes. Contracts see the list of the bytes in it.
///
/// The bytes are kept in one slice, behind a part that was already dropped. As soon as that part is as
/// long as the rest, the rest moves to the front. So over all calls at most one byte moves for each
/// byte that is dropped, and the slice is at most twice as long as the queue was at its longest. Its
/// memory is kept until the queue is dropped.
#[derive(Debug, Drop)]
pub struct ByteQueue {
    bytes: Vec<u8>,
    dropped: usize,
}

impl Model for ByteQueue {
    ghost use Rattle.std.specs.Prelude.{List, ℕ, ◌≤◌, length, drop};

    ghost Value = { List ℕ };

    ghost view = { λ queue. drop queue.dropped queue.bytes.items };

    ghost invariant = { λ queue. queue.dropped ≤ length queue.bytes.items };
}

/// Removes the first `count` bytes, where `count` is at most the length. It allocates nothing.
fn remove_front(bytes: &mut Vec<u8>, count: usize)
    requires { count ≤ length bytes.old.items }
    ensures { bytes.new.items ≡ drop count bytes.old.items }
{
    let left = bytes.len() - count;
    bytes.copy_within(count.., 0);
    bytes.truncate(left);
}

impl ByteQueue {
    /// Returns an empty queue. It allocates nothing before bytes are added.
    pub fn new(alloc: Global) -> ByteQueue
        ensures { result ≡ [] }
    {
        ByteQueue {
            bytes: Vec::new(alloc),
            dropped: 0,
        }
    }

    /// Returns a queue of a list's bytes, in that list's memory. It allocates nothing and moves no
    /// byte.
    pub fn from_octets(octets: Octets) -> ByteQueue
        ensures { result ≡ octets }
    {
        ByteQueue {
            bytes: octets.into_vec(),
            dropped: 0,
        }
    }

    /// Returns the list of the bytes, in the queue's memory. It allocates nothing. If a dropped part
    /// still stands before the bytes, they move to the front.
    pub fn into_octets(self) -> Octets
        ensures { result ≡ self }
    {
        let ByteQueue { mut bytes, dropped } = self;
        remove_front(&mut bytes, dropped);
        Items::from_vec(bytes)
    }

    /// Returns the allocator that its memory comes from.
    pub fn allocator(&self) -> Global {
        *self.bytes.allocator()
    }

    /// Returns the bytes as a slice.
    pub fn as_slice(&self) -> &[u8]
        ensures { result.now ≡ self.now }
    {
        &self.bytes[self.dropped..]
    }

    /// Returns the number of bytes, without those that were dropped.
    pub fn len(&self) -> usize
        ensures { result ≡ length self.now }
    {
        self.bytes.len() - self.dropped
    }

    /// Adds bytes at the back. If memory runs out, nothing changes.
    pub fn extend(&mut self, bytes: &[u8]) -> Result<(), NoMemory>
        ensures ok { OnOk result (self.new ≡ self.old ++ bytes.now) }
        ensures err { OnErr result (self.new ≡ self.old) }
    {
        Ok(self.bytes.extend_from_slice(bytes)?)
    }

    /// Keeps the first `len` bytes, where `len` is at most the length, and drops the rest. Its memory
    /// is kept.
    pub fn truncate(&mut self, len: usize)
        requires { len ≤ length self.old }
        ensures { self.new ≡ take len self.old }
    {
        self.bytes.truncate(self.dropped + len);
    }

    /// Drops the first `count` bytes, where `count` is at most the length. Its memory is kept.
    pub fn drop_front(&mut self, count: usize)
        requires { count ≤ length self.old }
        ensures { self.new ≡ drop count self.old }
    {
        let dropped = self.dropped + count;
        if dropped >= self.bytes.len() - dropped {
            remove_front(&mut self.bytes, dropped);
            self.dropped = 0;
        } else {
            self.dropped = dropped;
        }
    }
}
