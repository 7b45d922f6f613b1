//! Where bytes are read from.

ghost use Rattle.std.specs.Prelude.{◌≡◌, ◌↔◌, ◌<◌, ◌≤◌, ℕ, ◌+◌, List, Option, Some, None, [], length, take, drop, min};
ghost use Rattle.std.specs.Prelude.{IsTrue, IsErr, IfOk, IfErr, OnErr, ◌≢◌, Ok, Err, if◌then◌else◌};
ghost use Rattle.graft_edge.specs.Outside.{FaultRose, Took, IsAtEnd, TookSome};

use crate::calls::Calls;
use crate::items::{Items, Octets};
use crate::memory::NoMemory;
use std::alloc::Global;
use std::io::Read;
use std::marker::Model;
use thiserror::Error;

/// A read or a write failed.
#[derive(Clone, Copy, Debug, PartialEq, Eq, Hash, Error)]
#[error("input or output failed")]
pub struct Failed;

/// An origin of bytes.
pub trait Source {
    /// The bytes that weren't read yet, if the source reports them.
    ghost left: { Self → Option (List ℕ) };

    /// The number of reads that failed. It never decreases.
    ghost faults: { Self → ℕ };

    /// Reads the next bytes to the front of the buffer, and returns how many it read. Into a
    /// buffer that isn't empty it reads none only at the end of input. If it fails, it has read
    /// nothing, and its count of faults rises, unless that count has reached 2^64 - 1.
    fn read(&mut self, buf: &mut [u8]) -> Result<usize, Failed>
        ensures steady { faults self.old ≤ faults self.new }

        // The bytes that are given are the first of those that were left.
        ensures within { IfOk result (λ n. n ≤ length buf.new) }
        ensures took { IfOk result (λ n. Took (left self.old) (left self.new) (take n buf.new)) }
        ensures end { result ≡ Ok 0 → 0 < length buf.new → IsAtEnd (left self.new) }

        // If a read fails, the count of faults shows it, and nothing was taken.
        ensures failed { OnErr result (FaultRose (faults self.old) (faults self.new)) }
        ensures unread { OnErr result (left self.new ≡ left self.old) };
}

/// Bytes in memory, as a source that gives at most `step` of them in one call.
#[derive(Debug, Drop)]
pub struct MemSource {
    bytes: Octets,
    at: usize,
    calls: Calls,
}

impl Model for MemSource {
    ghost use Rattle.std.specs.Prelude.{drop, length, ◌≤◌, ◌<◌};
    ghost use Rattle.graft_edge.specs.Tapes.{SourceTape};

    ghost Value = { SourceTape };

    ghost view = { λ s. record { left = drop s.at s.bytes; calls = s.calls } };

    ghost invariant = { λ s. (s.at ≤ length s.bytes) × (0 < s.calls.step) };
}

impl MemSource {
    ghost use Rattle.std.specs.Prelude.{◌≡◌, ◌<◌, IfOk};

    /// Returns a source of these bytes. It gives at most `step` bytes in one call, where `step` is
    /// above 0, and fails at the calls whose numbers are in `fails`, counted from 1.
    pub fn new(
        alloc: Global,
        bytes: &[u8],
        step: usize,
        fails: &[u32],
    ) -> Result<MemSource, NoMemory>
        requires { 0 < step }
        ensures { IfOk result (λ source. source
            ≡ record { left = bytes.now; calls = record { next = 1; fails = fails.now; faults = 0; step = step } }) }
    {
        Ok(MemSource {
            bytes: Items::from_slice(alloc, bytes)?,
            at: 0,
            calls: Calls::new(alloc, step, fails)?,
        })
    }
}

/// Copies the first bytes to the front of a buffer, as many as fit and at most `step`, and
/// returns how many it copied.
fn copy_front(bytes: &[u8], step: usize, buf: &mut [u8]) -> usize
    ensures count { result ≡ min step (min (length buf.new) (length bytes.now)) }
    ensures front { take result buf.new ≡ take result bytes.now }
{
    let n = step.min(buf.len().min(bytes.len()));
    buf[..n].copy_from_slice(&bytes[..n]);
    n
}

impl Source for MemSource {
    ghost use Rattle.graft_edge.specs.Tapes.{fails_next, faulted, called};

    ghost left = { λ s. Some s.left };

    ghost faults = { λ s. s.calls.faults };

    fn read(&mut self, buf: &mut [u8]) -> Result<usize, Failed>
        ensures steady { self.old.calls.faults ≤ self.new.calls.faults }
        ensures within { IfOk result (λ n. n ≤ length buf.new) }
        ensures took { IfOk result (λ n. Took (Some self.old.left) (Some self.new.left) (take n buf.new)) }
        ensures end { result ≡ Ok 0 → 0 < length buf.new → IsAtEnd (Some self.new.left) }
        ensures failed { OnErr result (FaultRose self.old.calls.faults self.new.calls.faults) }
        ensures unread { OnErr result (◌≡◌ {A = Option (List ℕ)} (Some self.new.left) (Some self.old.left)) }

        // It fails if and only if the call is one of those that are to fail; otherwise it gives as many bytes as it
        // can.
        ensures fails { IsErr result ↔ IsTrue (fails_next self.old.calls) }
        ensures gives { IfOk result (λ n. n ≡ min self.old.calls.step (min (length buf.new) (length self.old.left))) }
        ensures counted { self.new.calls
            ≡ (if fails_next self.old.calls then faulted (called self.old.calls) else called self.old.calls) }
    {
        self.calls.begin()?;
        let n = copy_front(&self.bytes[self.at..], self.calls.step, buf);
        self.at += n;
        Ok(n)
    }
}

/// A reader of std as a source. It doesn't report what is left.
#[derive(Debug, Drop)]
pub struct StdSource<R> {
    reader: R,
    faults: u64,
}

impl<R: Read> StdSource<R> {
    /// Returns a source of this reader's bytes, with no faults yet.
    pub fn new(reader: R) -> StdSource<R> {
        StdSource { reader, faults: 0 }
    }
}

impl<R: Read> Source for StdSource<R> {
    ghost left = { λ _. None };

    ghost faults = { λ s. s.faults };

    fn read(&mut self, buf: &mut [u8]) -> Result<usize, Failed> {
        match self.reader.read(buf) {
            Ok(n) => Ok(n),
            Err(_) => {
                self.faults = self.faults.saturating_add(1);
                Err(Failed)
            }
        }
    }
}

/// Why a source wasn't read to its end.
#[derive(Clone, Copy, Debug, PartialEq, Eq, Hash, Error)]
pub enum ReadStop {
    #[error("a read failed")]
    Failed,
    #[error("the input is too long")]
    TooLong,
    #[error("no memory")]
    NoMemory,
}

impl From<Failed> for ReadStop {
    ghost use Rattle.graft_edge.specs.declared.source.ReadStop.TheVariants.{Failed};

    ghost from_gives = { λ _ stop. stop ≡ Failed };

    fn from(_error: Failed) -> ReadStop {
        ReadStop::Failed
    }
}

impl From<NoMemory> for ReadStop {
    ghost use Rattle.graft_edge.specs.declared.source.ReadStop.TheVariants.{NoMemory};

    ghost from_gives = { λ _ stop. stop ≡ NoMemory };

    fn from(_error: NoMemory) -> ReadStop {
        ReadStop::NoMemory
    }
}

/// Reads a source to its end, if that is at most `most` bytes away, and returns its bytes. It stops at
/// the first read that fails, as soon as it has taken more than `most` bytes, and when memory runs out.
/// It reads at most `most + 2` times. Bytes that were taken before it stops are lost.
pub fn read_all<S: Source>(alloc: Global, source: &mut S, most: usize) -> Result<Octets, ReadStop>
    ensures steady { S.faults source.old ≤ S.faults source.new }

    // All bytes that were taken are returned, and none is left.
    ensures whole { IfOk result (λ bytes. Took (S.left source.old) (S.left source.new) bytes) }
    ensures end { IfOk result (λ bytes. (length bytes ≤ most) × IsAtEnd (S.left source.new)) }
    ensures failed { result ≡ Err ReadStop.Failed → FaultRose (S.faults source.old) (S.faults source.new) }

    // If it stops as `TooLong`, more than `most` bytes were taken, and otherwise not.
    ensures too_long { result ≡ Err ReadStop.TooLong → TookSome (S.left source.old) (S.left source.new) (λ n. most < n) }
    ensures stopped { IfErr result (λ stop. stop ≢ ReadStop.TooLong → TookSome (S.left source.old) (S.left source.new) (λ n. n ≤ most)) }
{
    let mut bytes = Octets::new(alloc);
    let mut buf = [0u8; 4096];
    loop {
        let n = source.read(&mut buf)?;
        if n == 0 {
            return Ok(bytes);
        }
        if n > most - bytes.len() {
            return Err(ReadStop::TooLong);
        }
        bytes.extend(&buf[..n])?;
    }
}
