//! Where bytes are written.

ghost use Rattle.std.specs.Prelude.{◌≡◌, ◌↔◌, ◌⊎◌, ◌<◌, ◌≤◌, ℕ, ◌+◌, ◌-◌, List, Option, Some, None, [], length, take, drop};
ghost use Rattle.std.specs.Prelude.{min, IsTrue, IsErr, IfOk, OnOk, OnErr, ◌++◌, Ok, Err, is_err, if◌then◌else◌};
ghost use Rattle.graft_edge.specs.Outside.{FaultRose, Appended, AppendedFront};

use crate::calls::Calls;
use crate::memory::NoMemory;
use crate::source::Failed;
use std::alloc::Global;
use std::io::Write;
use std::marker::Model;

/// A destination of bytes.
pub trait Sink {
    /// The bytes that were written, if the sink reports them.
    ghost written: { Self → Option (List ℕ) };

    /// The number of writes that failed. It never decreases.
    ghost faults: { Self → ℕ };

    /// Appends the first of the bytes, at least one unless there are none, and returns how many it
    /// appended. If it fails, it has appended nothing, and its count of faults rises, unless that count
    /// has reached 2^64 - 1.
    fn write(&mut self, bytes: &[u8]) -> Result<usize, Failed>
        ensures steady { faults self.old ≤ faults self.new }
        ensures within { IfOk result (λ n. n ≤ length bytes.now) }
        ensures some { result ≡ Ok 0 → bytes.now ≡ [] }
        ensures appended { IfOk result (λ n. Appended (written self.old) (written self.new) (take n bytes.now)) }

        // If a write fails, the count of faults shows it, and nothing was appended.
        ensures failed { OnErr result (FaultRose (faults self.old) (faults self.new)) }
        ensures unwritten { OnErr result (written self.new ≡ written self.old) };
}

/// A buffer in memory, as a sink that takes at most `step` bytes in one call.
#[derive(Debug, Drop)]
pub struct MemSink {
    bytes: Vec<u8>,
    taken: usize,
    calls: Calls,
}

impl Model for MemSink {
    ghost use Rattle.std.specs.Prelude.{take, length, ◌≤◌, ◌<◌};
    ghost use Rattle.graft_edge.specs.Tapes.{SinkTape};

    ghost Value = { SinkTape };

    ghost view = { λ s. record { written = take s.taken s.bytes.items; room = length s.bytes.items; calls = s.calls } };

    ghost invariant = { λ s. (s.taken ≤ length s.bytes.items) × (0 < s.calls.step) };
}

impl MemSink {
    /// Returns a sink with room for `room` bytes, all of it allocated here. It takes at most `step`
    /// bytes in one call, where `step` is above 0, and fails at the calls whose numbers are in `fails`,
    /// counted from 1.
    pub fn new(alloc: Global, room: usize, step: usize, fails: &[u32]) -> Result<MemSink, NoMemory>
        requires { 0 < step }
        ensures { IfOk result (λ sink. sink
            ≡ record { written = []; room = room; calls = record { next = 1; fails = fails.now; faults = 0; step = step } }) }
    {
        Ok(MemSink {
            bytes: vec![in alloc; 0; room]?,
            taken: 0,
            calls: Calls::new(alloc, step, fails)?,
        })
    }

    /// Returns the bytes that were written.
    pub fn written(&self) -> &[u8]
        ensures { result.now ≡ self.now.written }
    {
        &self.bytes[..self.taken]
    }
}

/// Copies the first bytes into the buffer from offset `at` on, as many as fit and at most `step`, and
/// returns how many it copied.
fn copy_into(bytes: &[u8], step: usize, buf: &mut [u8], at: usize) -> usize
    requires { at ≤ length buf.old }
    ensures count { result ≡ min step (min (length buf.new - at) (length bytes.now)) }
    ensures written { take (at + result) buf.new ≡ take at buf.old ++ take result bytes.now }
{
    let n = step.min((buf.len() - at).min(bytes.len()));
    buf[at..at + n].copy_from_slice(&bytes[..n]);
    n
}

impl Sink for MemSink {
    ghost use Rattle.graft_edge.specs.Tapes.{fails_next, faulted, called};

    ghost written = { λ s. Some s.written };

    ghost faults = { λ s. s.calls.faults };

    fn write(&mut self, bytes: &[u8]) -> Result<usize, Failed>
        ensures steady { self.old.calls.faults ≤ self.new.calls.faults }
        ensures within { IfOk result (λ n. n ≤ length bytes.now) }
        ensures some { result ≡ Ok 0 → bytes.now ≡ [] }
        ensures appended { IfOk result (λ n. Appended (Some self.old.written) (Some self.new.written) (take n bytes.now)) }
        ensures failed { OnErr result (FaultRose self.old.calls.faults self.new.calls.faults) }
        ensures unwritten { OnErr result (◌≡◌ {A = Option (List ℕ)} (Some self.new.written) (Some self.old.written)) }

        // It fails if and only if the call is one of those that are to fail or there is no room for any of the bytes;
        // otherwise it takes as many as it can.
        ensures fails { IsErr result ↔ (IsTrue (fails_next self.old.calls)
            ⊎ ((self.old.room ≡ length self.old.written) × (0 < length bytes.now))) }
        ensures takes { IfOk result (λ n. n
            ≡ min self.old.calls.step (min (self.old.room - length self.old.written) (length bytes.now))) }
        ensures room { self.new.room ≡ self.old.room }
        ensures counted { self.new.calls ≡ (if is_err result then faulted (called self.old.calls) else called self.old.calls) }
    {
        self.calls.begin()?;
        if self.taken == self.bytes.len() && !bytes.is_empty() {
            self.calls.fault();
            return Err(Failed);
        }
        let n = copy_into(
            bytes,
            self.calls.step,
            self.bytes.as_mut_slice(),
            self.taken,
        );
        self.taken += n;
        Ok(n)
    }
}

/// A writer of std as a sink. It doesn't report what was written.
#[derive(Debug, Drop)]
pub struct StdSink<W> {
    writer: W,
    faults: u64,
}

impl<W: Write> StdSink<W> {
    /// Returns a sink for this writer, with no faults yet.
    pub fn new(writer: W) -> StdSink<W> {
        StdSink { writer, faults: 0 }
    }
}

impl<W: Write> Sink for StdSink<W> {
    ghost written = { λ _. None };

    ghost faults = { λ s. s.faults };

    /// Writes to the writer. A writer that takes none of some bytes has failed.
    fn write(&mut self, bytes: &[u8]) -> Result<usize, Failed> {
        match self.writer.write(bytes) {
            Ok(n) if n > 0 || bytes.is_empty() => Ok(n),
            _ => {
                self.faults = self.faults.saturating_add(1);
                Err(Failed)
            }
        }
    }
}

/// Writes all of the bytes, in as many calls as it takes. It stops at the first call that fails; then
/// only a first part of the bytes is written.
pub fn write_all<K: Sink>(sink: &mut K, bytes: &[u8]) -> Result<(), Failed>
    ensures steady { K.faults sink.old ≤ K.faults sink.new }
    ensures ok { OnOk result (Appended (K.written sink.old) (K.written sink.new) bytes.now) }

    // If it fails, a write failed, and not all of the bytes were appended.
    ensures failed { OnErr result (FaultRose (K.faults sink.old) (K.faults sink.new)) }
    ensures front { OnErr result (AppendedFront (K.written sink.old) (K.written sink.new) bytes.now) }
{
    let mut at = 0;
    while at < bytes.len() {
        at += sink.write(&bytes[at..])?;
    }
    Ok(())
}
