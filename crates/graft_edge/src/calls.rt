//! The calls of a source or a sink in memory.

ghost use Rattle.std.specs.Prelude.{◌≡◌, IfOk, is_err, if◌then◌else◌};
ghost use Rattle.graft_edge.specs.Tapes.{fails_next, faulted, called};

use crate::items::Items;
use crate::memory::NoMemory;
use crate::source::Failed;
use std::alloc::Global;

/// Counts the calls of a source or a sink in memory, and says which of them fail. Both counts stop at
/// 2^64 - 1.
#[derive(Debug, Drop)]
pub struct Calls {
    /// The number of the next call, counted from 1.
    pub next: u64,
    /// The numbers of the calls that are to fail.
    pub fails: Items<u32>,
    /// The number of calls that failed.
    pub faults: u64,
    /// The greatest number of bytes that one call moves.
    pub step: usize,
}

impl Calls {
    /// Returns the record of a source or a sink before its first call.
    pub(crate) fn new(alloc: Global, step: usize, fails: &[u32]) -> Result<Calls, NoMemory>
        ensures { IfOk result (λ calls. calls ≡ record { next = 1; fails = fails.now; faults = 0; step = step }) }
    {
        Ok(Calls {
            next: 1,
            fails: Items::from_slice(alloc, fails)?,
            faults: 0,
            step,
        })
    }

    /// Whether the next call is one of those that are to fail.
    fn is_next_failing(&self) -> bool
        ensures { result ≡ fails_next self.now }
    {
        self.fails.iter().any(|call| u64::from(*call) == self.next)
    }

    /// Counts a fault.
    pub(crate) fn fault(&mut self)
        ensures { self.new ≡ faulted self.old }
    {
        self.faults = self.faults.saturating_add(1);
    }

    /// Counts a call. If it is one of those that are to fail, it counts a fault too and fails.
    pub(crate) fn begin(&mut self) -> Result<(), Failed>
        ensures fails { is_err result ≡ fails_next self.old }
        ensures counted { self.new ≡ (if fails_next self.old then faulted (called self.old) else called self.old) }
    {
        let fails = self.is_next_failing();
        self.next = self.next.saturating_add(1);
        if fails {
            self.fault();
            return Err(Failed);
        }
        Ok(())
    }
}
