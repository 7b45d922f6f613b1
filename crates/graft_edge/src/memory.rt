//! Running out of memory.

ghost use Rattle.std.specs.Prelude.{◌≡◌, IfOk};

use std::alloc::{AllocError, AllocFailed};
use thiserror::Error;

/// Memory ran out. A call that returns this has changed nothing, unless it says otherwise.
#[derive(Clone, Copy, Debug, PartialEq, Eq, Hash, Error)]
#[error("no memory")]
pub struct NoMemory;

impl From<AllocError> for NoMemory {
    fn from(_error: AllocError) -> NoMemory {
        NoMemory
    }
}

impl<T: Drop> From<AllocFailed<T>> for NoMemory {
    fn from(_error: AllocFailed<T>) -> NoMemory {
        NoMemory
    }
}

/// A value that can be copied, unless memory runs out.
pub trait TryCopy: Drop + Sized {
    /// Returns an equal value, in memory of its own.
    fn copy(&self) -> Result<Self, NoMemory>
        ensures { IfOk result (λ copy. copy ≡ self.now) };
}

impl TryCopy for u8 {
    fn copy(&self) -> Result<u8, NoMemory> {
        Ok(*self)
    }
}

impl TryCopy for u32 {
    fn copy(&self) -> Result<u32, NoMemory> {
        Ok(*self)
    }
}

impl TryCopy for u64 {
    fn copy(&self) -> Result<u64, NoMemory> {
        Ok(*self)
    }
}
