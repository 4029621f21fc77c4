// The faults that calls of the lower layers answer.

ghost use Rattle.blob_base.specs.declared.faults.IoFault.TheVariants as fault;
ghost use Rattle.std.specs.Prelude.{◌≡◌};

use std::alloc::{AllocError, AllocFailed};

/// There was no memory. What the call was to change is as before.
#[derive(Clone, Copy, Debug, PartialEq, Eq)]
pub struct OutOfMemory;

impl From<AllocError> for OutOfMemory {
    fn from(_: AllocError) -> Self {
        OutOfMemory
    }
}

impl<T: Drop> From<AllocFailed<T>> for OutOfMemory {
    fn from(_: AllocFailed<T>) -> Self {
        OutOfMemory
    }
}

/// Why a source, a sink or a disk failed.
#[derive(Clone, Copy, Debug, PartialEq, Eq)]
pub enum IoFault {
    /// The outside failed; the object has counted it.
    Failed,
    /// The object found no memory of its own, and nothing has changed.
    OutOfMemory,
}

impl From<OutOfMemory> for IoFault {
    ghost from_gives = { λ _ e. e ≡ fault.OutOfMemory };

    fn from(_: OutOfMemory) -> Self {
        IoFault::OutOfMemory
    }
}

/// Why a disk isn't opened as a store.
#[derive(Clone, Copy, Debug, PartialEq, Eq)]
pub enum StoreRefusal {
    /// The disk has `have` pages, and the store takes `need`.
    TooSmall { need: u64, have: u64 },
    /// The header of this half breaks a rule at this byte.
    BadHalf { half: u32, at: u32 },
    /// The states of this half break a rule at this byte of their area.
    BadTuple { half: u32, at: u32 },
    /// The log of this half has a body that is refused behind the gate at this page of its area.
    BadFrame { half: u32, page: u32 },
    /// This data page lies in two of the extents and tails that are owned.
    OwnedTwice { page: u32 },
}
