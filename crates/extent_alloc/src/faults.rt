// Why no place is given, and why no space is built.

ghost use Rattle.std.specs.Prelude.{◌≡◌};
ghost use Rattle.extent_alloc.specs.declared.faults.BuildFault.TheVariants as fault;

use blob_base::OutOfMemory;
use std::alloc::AllocError;

/// No place of this tier is free.
#[derive(Clone, Copy, Debug, PartialEq, Eq)]
pub struct NoSpace {
    pub tier: u32,
}

/// Why no space is built.
#[derive(Clone, Copy, Debug, PartialEq, Eq)]
pub enum BuildFault {
    /// Two of the blocks share this page, and none below it.
    OwnedTwice { page: u32 },
    /// There was no memory.
    OutOfMemory,
}

impl From<AllocError> for BuildFault {
    ghost from_gives = { λ _ e. e ≡ fault.OutOfMemory };

    fn from(_: AllocError) -> Self {
        BuildFault::OutOfMemory
    }
}

impl From<OutOfMemory> for BuildFault {
    ghost from_gives = { λ _ e. e ≡ fault.OutOfMemory };

    fn from(_: OutOfMemory) -> Self {
        BuildFault::OutOfMemory
    }
}
