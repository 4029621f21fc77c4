// Why a step of a run has no answer.

ghost use Rattle.std.specs.Prelude.{◌≡◌};
ghost use Rattle.blob_steps.specs.Faults.{lead_fault, store_fault};
ghost use Rattle.blob_steps.specs.declared.fault.StoreFault.TheVariants as fault;

use blob_base::{IoFault, Key, OutOfMemory};
use std::alloc::AllocError;
use vault::{Cause, LeadFault};

/// Why a step has no answer.
#[derive(Drop)]
pub(crate) enum StoreFault {
    /// The disk failed.
    Failed,
    /// There was no memory.
    OutOfMemory,
    /// The bytes read for this key's content don't lead to what its state keeps: this link is the first that fails, with
    /// the value that is kept and the one that the bytes give.
    Damaged {
        key: Key,
        link: u32,
        want: [u8; 32],
        got: [u8; 32],
    },
}

impl From<IoFault> for StoreFault {
    ghost from_gives = { λ io e. e ≡ store_fault io };

    fn from(io: IoFault) -> Self {
        match io {
            IoFault::Failed => StoreFault::Failed,
            IoFault::OutOfMemory => StoreFault::OutOfMemory,
        }
    }
}

impl From<OutOfMemory> for StoreFault {
    ghost from_gives = { λ _ e. e ≡ fault.OutOfMemory };

    fn from(_: OutOfMemory) -> Self {
        StoreFault::OutOfMemory
    }
}

impl From<AllocError> for StoreFault {
    ghost from_gives = { λ _ e. e ≡ fault.OutOfMemory };

    fn from(_: AllocError) -> Self {
        StoreFault::OutOfMemory
    }
}

impl From<LeadFault> for StoreFault {
    ghost from_gives = { λ lead e. e ≡ lead_fault lead };

    fn from(lead: LeadFault) -> Self {
        match lead {
            LeadFault::Shut { cause: Cause::Disk } => StoreFault::Failed,
            LeadFault::Shut {
                cause: Cause::Memory,
            } => StoreFault::OutOfMemory,
            LeadFault::OutOfMemory => StoreFault::OutOfMemory,
        }
    }
}
