// Why a vault is shut, and why it doesn't lead.

ghost use Rattle.std.specs.Prelude.{◌≡◌};
ghost use Rattle.vault.specs.Faults.{cause_of as model_cause, gather_fault_of};
ghost use Rattle.vault.specs.declared.fault.LeadFault.TheVariants as fault;

use blob_base::{IoFault, OutOfMemory};
use recover::RecoverFault;

/// Why a vault is shut: what the device call answered that failed.
#[derive(Clone, Copy, Debug, PartialEq, Eq)]
pub enum Cause {
    /// The disk failed.
    Disk,
    /// The disk found no memory.
    Memory,
}

/// Why a vault doesn't lead or turn.
#[derive(Clone, Copy, Debug, PartialEq, Eq)]
pub enum LeadFault {
    /// A device call failed, now or before, and the vault is shut for good.
    Shut { cause: Cause },
    /// There was no memory, and nothing was written.
    OutOfMemory,
}

/// Why bytes of a content aren't read. It shuts no vault.
#[derive(Clone, Copy, Debug, PartialEq, Eq)]
pub enum GatherFault {
    /// The vault was shut before.
    Shut { cause: Cause },
    /// The key has its content under this number now, or has none.
    Stale { now: Option<u64> },
    /// The disk failed.
    Failed,
    /// The disk found no memory.
    OutOfMemory,
}

impl From<IoFault> for GatherFault {
    ghost from_gives = { λ io e. e ≡ gather_fault_of io };

    fn from(io: IoFault) -> Self {
        match io {
            IoFault::Failed => GatherFault::Failed,
            IoFault::OutOfMemory => GatherFault::OutOfMemory,
        }
    }
}

impl From<OutOfMemory> for LeadFault {
    ghost from_gives = { λ _ e. e ≡ fault.OutOfMemory };

    fn from(_: OutOfMemory) -> Self {
        LeadFault::OutOfMemory
    }
}

/// A disk that isn't opened, and why.
#[derive(Drop)]
pub struct OpenFailed<D> {
    pub disk: D,
    pub fault: RecoverFault,
}

/// The cause that a fault of the disk is.
pub(crate) fn cause_of(io: IoFault) -> Cause
    ensures { result ≡ model_cause io }
{
    match io {
        IoFault::Failed => Cause::Disk,
        IoFault::OutOfMemory => Cause::Memory,
    }
}
