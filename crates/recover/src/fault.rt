// Why a disk isn't opened.

ghost use Rattle.std.specs.Prelude.{◌≡◌};
ghost use Rattle.recover.specs.Faults.{from_io, half_fault};
ghost use Rattle.recover.specs.declared.fault.RecoverFault.TheVariants as fault;

use blob_base::{IoFault, OutOfMemory, StoreRefusal};
use check_point::HalfFault;

/// Why a disk isn't opened, or isn't formatted.
#[derive(Clone, Copy, Debug, PartialEq, Eq)]
pub enum RecoverFault {
    /// It is no store, or has too few pages.
    Refused { why: StoreRefusal },
    /// The disk failed.
    Failed,
    OutOfMemory,
}

impl From<IoFault> for RecoverFault {
    ghost from_gives = { λ io e. e ≡ from_io io };

    fn from(io: IoFault) -> Self {
        match io {
            IoFault::Failed => RecoverFault::Failed,
            IoFault::OutOfMemory => RecoverFault::OutOfMemory,
        }
    }
}

impl From<OutOfMemory> for RecoverFault {
    ghost from_gives = { λ _ e. e ≡ fault.OutOfMemory };

    fn from(_: OutOfMemory) -> Self {
        RecoverFault::OutOfMemory
    }
}

/// Why this half isn't read.
pub(crate) fn of_half(half: u32, fault: HalfFault) -> RecoverFault
    ensures { result ≡ half_fault half fault }
{
    let why = match fault {
        HalfFault::TooSmall { need, have } => StoreRefusal::TooSmall { need, have },
        HalfFault::BadHalf { at } => StoreRefusal::BadHalf { half, at },
        HalfFault::BadTuple { at } => StoreRefusal::BadTuple { half, at },
        HalfFault::Failed => return RecoverFault::Failed,
        HalfFault::OutOfMemory => return RecoverFault::OutOfMemory,
    };
    RecoverFault::Refused { why }
}
