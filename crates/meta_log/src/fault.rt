// Why a body isn't laid.

ghost use Rattle.std.specs.Prelude.{◌≡◌};
ghost use Rattle.meta_log.specs.LayFaults.{lay_fault};

use blob_base::IoFault;

/// Why a body isn't laid.
#[derive(Clone, Copy, Debug, PartialEq, Eq)]
pub enum LayFault {
    /// It takes `need` pages with the gate behind it, and the log has `left`.
    LogFull { need: u32, left: u32 },
    /// The disk failed.
    Failed,
    /// The disk found no memory.
    OutOfMemory,
}

impl From<IoFault> for LayFault {
    ghost from_gives = { λ io e. e ≡ lay_fault io };

    fn from(io: IoFault) -> Self {
        match io {
            IoFault::Failed => LayFault::Failed,
            IoFault::OutOfMemory => LayFault::OutOfMemory,
        }
    }
}
