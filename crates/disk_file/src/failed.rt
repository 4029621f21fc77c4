// Why a file isn't opened.

ghost use Rattle.std.specs.Prelude.{◌≡◌};
ghost use Rattle.std.specs.IoError.{error_kind};
ghost use Rattle.disk_file.specs.Failed.{failed_of};

use std::io;

/// Why a file isn't opened as a disk.
#[derive(Clone, Copy, Debug, PartialEq, Eq)]
pub enum OpenFailed {
    /// The system refused a call on the path.
    Refused,
    /// The system found no memory.
    OutOfMemory,
}

impl From<io::Error> for OpenFailed {
    ghost from_gives = { λ error failed. failed ≡ failed_of (error_kind error) };

    fn from(error: io::Error) -> OpenFailed {
        if error.kind() == io::ErrorKind::OutOfMemory {
            OpenFailed::OutOfMemory
        } else {
            OpenFailed::Refused
        }
    }
}
