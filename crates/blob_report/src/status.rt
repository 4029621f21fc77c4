// The statuses of faults.

ghost use Rattle.std.specs.Prelude.{◌≡◌};
ghost use Rattle.vault.specs.Faults.{gather_fault_of};
ghost use Rattle.blob_report.specs.Ends.{disk_ending, print_ending};
ghost use Rattle.blob_report.specs.Reports.{opening_ending};

use blob_base::IoFault;
use blob_script::Status;
use recover::RecoverFault;
use vault::GatherFault;

/// The status of a text that wasn't printed whole.
pub(crate) fn print_status(cause: IoFault) -> Status
    ensures { result ≡ print_ending cause }
{
    match cause {
        IoFault::Failed => Status::WriteFault,
        IoFault::OutOfMemory => Status::OutOfMemory,
    }
}

/// The status of a content that wasn't read, as the disk failed.
pub(crate) fn unread_status(fault: GatherFault) -> Status
    requires { (cause : IoFault) × (fault ≡ gather_fault_of cause) }
    ensures { (cause : IoFault) → fault ≡ gather_fault_of cause → result ≡ disk_ending cause }
{
    match fault {
        GatherFault::Failed => Status::DiskFault,
        GatherFault::OutOfMemory => Status::OutOfMemory,
        GatherFault::Shut { .. } | GatherFault::Stale { .. } => unreachable!(),
    }
}

/// The status of a disk that wasn't opened, or wasn't formatted.
pub fn opening_status(fault: RecoverFault) -> Status
    ensures { result ≡ opening_ending fault }
{
    match fault {
        RecoverFault::Refused { why } => Status::Refused { why },
        RecoverFault::Failed => Status::DiskFault,
        RecoverFault::OutOfMemory => Status::OutOfMemory,
    }
}
