// The format of a new disk.

ghost use Rattle.std.specs.Prelude.{◌≡◌, ◌<◌, IfErr, IsErrOf, IsTrue, OnOk};
ghost use Rattle.std.specs.FinMap.{empty};
ghost use Rattle.blob_base.specs.declared.faults.StoreRefusal.TheVariants.{TooSmall};
ghost use Rattle.disk_model.specs.Disks.{OnlyWrites};
ghost use Rattle.recover.specs.Faults.{FormatCameFrom};
ghost use Rattle.recover.specs.Turns.{IsTurnPage, found_by};
ghost use Rattle.recover.specs.declared.fault.RecoverFault.TheVariants.{Refused};
ghost use Rattle.store_model.specs.Disk.{Took};
ghost use Rattle.store_model.specs.Layout.{total_pages};
ghost use Rattle.store_model.specs.Reading.{Opened, Reads};

use crate::fault::RecoverFault;
use crate::turning::turn_to;
use blob_base::StoreRefusal;
use check_point::HalfWriter;
use disk_model::{Disk, Layout};

/// Makes a disk one that reads as a store of this layout without states. Only its first half is written, and the selector.
pub fn format<D: Disk>(disk: &mut D, layout: Layout) -> Result<(), RecoverFault>
    // Where the disk has too few pages, nothing has changed.
    ensures small { D.size disk.old < total_pages layout
        → IsErrOf result (Refused (TooSmall (total_pages layout) (D.size disk.old))) }
    ensures untouched { D.size disk.old < total_pages layout → disk.new ≡ disk.old }
    ensures reads { IsTrue D.tells
        → OnOk result (Reads (D.size disk.old) (D.story disk.new).reads (Opened (found_by layout 0 empty))) }

    // No other page has changed, and a crash leaves each other page as before.
    ensures wrote { OnlyWrites D.Disk (IsTurnPage layout 0) disk.old disk.new }
    ensures calls { IsTrue D.tells → OnOk result (Took 0 3 2 (D.calls disk.old) (D.calls disk.new)) }
    ensures cause { IfErr result (FormatCameFrom (total_pages layout) (D.size disk.old)
        (D.faults disk.old) (D.faults disk.new) (D.frugal disk.old)) }
{
    let need = layout.total();
    let have = disk.pages();
    if have < need {
        return Err(RecoverFault::Refused {
            why: StoreRefusal::TooSmall {
                need: u64::from(need),
                have: u64::from(have),
            },
        });
    }
    layout.rules();
    turn_to(disk, HalfWriter::start(layout, 0, 0), 0)?;
    Ok(())
}
