// The format of a store.

ghost use Rattle.std.specs.Prelude.{◌≡◌, ◌<◌, ◌≤◌, IsTrue};
ghost use Rattle.std.specs.FinMap.{empty};
ghost use Rattle.std.specs.Io.KnownBytes.{Appends};
ghost use Rattle.blob_base.specs.Faults.{KeepsEnd};
ghost use Rattle.blob_base.specs.declared.faults.StoreRefusal.TheVariants.{TooSmall};
ghost use Rattle.disk_model.specs.Disks.{OnlyWrites};
ghost use Rattle.recover.specs.Turns.{IsTurnPage, found_by};
ghost use Rattle.store_model.specs.Layout.{total_pages};
ghost use Rattle.store_model.specs.Reading.{Opened, Reads};
ghost use Rattle.store_model.specs.Report.{format_text};
ghost use Rattle.blob_report.specs.Ends.{IsCaused, TookFront};
ghost use Rattle.blob_report.specs.Reports.{IsAtWork};

use crate::printing::print;
use crate::status::opening_status;
use blob_script::{Status, formatted_line};
use disk_model::{Disk, Layout};
use io_ends::Sink;
use recover::format;

/// Formats a store of this layout on a disk, and prints how many pages it takes.
pub fn run_format<K: Sink, D: Disk>(layout: Layout, sink: &mut K, disk: &mut D) -> Status
    // Where the disk has too few pages, nothing was done.
    ensures small { D.size disk.old < total_pages layout
        → result ≡ Status.Refused (TooSmall (total_pages layout) (D.size disk.old)) }
    ensures untouched { D.size disk.old < total_pages layout → (sink.new ≡ sink.old) × (disk.new ≡ disk.old) }
    ensures accepted { total_pages layout ≤ D.size disk.old → IsAtWork result }
    ensures front { TookFront (K.taken sink.old) (K.taken sink.new) (format_text layout) }
    ensures unsaid { result ≡ Status.DiskFault → sink.new ≡ sink.old }
    ensures printed { result ≡ Status.Done → Appends (K.taken sink.old) (K.taken sink.new) (format_text layout) }
    ensures reads { IsTrue D.tells → result ≡ Status.Done
        → Reads (D.size disk.old) (D.story disk.new).reads (Opened (found_by layout 0 empty)) }

    // No other page has changed, and a crash leaves each other page as before.
    ensures wrote { OnlyWrites D.Disk (IsTurnPage layout 0) disk.old disk.new }
    ensures caused { IsCaused result (K.faults sink.old) (K.faults sink.new) (D.faults disk.old) (D.faults disk.new) }
    ensures keeps { KeepsEnd K.faults K.frugal sink.old sink.new }
{
    match format(disk, layout) {
        Ok(()) => {}
        Err(fault) => return opening_status(fault),
    }
    match print(sink, formatted_line(layout.total()).as_slice()) {
        Ok(()) => Status::Done,
        Err(status) => status,
    }
}
