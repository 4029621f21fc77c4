// Reading bytes that stand on pages one behind the other.

ghost use Rattle.std.specs.Prelude.{◌≡◌, ◌+◌, ◌-◌, ◌*◌, ◌^◌, ◌<◌, ◌≤◌, ◌++◌, length, take, min, IsTrue, IfErr, OnOk};
ghost use Rattle.disk_model.specs.Disks.{OnlyReads};
ghost use Rattle.disk_model.specs.Readings.{FailedFrom};
ghost use Rattle.store_model.specs.Disk.{Took, area_of, page_bytes};
ghost use Rattle.store_model.specs.Log.{body_pages};

use crate::{Disk, Page};
use blob_base::{Bytes, IoFault, OutOfMemory, PAGE_BYTES};
use std::alloc::Global;

/// The least number of pages that hold so many bytes.
pub fn pages_for(count: usize) -> u32
    requires { count < 2 ^ 32 }
    ensures { result ≡ body_pages count }
{
    ((count as u64 + 4095) / PAGE_BYTES as u64) as u32
}

/// Adds those of so many bytes that stand on their page of this number.
pub fn append_page(
    alloc: Global,
    page: &Page,
    number: u32,
    count: usize,
    into: &mut Bytes,
) -> Result<(), OutOfMemory>
    requires there { page_bytes * number < count }
    requires most { count < 2 ^ 32 }
    ensures ok { OnOk result (into.new ≡ into.old ++ take (count - page_bytes * number) page.now) }
{
    let left = count - PAGE_BYTES * number as usize;
    let (piece, _) = page.split_at(left.min(PAGE_BYTES));
    into.append(alloc, piece)
}

/// Adds those of the `count` bytes from page `first` on that stand on their page number `from` and on those behind it.
/// Each of these pages is read once. After an `Err` nothing is said of the bytes.
pub fn append_pages<D: Disk>(
    alloc: Global,
    disk: &mut D,
    first: u32,
    from: u32,
    count: usize,
    into: &mut Bytes,
) -> Result<(), IoFault>
    requires within { first + body_pages count ≤ D.size disk.old }
    requires bound { first < 2 ^ 20 }
    requires from { from ≤ body_pages count }
    requires most { count < 2 ^ 32 }
    requires before { length into.old ≡ min count (page_bytes * from) }
    ensures bytes { IsTrue D.tells → into.old ≡ take count (area_of (D.story disk.old).reads first from)
        → OnOk result (into.new ≡ take count (area_of (D.story disk.old).reads first (body_pages count))) }
    ensures long { OnOk result (length into.new ≡ count) }
    ensures only { OnlyReads D.Disk disk.old disk.new }
    ensures reads { IsTrue D.tells → OnOk result (Took (body_pages count - from) 0 0 (D.calls disk.old) (D.calls disk.new)) }
    ensures cause { IfErr result (FailedFrom (D.faults disk.old) (D.faults disk.new)) }
{
    let mut page = [0; PAGE_BYTES];
    for number in from..pages_for(count) {
        disk.read(first + number, &mut page)?;
        append_page(alloc, &page, number, count, into)?;
    }
    Ok(())
}
