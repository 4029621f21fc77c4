// Pages that are filled, and written where they are full.

ghost use Rattle.std.specs.Prelude.{◌≡◌, ◌+◌, ◌-◌, ◌/◌, ◌%◌, ◌^◌, ◌<◌, ◌≤◌, List, ℕ, ◌++◌, length, IsTrue, OnOk};
ghost use Rattle.disk_model.specs.Disks.{Caused, OnlyWrites};
ghost use Rattle.store_model.specs.Disk.{Took, page_bytes};
ghost use Rattle.store_model.specs.Images.{Within};
ghost use Rattle.store_model.specs.Log.{body_page, body_pages};
ghost use Rattle.check_point.specs.Halves.{Ends, Stand, filled_pages};

use blob_base::{IoFault, PAGE_BYTES};
use disk_model::{Disk, Page};

/// Puts bytes on a page, behind those that were taken for it.
pub(crate) fn fill(page: &mut Page, taken: u32, piece: &[u8])
    requires { taken % page_bytes + length piece.now ≤ page_bytes }
    ensures { (before : List ℕ) → Ends before taken page.old
        → page.new ≡ body_page (before ++ piece.now) (taken / page_bytes) }
{
    let at = taken as usize % PAGE_BYTES;
    page[at..at + piece.len()].copy_from_slice(piece);
}

// Takes bytes that the page has room for, and writes the page where it is full then. After a fault that page may have been
// written, and may read as any bytes.
fn add<D: Disk>(
    disk: &mut D,
    first: u32,
    taken: u32,
    page: &mut Page,
    piece: &[u8],
) -> Result<(), IoFault>
    requires room { taken % page_bytes + length piece.now ≤ page_bytes }
    requires within { first + (taken + length piece.now) / page_bytes ≤ D.size disk.old }
    requires most { first + (taken + length piece.now) / page_bytes < 2 ^ 20 }
    requires some { taken ≤ 2 ^ 22 }
    ensures page { (before : List ℕ) → Ends before taken page.old
        → OnOk result (Ends (before ++ piece.now) (taken + length piece.now) page.new) }
    ensures reads { IsTrue D.tells → (before : List ℕ) → Ends before taken page.old
        → Stand first (taken / page_bytes) before (D.story disk.old).reads
        → OnOk result (Stand first ((taken + length piece.now) / page_bytes) (before ++ piece.now) (D.story disk.new).reads) }
    ensures wrote { OnlyWrites D.Disk
        (Within (first + taken / page_bytes) (filled_pages taken (length piece.now))) disk.old disk.new }
    ensures calls { IsTrue D.tells
        → OnOk result (Took 0 (filled_pages taken (length piece.now)) 0 (D.calls disk.old) (D.calls disk.new)) }
    ensures cause { Caused D.Disk disk.old disk.new result }
{
    fill(page, taken, piece);
    if taken as usize % PAGE_BYTES + piece.len() == PAGE_BYTES {
        disk.write(first + taken / PAGE_BYTES as u32, page)?;
        *page = [0; PAGE_BYTES];
    }
    Ok(())
}

/// Takes bytes behind those that were taken before, and writes each page that is full then, from page `first` on. After a
/// fault some of these pages may have been written, and the last of them may read as any bytes.
pub(crate) fn append<D: Disk>(
    disk: &mut D,
    first: u32,
    taken: u32,
    page: &mut Page,
    bytes: &[u8],
) -> Result<(), IoFault>
    requires within { first + (taken + length bytes.now) / page_bytes ≤ D.size disk.old }
    requires most { first + (taken + length bytes.now) / page_bytes < 2 ^ 20 }
    requires some { taken + length bytes.now ≤ 2 ^ 22 }
    ensures page { (before : List ℕ) → Ends before taken page.old
        → OnOk result (Ends (before ++ bytes.now) (taken + length bytes.now) page.new) }
    ensures reads { IsTrue D.tells → (before : List ℕ) → Ends before taken page.old
        → Stand first (taken / page_bytes) before (D.story disk.old).reads
        → OnOk result (Stand first ((taken + length bytes.now) / page_bytes) (before ++ bytes.now) (D.story disk.new).reads) }
    ensures wrote { OnlyWrites D.Disk
        (Within (first + taken / page_bytes) (filled_pages taken (length bytes.now))) disk.old disk.new }
    ensures calls { IsTrue D.tells
        → OnOk result (Took 0 (filled_pages taken (length bytes.now)) 0 (D.calls disk.old) (D.calls disk.new)) }
    ensures cause { Caused D.Disk disk.old disk.new result }
{
    let mut rest = bytes;
    let mut sum = taken;
    while rest.len() > 0 {
        let room = PAGE_BYTES - sum as usize % PAGE_BYTES;
        let (piece, others) = rest.split_at(room.min(rest.len()));
        add(disk, first, sum, page, piece)?;
        sum += piece.len() as u32;
        rest = others;
    }
    Ok(())
}

/// Writes the page that the last bytes stand on, where they don't fill it. After a fault it may read as any bytes.
pub(crate) fn close<D: Disk>(
    disk: &mut D,
    first: u32,
    taken: u32,
    page: &Page,
) -> Result<(), IoFault>
    requires within { first + body_pages taken ≤ D.size disk.old }
    requires most { first + body_pages taken < 2 ^ 20 }
    requires some { taken ≤ 2 ^ 22 }
    ensures reads { IsTrue D.tells → (bytes : List ℕ) → Ends bytes taken page.now
        → Stand first (taken / page_bytes) bytes (D.story disk.old).reads
        → OnOk result (Stand first (body_pages taken) bytes (D.story disk.new).reads) }
    ensures wrote { OnlyWrites D.Disk (Within (first + taken / page_bytes) (body_pages taken - taken / page_bytes)) disk.old disk.new }
    ensures calls { IsTrue D.tells
        → OnOk result (Took 0 (body_pages taken - taken / page_bytes) 0 (D.calls disk.old) (D.calls disk.new)) }
    ensures cause { Caused D.Disk disk.old disk.new result }
{
    if taken as usize % PAGE_BYTES > 0 {
        disk.write(first + taken / PAGE_BYTES as u32, page)?;
    }
    Ok(())
}
