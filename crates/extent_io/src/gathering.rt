// Reading bytes of a content.

ghost use Rattle.std.specs.Prelude.{◌≡◌, ℕ, ◌+◌, ◌-◌, ◌*◌, ◌/◌, ◌<◌, ◌≤◌, List, length, take, drop, min, IsTrue, IfOk, OnOk};
ghost use Rattle.disk_model.specs.Disks.{Caused, OnlyReads};
ghost use Rattle.store_model.specs.Cost.{Reads};
ghost use Rattle.store_model.specs.Disk.{Took, page_bytes};
ghost use Rattle.store_model.specs.Holds.{Holds, pages_across, place_of};
ghost use Rattle.store_model.specs.Layout.{data_page, data_pages, total_pages};
ghost use Rattle.store_model.specs.Shape.{greatest_size};
ghost use Rattle.store_model.specs.Space.{AreBlocks, blocks_of};
ghost use Rattle.extent_io.specs.Pages.{BeginsAs, FrontAs, bytes_before};

use crate::places::{full_pages, stand};
use blob_base::{IoFault, PAGE_BYTES};
use blob_state::BlobState;
use disk_model::{Disk, Layout, Page};

/// Reads the bytes of a state's content from `off` on into `into`, as many as there are and fit, and answers how many.
/// Each page that has any of them is read once. After an `Err` nothing is said of the bytes in `into`.
pub fn gather<D: Disk>(
    disk: &mut D,
    layout: Layout,
    state: &BlobState,
    off: u64,
    into: &mut [u8],
) -> Result<usize, IoFault>
    requires disk { total_pages layout ≤ D.size disk.old }
    requires within { AreBlocks (data_pages layout) (blocks_of (place_of state.now)) }
    ensures bytes { IsTrue D.tells → (content : List ℕ) → Holds (D.story disk.old).reads (data_page layout) state.now content
        → IfOk result (λ n. take n into.new ≡ take n (drop off content)) }
    ensures count { IfOk result (λ n. n ≡ min (length into.old) (state.now.size - off)) }
    ensures length { length into.new ≡ length into.old }
    ensures reads { IsTrue D.tells → IfOk result (λ n. Took (pages_across off n) 0 0 (D.calls disk.old) (D.calls disk.new)) }
    ensures still { IsTrue D.tells → Reads (D.calls disk.old) (D.calls disk.new) }
    ensures only_reads { OnlyReads D.Disk disk.old disk.new }
    ensures cause { Caused D.Disk disk.old disk.new result }
{
    let count = (into.len() as u64).min(state.size().saturating_sub(off)) as usize;
    if count == 0 {
        return Ok(0);
    }
    gather_pages(disk, layout, state, off, &mut into[..count])?;
    Ok(count)
}

// Reads as many bytes as fit, which are there.
fn gather_pages<D: Disk>(
    disk: &mut D,
    layout: Layout,
    state: &BlobState,
    off: u64,
    into: &mut [u8],
) -> Result<(), IoFault>
    requires disk { total_pages layout ≤ D.size disk.old }
    requires within { AreBlocks (data_pages layout) (blocks_of (place_of state.now)) }
    requires some { 0 < length into.old }
    requires there { off + length into.old ≤ state.now.size }
    ensures bytes { IsTrue D.tells → (content : List ℕ) → Holds (D.story disk.old).reads (data_page layout) state.now content
        → OnOk result (FrontAs into.new off content (length into.old)) }
    ensures length { length into.new ≡ length into.old }
    ensures reads { IsTrue D.tells
        → OnOk result (Took ((off + length into.old - 1) / page_bytes + 1 - off / page_bytes) 0 0 (D.calls disk.old) (D.calls disk.new)) }
    ensures still { IsTrue D.tells → Reads (D.calls disk.old) (D.calls disk.new) }
    ensures only_reads { OnlyReads D.Disk disk.old disk.new }
    ensures cause { Caused D.Disk disk.old disk.new result }
{
    state.rules();
    let first = (off / PAGE_BYTES as u64) as u32;
    let last = ((off + into.len() as u64 - 1) / PAGE_BYTES as u64) as u32;
    let mut page = [0; PAGE_BYTES];
    for number in first..last + 1 {
        read_page(disk, layout, state, number, &mut page)?;
        lay(&page, number, off as usize, into);
    }
    Ok(())
}

// Reads page number `number` of the content, a full page or the tail page.
fn read_page<D: Disk>(
    disk: &mut D,
    layout: Layout,
    state: &BlobState,
    number: u32,
    into: &mut Page,
) -> Result<(), IoFault>
    requires disk { total_pages layout ≤ D.size disk.old }
    requires within { AreBlocks (data_pages layout) (blocks_of (place_of state.now)) }
    requires number { page_bytes * number < state.now.size }
    ensures bytes { IsTrue D.tells → OnOk result ((content : List ℕ)
        → Holds (D.story disk.old).reads (data_page layout) state.now content → BeginsAs into.new number content) }
    ensures reads { IsTrue D.tells → OnOk result (Took 1 0 0 (D.calls disk.old) (D.calls disk.new)) }
    ensures still { IsTrue D.tells → Reads (D.calls disk.old) (D.calls disk.new) }
    ensures only_reads { OnlyReads D.Disk disk.old disk.new }
    ensures cause { Caused D.Disk disk.old disk.new result }
{
    state.rules();
    layout.rules();
    if number < full_pages(state) {
        let at = stand(layout, state, number);
        return disk.read(layout.data() + at, into);
    }
    match state.tail() {
        Some(page) => disk.read(layout.data() + page, into),
        None => Ok(()),
    }
}

// Lays those bytes of page number `number` of a content that `into` asks for, which has room for its bytes from `off` on.
fn lay(page: &Page, number: u32, off: usize, into: &mut [u8])
    requires from { off < page_bytes * (number + 1) }
    requires to { page_bytes * number < off + length into.old }
    requires bound { off + length into.old ≤ greatest_size }
    ensures bytes { (content : List ℕ) → off + length into.old ≤ length content → BeginsAs page.now number content
        → FrontAs into.old off content (bytes_before off (length into.old) number)
        → FrontAs into.new off content (bytes_before off (length into.old) (number + 1)) }
    ensures length { length into.new ≡ length into.old }
{
    let start = PAGE_BYTES * number as usize;
    let from = off.max(start);
    let to = (off + into.len()).min(start + PAGE_BYTES);
    into[from - off..to - off].copy_from_slice(&page[from - start..to - start]);
}
