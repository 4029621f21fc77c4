// Writing a content.

ghost use Rattle.std.specs.Prelude.{◌≡◌, ℕ, ◌+◌, ◌*◌, ◌/◌, ◌%◌, ◌≤◌, List, length, drop, min, Some, IsTrue, OnOk};
ghost use Rattle.disk_model.specs.Disks.{Caused, OnlyWrites};
ghost use Rattle.store_model.specs.Disk.{Took, page_bytes, page_of};
ghost use Rattle.store_model.specs.Holds.{Holds, HoldsFront, IsFullPage, IsPoured, IsTailPage, pages_from, place_of, rest_of};
ghost use Rattle.store_model.specs.Layout.{data_page, data_pages, total_pages};
ghost use Rattle.store_model.specs.Space.{Apart, AreBlocks, blocks_of};
ghost use Rattle.extent_io.specs.Pages.{PagesRead};

use crate::places::{full_pages, stand, tail_length};
use blob_base::{IoFault, PAGE_BYTES};
use blob_state::BlobState;
use disk_model::{Disk, Layout, Page};

/// Writes a content to the places of its state: its full pages from number `from_page` on, and its tail page, filled with
/// zeros. `rest` is the content from byte `4096 * from_page` on. After an `Err` some of these pages may have been
/// written, and the last of them may read as any bytes.
pub fn pour<D: Disk>(
    disk: &mut D,
    layout: Layout,
    state: &BlobState,
    from_page: u32,
    rest: &[u8],
) -> Result<(), IoFault>
    requires disk { total_pages layout ≤ D.size disk.old }
    requires within { AreBlocks (data_pages layout) (blocks_of (place_of state.now)) }
    requires apart { Apart (blocks_of (place_of state.now)) }
    requires from { from_page ≤ state.now.size / page_bytes }
    requires rest { page_bytes * from_page + length rest.now ≡ state.now.size }

    // The disk holds the content, where it held the pages before these.
    ensures holds { IsTrue D.tells → (content : List ℕ) → length content ≡ state.now.size
        → rest.now ≡ drop (page_bytes * from_page) content
        → HoldsFront from_page (D.story disk.old).reads (data_page layout) (place_of state.now) content
        → OnOk result (Holds (D.story disk.new).reads (data_page layout) state.now content) }

    // The tail page has zeros behind the content's last bytes.
    ensures filled { IsTrue D.tells → OnOk result ((page : ℕ) → state.now.tail ≡ Some page
        → (D.story disk.new).reads (data_page layout + page) ≡ page_of (rest_of rest.now)) }

    // No other page has changed, and a crash leaves each other page as before.
    ensures wrote { OnlyWrites D.Disk (IsPoured layout state.now from_page) disk.old disk.new }

    // Each page is written once.
    ensures writes { IsTrue D.tells
        → OnOk result (Took 0 (pages_from state.now.size from_page) 0 (D.calls disk.old) (D.calls disk.new)) }
    ensures cause { Caused D.Disk disk.old disk.new result }
{
    state.rules();
    let (pages, end) = rest.as_chunks::<PAGE_BYTES>();
    pour_full(disk, layout, state, from_page, pages)?;
    pour_tail(disk, layout, state, end)
}

// Writes the full pages from number `from_page` on.
fn pour_full<D: Disk>(
    disk: &mut D,
    layout: Layout,
    state: &BlobState,
    from_page: u32,
    pages: &[Page],
) -> Result<(), IoFault>
    requires disk { total_pages layout ≤ D.size disk.old }
    requires within { AreBlocks (data_pages layout) (blocks_of (place_of state.now)) }
    requires apart { Apart (blocks_of (place_of state.now)) }
    requires pages { from_page + length pages.now ≡ state.now.size / page_bytes }
    ensures reads { IsTrue D.tells → OnOk result (PagesRead (data_page layout) (place_of state.now) from_page (state.now.size / page_bytes) pages.now (D.story disk.new).reads) }
    ensures wrote { OnlyWrites D.Disk
        (IsFullPage (data_page layout) (place_of state.now) from_page (state.now.size / page_bytes)) disk.old disk.new }
    ensures calls { IsTrue D.tells → OnOk result (Took 0 (length pages.now) 0 (D.calls disk.old) (D.calls disk.new)) }
    ensures cause { Caused D.Disk disk.old disk.new result }
{
    layout.rules();
    let full = full_pages(state);
    for number in from_page..full {
        let at = stand(layout, state, number);
        disk.write(layout.data() + at, &pages[(number - from_page) as usize])?;
    }
    Ok(())
}

// The bytes of a page that begins with these, and has zeros behind them.
fn filled(bytes: &[u8]) -> Page
    requires { length bytes.now ≤ page_bytes }
    ensures { result ≡ page_of bytes.now }
{
    let mut page = [0; PAGE_BYTES];
    page[..bytes.len()].copy_from_slice(bytes);
    page
}

// Writes the tail page, where there is one: these bytes, and zeros behind them.
fn pour_tail<D: Disk>(
    disk: &mut D,
    layout: Layout,
    state: &BlobState,
    end: &[u8],
) -> Result<(), IoFault>
    requires disk { total_pages layout ≤ D.size disk.old }
    requires within { AreBlocks (data_pages layout) (blocks_of (place_of state.now)) }
    requires end { length end.now ≡ state.now.size % page_bytes }
    ensures reads { IsTrue D.tells → OnOk result ((page : ℕ) → state.now.tail ≡ Some page
        → (D.story disk.new).reads (data_page layout + page) ≡ page_of end.now) }
    ensures wrote { OnlyWrites D.Disk (IsTailPage (data_page layout) (place_of state.now)) disk.old disk.new }
    ensures calls { IsTrue D.tells → OnOk result (Took 0 (min 1 (state.now.size % page_bytes)) 0 (D.calls disk.old) (D.calls disk.new)) }
    ensures cause { Caused D.Disk disk.old disk.new result }
{
    layout.rules();
    state.rules();
    let length = tail_length(state);
    match state.tail() {
        Some(page) => disk.write(layout.data() + page, &filled(&end[..length])),
        None => Ok(()),
    }
}
