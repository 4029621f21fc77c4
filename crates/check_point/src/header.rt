// The page of a half's header.

ghost use Rattle.std.specs.Prelude.{◌≡◌};
ghost use Rattle.store_model.specs.Disk.{page_of};
ghost use Rattle.store_model.specs.Half.{header_spelling};

use crate::pages::fill;
use blob_base::PAGE_BYTES;
use disk_model::{Layout, Page};

/// The page of a header, filled with zeros.
pub(crate) fn header(layout: &Layout, last: u64, count: u32, taken: u32) -> Page
    ensures { result ≡ page_of (header_spelling layout.now last count taken) }
{
    let units = layout.units;
    let room = layout.room;
    let mut page = [0; PAGE_BYTES];
    fill(&mut page, 0, b"BLOBHALF");
    fill(&mut page, 8, &1u32.to_be_bytes());
    fill(&mut page, 12, &units.to_be_bytes());
    fill(&mut page, 16, &room.to_be_bytes());
    fill(&mut page, 20, &last.to_be_bytes());
    fill(&mut page, 28, &count.to_be_bytes());
    fill(&mut page, 32, &taken.to_be_bytes());
    page
}
