// Where the pages of a state stand.

ghost use Rattle.std.specs.Prelude.{◌≡◌, ◌/◌, ◌%◌, ◌<◌, ◌≤◌};
ghost use Rattle.store_model.specs.Disk.{page_bytes};
ghost use Rattle.store_model.specs.Holds.{StandsAt, place_of};
ghost use Rattle.store_model.specs.Layout.{data_pages};
ghost use Rattle.store_model.specs.Space.{AreBlocks, blocks_of};

use blob_base::PAGE_BYTES;
use blob_state::BlobState;
use disk_model::Layout;
use tier_table::{MAX_PAGES, place};

/// How many full pages the content of a state has.
pub(crate) fn full_pages(state: &BlobState) -> u32
    ensures value { result ≡ state.now.size / page_bytes }
    ensures most { result ≤ MAX_PAGES }
{
    state.rules();
    (state.size() / PAGE_BYTES as u64) as u32
}

/// How many bytes of the content stand on its tail page.
pub(crate) fn tail_length(state: &BlobState) -> usize
    ensures value { result ≡ state.now.size % page_bytes }
    ensures most { result < page_bytes }
{
    state.rules();
    (state.size() % PAGE_BYTES as u64) as usize
}

/// On which data page a full page of the content stands.
pub(crate) fn stand(layout: Layout, state: &BlobState, number: u32) -> u32
    requires within { AreBlocks (data_pages layout) (blocks_of (place_of state.now)) }
    requires number { number < state.now.size / page_bytes }
    ensures stands { StandsAt (place_of state.now) number result }
    ensures within { result < data_pages layout }
{
    state.rules();
    layout.rules();
    let lies = place(number);
    state.extents()[lies.extent as usize].head + lies.offset
}
