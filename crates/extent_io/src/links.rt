// The links of a state: one for each extent, which ends with its mark, and the last, which ends with the digest.

ghost use Rattle.std.specs.Prelude.{◌≡◌, ◌%◌, ◌^◌, ◌<◌, ◌≤◌, length};
ghost use Rattle.store_model.specs.Hash.{bytes_of_state};
ghost use Rattle.store_model.specs.Verify.{kept, link_from, link_value, mark_at};

use crate::places::full_pages;
use blob_state::BlobState;
use byteorder::{BigEndian, ByteOrder};
use sha_resume::{Chain, Mark, START};
use tier_table::MAX_EXTENTS;

/// The number of the last link, which is how many extents there are.
pub(crate) fn last_link(state: &BlobState) -> u32
    ensures value { result ≡ length state.now.extents }
    ensures most { result ≤ MAX_EXTENTS }
{
    state.rules();
    state.extents().len() as u32
}

/// A mark as bytes, each word high byte first.
pub(crate) fn mark_value(mark: &Mark) -> [u8; 32]
    ensures { result ≡ bytes_of_state mark.now.words }
{
    let mut bytes = [0; 32];
    BigEndian::write_u32_into(&mark.words, &mut bytes);
    bytes
}

// The mark of an extent.
fn mark_of(state: &BlobState, i: u32) -> Mark
    requires { i < length state.now.extents }
    ensures { result.words ≡ mark_at state.now i }
{
    state.extents()[i as usize].mark
}

/// The mark that a link begins with.
pub(crate) fn mark_before(state: &BlobState, link: u32) -> Mark
    requires { link ≤ length state.now.extents }
    ensures { result.words ≡ link_from state.now link }
{
    if link == 0 {
        START
    } else {
        mark_of(state, link - 1)
    }
}

/// What the state keeps of a link.
pub(crate) fn kept_value(state: &BlobState, link: u32) -> [u8; 32]
    requires { link ≤ length state.now.extents }
    ensures { result ≡ kept state.now link }
{
    if link < last_link(state) {
        mark_value(&mark_of(state, link))
    } else {
        state.digest().bytes
    }
}

/// What a link gives over these bytes: those of its extent's used pages, or those behind the full pages.
pub(crate) fn value_over(state: &BlobState, link: u32, bytes: &[u8]) -> [u8; 32]
    requires link { link ≤ length state.now.extents }
    requires whole { link < length state.now.extents → length bytes.now % 64 ≡ 0 }
    requires bound { length bytes.now < 2 ^ 32 }
    ensures { result ≡ link_value (λ _. bytes.now) bytes.now state.now link }
{
    state.rules();
    let before = mark_before(state, link);
    if link < last_link(state) {
        let mut chain = Chain::at(before, 0);
        chain.blocks(bytes);
        mark_value(&chain.mark())
    } else {
        let chain = Chain::at(before, 64 * full_pages(state) as u64);
        chain.finish(bytes).bytes
    }
}
