// The extents and the tail of a stored state, read back.

ghost use Rattle.std.specs.Prelude.{◌≡◌, ◌+◌, ◌*◌, ◌<◌, ◌≤◌, length, take, drop, IfSome, IfOk, IfErr, OnOk, []};
ghost use Rattle.std.specs.List.{flat_map, range_with_len};
ghost use Rattle.store_model.specs.Field.{AreGood, IsBroken, IsFirstBroken, IsGood, told_four};
ghost use Rattle.store_model.specs.Hash.{bytes_of_state};
ghost use Rattle.store_model.specs.State.{HasTail, IsMark};
ghost use Rattle.store_model.specs.Tuple.{stored_extent};
ghost use Rattle.store_model.specs.TupleFields.{AreExtentsTold, extent_fields, is_head, tail_fields};
ghost use Rattle.blob_state.specs.Reading.{head_field};
ghost use Rattle.blob_state.specs.Values.{extents_of};

use crate::content::field;
use crate::stored::EXTENT_BYTES;
use crate::{BadTuple, Extent};
use arrayvec::ArrayVec;
use blob_base::PAGE_BYTES;
use sha_resume::Mark;
use tier_table::{MAX_EXTENTS, tier};

// Whether extent `i` may begin at this page: a multiple of its pages, which are among the data pages.
fn is_head(pages: u32, i: u32, head: u32) -> bool
    requires { i < MAX_EXTENTS }
    ensures { result ≡ is_head pages i head }
{
    let extent_pages = 1 << tier(i);
    head % extent_pages == 0 && u64::from(head) + u64::from(extent_pages) <= u64::from(pages)
}

// The head of extent `i`.
fn read_head(bytes: &[u8], at: usize, i: u32, pages: u32) -> Result<u32, BadTuple>
    requires within { at ≤ length bytes.now }
    requires extent { i < MAX_EXTENTS }
    ensures told { IfOk result (λ head. head ≡ told_four bytes.now at) }
    ensures good { OnOk result (IsGood bytes.now (head_field pages at i)) }
    ensures bad { IfErr result (λ bad. IsBroken bytes.now (head_field pages at i) bad.at) }
    ensures place { IfErr result (λ bad. bad.at ≤ length bytes.now) }
{
    let head = u32::from_be_bytes(*field(bytes, at)?);
    if is_head(pages, i, head) {
        Ok(head)
    } else {
        Err(BadTuple { at })
    }
}

// The words of a mark, each high byte first.
fn words(bytes: &[u8; 32]) -> [u32; 8]
    ensures { bytes_of_state result ≡ bytes.now }
{
    let mut words = [0; 8];
    'words: for i in 0..8 {
        let start = 4 * i;
        words[i] = u32::from_be_bytes([
            bytes[start],
            bytes[start + 1],
            bytes[start + 2],
            bytes[start + 3],
        ]);
    }
    words
}

// Extent `i`, where the extents begin at `at`.
fn read_extent(bytes: &[u8], at: usize, i: u32, pages: u32) -> Result<Extent, BadTuple>
    requires within { at + stored_extent * i ≤ length bytes.now }
    requires extent { i < MAX_EXTENTS }
    ensures head { IfOk result (λ extent. extent.head ≡ told_four bytes.now (at + stored_extent * i)) }
    ensures mark { IfOk result (λ extent.
        bytes_of_state extent.mark.words ≡ take 32 (drop (at + stored_extent * i + 4) bytes.now)) }
    ensures sound { IfOk result (λ extent. IsMark extent.mark.words) }
    ensures good { OnOk result (AreGood bytes.now (extent_fields pages at i)) }
    ensures bad { IfErr result (λ bad. IsFirstBroken bytes.now (extent_fields pages at i) bad.at) }
    ensures place { IfErr result (λ bad. bad.at ≤ length bytes.now) }
{
    let start = at + EXTENT_BYTES * i as usize;
    let head = read_head(bytes, start, i, pages)?;
    let mark = field(bytes, start + 4)?;
    Ok(Extent {
        head,
        mark: Mark { words: words(mark) },
    })
}

// Adds so many extents, the first of which begins at `at`.
pub(crate) fn read_extents(
    bytes: &[u8],
    at: usize,
    count: u32,
    pages: u32,
    extents: &mut ArrayVec<Extent, MAX_EXTENTS>,
) -> Result<(), BadTuple>
    requires within { at ≤ length bytes.now }
    requires most { count ≤ MAX_EXTENTS }
    requires none { extents.old.items ≡ [] }
    ensures told { OnOk result (AreExtentsTold bytes.now at (extents_of extents.new.items)) }
    ensures number { OnOk result (length extents.new.items ≡ count) }
    ensures within { OnOk result (at + stored_extent * count ≤ length bytes.now) }
    ensures good { OnOk result (AreGood bytes.now (flat_map (extent_fields pages at) (range_with_len 0 count))) }
    ensures bad { IfErr result (λ bad.
        IsFirstBroken bytes.now (flat_map (extent_fields pages at) (range_with_len 0 count)) bad.at) }
    ensures place { IfErr result (λ bad. bad.at ≤ length bytes.now) }
{
    'read: for i in 0..count {
        extents.push(read_extent(bytes, at, i, pages)?);
    }
    Ok(())
}

// The tail, where a content of this size has one.
pub(crate) fn read_tail(
    bytes: &[u8],
    at: usize,
    size: u64,
    pages: u32,
) -> Result<Option<u32>, BadTuple>
    requires { at ≤ length bytes.now }
    ensures has { IfOk result (λ tail. HasTail size tail) }
    ensures told { IfOk result (λ tail. IfSome tail (λ page. page ≡ told_four bytes.now at)) }
    ensures good { OnOk result (AreGood bytes.now (tail_fields pages at size)) }
    ensures bad { IfErr result (λ bad. IsFirstBroken bytes.now (tail_fields pages at size) bad.at) }
    ensures place { IfErr result (λ bad. bad.at ≤ length bytes.now) }
{
    if size % PAGE_BYTES as u64 == 0 {
        return Ok(None);
    }
    let page = u32::from_be_bytes(*field(bytes, at)?);
    if page < pages {
        Ok(Some(page))
    } else {
        Err(BadTuple { at })
    }
}
