// The fields of a half's header, read back.

ghost use Rattle.std.specs.Prelude.{◌≡◌, ◌+◌, ◌*◌, ◌≤◌, length, take, drop, IfOk, IfErr, OnOk};
ghost use Rattle.store_model.specs.Disk.{page_bytes};
ghost use Rattle.store_model.specs.Field.{AreGood, IsBroken, IsFirstBroken, IsGood, told_four};
ghost use Rattle.store_model.specs.HalfFields.{first_fields, other_fields, told_count, told_last, told_layout, told_length};
ghost use Rattle.store_model.specs.State.{greatest_number};
ghost use Rattle.check_point.specs.Headers.{count_field, last_field, length_field, text_field, version_field};

use blob_base::PAGE_BYTES;
use blob_state::MAX_NUMBER;
use disk_model::{Layout, Page};

/// A field of the header breaks its rule: the offset of the first that does.
#[derive(Clone, Copy, Debug, PartialEq, Eq)]
pub(crate) struct BadField {
    pub(crate) at: u32,
}

/// What a header tells behind the layout: the last number, how many tuples there are, and how many bytes they take.
#[derive(Clone, Copy, Debug, PartialEq, Eq)]
pub(crate) struct Told {
    pub(crate) last: u64,
    pub(crate) count: u32,
    pub(crate) length: u32,
}

// The bytes at an offset of a page.
fn bytes_at<const N: usize>(page: &Page, at: usize) -> [u8; N]
    requires { at + N ≤ page_bytes }
    ensures { result ≡ take N (drop at page.now) }
{
    let mut bytes = [0; N];
    bytes.copy_from_slice(&page[at..at + N]);
    bytes
}

// The number that the four bytes at an offset tell.
fn number_at(page: &Page, at: usize) -> u32
    requires { at + 4 ≤ page_bytes }
    ensures { result ≡ told_four page.now at }
{
    u32::from_be_bytes(bytes_at(page, at))
}

// The text of a header.
fn read_text(page: &Page) -> Result<(), BadField>
    ensures good { OnOk result (IsGood page.now text_field) }
    ensures bad { IfErr result (λ bad. IsBroken page.now text_field bad.at) }
{
    if bytes_at::<8>(page, 0) == *b"BLOBHALF" {
        Ok(())
    } else {
        Err(BadField { at: 0 })
    }
}

// The version, which is 1.
fn read_version(page: &Page) -> Result<(), BadField>
    ensures good { OnOk result (IsGood page.now version_field) }
    ensures bad { IfErr result (λ bad. IsBroken page.now version_field bad.at) }
{
    if number_at(page, 8) == 1 {
        Ok(())
    } else {
        Err(BadField { at: 8 })
    }
}

// A number of the layout at an offset, from 1 to `most`.
fn read_count(page: &Page, at: u32, most: u32) -> Result<u32, BadField>
    requires { at + 4 ≤ page_bytes }
    ensures told { IfOk result (λ count. count ≡ told_four page.now at) }
    ensures least { IfOk result (λ count. 1 ≤ count) }
    ensures most { IfOk result (λ count. count ≤ most) }
    ensures good { OnOk result (IsGood page.now (count_field at most)) }
    ensures bad { IfErr result (λ bad. IsBroken page.now (count_field at most) bad.at) }
{
    let count = number_at(page, at as usize);
    if (1..=most).contains(&count) {
        Ok(count)
    } else {
        Err(BadField { at })
    }
}

/// The layout that a header tells, behind its text and its version.
pub(crate) fn read_layout(page: &Page) -> Result<Layout, BadField>
    ensures told { IfOk result (λ layout. layout ≡ told_layout page.now) }
    ensures good { OnOk result (AreGood page.now first_fields) }
    ensures bad { IfErr result (λ bad. IsFirstBroken page.now first_fields bad.at) }
{
    read_text(page)?;
    read_version(page)?;
    let units = read_count(page, 12, 16384)?;
    let room = read_count(page, 16, 1024)?;
    Ok(Layout { units, room })
}

// The last number.
fn read_last(page: &Page) -> Result<u64, BadField>
    ensures told { IfOk result (λ last. last ≡ told_last page.now) }
    ensures most { IfOk result (λ last. last ≤ greatest_number) }
    ensures good { OnOk result (IsGood page.now last_field) }
    ensures bad { IfErr result (λ bad. IsBroken page.now last_field bad.at) }
{
    let last = u64::from_be_bytes(bytes_at(page, 20));
    if last <= MAX_NUMBER {
        Ok(last)
    } else {
        Err(BadField { at: 20 })
    }
}

// How many bytes the tuples take, for which the half has `room` pages.
fn read_length(page: &Page, room: u32) -> Result<u32, BadField>
    requires { room ≤ 1024 }
    ensures told { IfOk result (λ length. length ≡ told_length page.now) }
    ensures most { IfOk result (λ length. length ≤ page_bytes * room) }
    ensures good { OnOk result (IsGood page.now (length_field room)) }
    ensures bad { IfErr result (λ bad. IsBroken page.now (length_field room) bad.at) }
{
    let length = number_at(page, 32);
    if length <= PAGE_BYTES as u32 * room {
        Ok(length)
    } else {
        Err(BadField { at: 32 })
    }
}

/// What a header tells behind a layout with so much room.
pub(crate) fn read_told(page: &Page, room: u32) -> Result<Told, BadField>
    requires room { room ≡ told_four page.now 16 }
    requires most { room ≤ 1024 }
    ensures last { IfOk result (λ told. told.last ≡ told_last page.now) }
    ensures count { IfOk result (λ told. told.count ≡ told_count page.now) }
    ensures length { IfOk result (λ told. told.length ≡ told_length page.now) }
    ensures number { IfOk result (λ told. told.last ≤ greatest_number) }
    ensures short { IfOk result (λ told. told.length ≤ page_bytes * room) }
    ensures good { OnOk result (AreGood page.now (other_fields page.now)) }
    ensures bad { IfErr result (λ bad. IsFirstBroken page.now (other_fields page.now) bad.at) }
{
    let last = read_last(page)?;
    let length = read_length(page, room)?;
    Ok(Told {
        last,
        count: number_at(page, 28),
        length,
    })
}
