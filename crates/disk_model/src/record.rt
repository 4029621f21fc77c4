// What the record of a disk in memory says.

ghost use Rattle.std.specs.Prelude.{◌≡◌, ◌≤◌, fold, length, take, count_by, MatchOption, OnOk};
ghost use Rattle.disk_model.specs.Calls.{is_read, is_write, is_sync, image_of, image_after, with_written, with_picks, settled, replay_calls};
ghost use Rattle.store_model.specs.Disk.{Image, with_page, zero_page};

use crate::Page;
use crate::call::{Call, Pick, Written};
use blob_base::OutOfMemory;
use std::alloc::Global;

// The bytes last written to a page, by a call of the record.
pub(crate) fn last_written(calls: &[Call], page: u32) -> Option<&Page>
    ensures { (image : Image) → MatchOption result
        (fold image_after image calls.now page ≡ image page)
        (λ bytes. fold image_after image calls.now page ≡ bytes.now) }
{
    let mut rest = calls.len();
    while rest > 0 {
        rest -= 1;
        if let Call::Write(written) = &calls[rest] {
            if written.page == page {
                return Some(&written.bytes);
            }
        }
    }
    None
}

// The bytes last put on a page.
pub(crate) fn last_put(writes: &[Written], page: u32) -> Option<&Page>
    ensures { MatchOption result (image_of writes.now page ≡ zero_page) (λ bytes. image_of writes.now page ≡ bytes.now) }
{
    let mut rest = writes.len();
    while rest > 0 {
        rest -= 1;
        if writes[rest].page == page {
            return Some(&writes[rest].bytes);
        }
    }
    None
}

// How many calls there are up to the last sync that was done, with it.
pub(crate) fn synced_count(calls: &[Call]) -> usize
    ensures within { result ≤ length calls.now }
    ensures image { (image : Image)
        → (replay_calls (settled image) calls.now).synced ≡ fold image_after image (take result calls.now) }
{
    let mut rest = calls.len();
    while rest > 0 {
        rest -= 1;
        if let Call::Sync { done } = &calls[rest] {
            if *done {
                return rest + 1;
            }
        }
    }
    0
}

// Whether a page was written since the last sync that was done.
pub(crate) fn is_pending_after(calls: &[Call], page: u32) -> bool
    ensures { (image : Image) → result ≡ (replay_calls (settled image) calls.now).pending page }
{
    let mut pending = false;
    for call in calls {
        match call {
            Call::Read => {}
            Call::Write(written) => pending = written.page == page || pending,
            Call::Sync { done } => pending = pending && !*done,
        }
    }
    pending
}

// Puts bytes on a page.
pub(crate) fn put(
    alloc: Global,
    writes: &mut Vec<Written>,
    page: u32,
    bytes: &Page,
) -> Result<(), OutOfMemory>
    ensures { (image : Image) → OnOk result
        (fold with_written image writes.new.items ≡ with_page (fold with_written image writes.old.items) page bytes.now) }
{
    let bytes = Box::new(alloc, *bytes)?;
    writes.push(Written { page, bytes })?;
    Ok(())
}

// Puts again what was put.
pub(crate) fn put_again(
    alloc: Global,
    writes: &mut Vec<Written>,
    from: &[Written],
) -> Result<(), OutOfMemory>
    ensures { (image : Image) → OnOk result
        (fold with_written image writes.new.items ≡ fold with_written (fold with_written image writes.old.items) from.now) }
{
    for written in from {
        put(alloc, writes, written.page, &written.bytes)?;
    }
    Ok(())
}

// Puts what these calls wrote.
pub(crate) fn put_calls(
    alloc: Global,
    writes: &mut Vec<Written>,
    calls: &[Call],
) -> Result<(), OutOfMemory>
    ensures { (image : Image) → OnOk result
        (fold with_written image writes.new.items ≡ fold image_after (fold with_written image writes.old.items) calls.now) }
{
    for call in calls {
        if let Call::Write(written) = call {
            put(alloc, writes, written.page, &written.bytes)?;
        }
    }
    Ok(())
}

// Puts what a crash leaves.
pub(crate) fn put_picks(
    alloc: Global,
    writes: &mut Vec<Written>,
    picks: &[Pick],
) -> Result<(), OutOfMemory>
    ensures { (image : Image) → OnOk result
        (fold with_written image writes.new.items ≡ with_picks (fold with_written image writes.old.items) picks.now) }
{
    for pick in picks {
        put(alloc, writes, pick.page, &pick.bytes)?;
    }
    Ok(())
}

pub(crate) fn read_count(calls: &[Call]) -> u64
    ensures { result ≡ count_by is_read calls.now }
{
    calls
        .iter()
        .filter(|call| matches!(call, Call::Read))
        .count() as u64
}

pub(crate) fn write_count(calls: &[Call]) -> u64
    ensures { result ≡ count_by is_write calls.now }
{
    calls
        .iter()
        .filter(|call| matches!(call, Call::Write(_)))
        .count() as u64
}

pub(crate) fn sync_count(calls: &[Call]) -> u64
    ensures { result ≡ count_by is_sync calls.now }
{
    calls
        .iter()
        .filter(|call| matches!(call, Call::Sync { .. }))
        .count() as u64
}
