// Reading the log of a half.

ghost use Rattle.std.specs.Prelude.{◌≡◌, ℕ, ◌+◌, ◌-◌, ◌^◌, ◌<◌, ◌≤◌, ◌++◌, length, take, codes, None, IsTrue, IfErr, IfOk, IfSome, OnOk};
ghost use Rattle.std.specs.Int.{w32, to_be_bytes};
ghost use Rattle.std.specs.List.{All};
ghost use Rattle.disk_model.specs.Disks.{Caused, OnlyReads};
ghost use Rattle.disk_model.specs.Readings.{FailedFrom};
ghost use Rattle.store_model.specs.Disk.{Took, area_of};
ghost use Rattle.store_model.specs.Layout.{total_pages};
ghost use Rattle.store_model.specs.Log.{body_pages, is_open};
ghost use Rattle.store_model.specs.LogReading.{HasBodies};
ghost use Rattle.meta_log.specs.Reads.{IsFound, IsRefused, IsShort, ReadCameFrom, read_fault, stored};
ghost use Rattle.meta_log.specs.declared.read.ReadFault.TheVariants as fault;

use crate::Log;
use blob_base::{Bytes, IoFault, Listed, OutOfMemory, PAGE_BYTES};
use disk_model::{Disk, Layout, Page, append_page, append_pages, pages_for};
use std::alloc::Global;

/// A body of the log, and the page of its gate in the log area.
#[derive(Debug, Drop)]
pub struct Body {
    pub page: u32,
    pub bytes: Bytes,
}

/// Bodies, in the order of their gates.
pub type BodyList = Listed<Body>;

/// The bodies behind open gates, and the first gate that is closed.
#[derive(Debug, Drop)]
pub struct Bodies {
    pub bodies: BodyList,
    pub gate: u32,
}

/// Why a log isn't read.
#[derive(Debug, Drop)]
pub enum ReadFault {
    /// The gate on this page of the log area is open, and no body stands behind it. `before` has the bodies before it.
    BadFrame { page: u32, before: BodyList },
    /// The disk failed.
    Failed,
    /// There was no memory.
    OutOfMemory,
}

impl From<IoFault> for ReadFault {
    ghost from_gives = { λ io e. e ≡ read_fault io };

    fn from(io: IoFault) -> Self {
        match io {
            IoFault::Failed => ReadFault::Failed,
            IoFault::OutOfMemory => ReadFault::OutOfMemory,
        }
    }
}

impl From<OutOfMemory> for ReadFault {
    ghost from_gives = { λ _ e. e ≡ fault.OutOfMemory };

    fn from(_: OutOfMemory) -> Self {
        ReadFault::OutOfMemory
    }
}

impl Log {
    /// The bodies of a half's log, up to its first closed gate. Each page up to that gate is read once.
    pub fn read<D: Disk>(
        alloc: Global,
        disk: &mut D,
        layout: Layout,
        half: u32,
    ) -> Result<Bodies, ReadFault>
        requires half { half < 2 }
        requires disk { total_pages layout ≤ D.size disk.old }
        ensures read { IsTrue D.tells
            → IfOk result (λ found. HasBodies (D.story disk.old).reads half (stored found.bodies) found.gate) }
        ensures bad { IsTrue D.tells → IfErr result (IsRefused (D.story disk.old).reads half) }

        // Whatever the disk tells, the gate is in the log area, and each body is shorter than that.
        ensures gate { IfOk result (λ found. found.gate ≤ 511) }
        ensures short { IfOk result (λ found. All IsShort found.bodies) }
        ensures only { OnlyReads D.Disk disk.old disk.new }
        ensures reads { IsTrue D.tells
            → IfOk result (λ found. Took (found.gate + 1) 0 0 (D.calls disk.old) (D.calls disk.new)) }
        ensures cause { IfErr result (ReadCameFrom (D.faults disk.old) (D.faults disk.new)) }
    {
        let mut bodies = BodyList::new(alloc);
        let mut gate = 0;
        let mut opened = read_gate(disk, layout.log(half))?;
        while opened {
            match read_body(alloc, disk, layout, half, gate)? {
                Some(bytes) => {
                    let next = gate + pages_for(bytes.len()) + 1;
                    bodies.push(alloc, Body { page: gate, bytes })?;
                    gate = next;
                }
                None => {
                    return Err(ReadFault::BadFrame {
                        page: gate,
                        before: bodies,
                    });
                }
            }
            opened = read_gate(disk, layout.log(half) + gate)?;
        }
        Ok(Bodies { bodies, gate })
    }
}

// Whether the gate on this page of the disk is open.
fn read_gate<D: Disk>(disk: &mut D, page: u32) -> Result<bool, IoFault>
    requires { page < D.size disk.old }
    ensures told { IsTrue D.tells → IfOk result (λ told. told ≡ is_open ((D.story disk.old).reads page)) }
    ensures only { OnlyReads D.Disk disk.old disk.new }
    ensures reads { IsTrue D.tells → OnOk result (Took 1 0 0 (D.calls disk.old) (D.calls disk.new)) }
    ensures cause { Caused D.Disk disk.old disk.new result }
{
    let mut bytes = [0; PAGE_BYTES];
    disk.read(page, &mut bytes)?;
    let (text, _) = bytes.split_at(8);
    Ok(text == b"GATEOPEN".as_slice())
}

// The body behind an open gate, where one stands there.
fn read_body<D: Disk>(
    alloc: Global,
    disk: &mut D,
    layout: Layout,
    half: u32,
    gate: u32,
) -> Result<Option<Bytes>, IoFault>
    requires half { half < 2 }
    requires disk { total_pages layout ≤ D.size disk.old }
    requires gate { gate ≤ 511 }
    ensures found { IsTrue D.tells → IfOk result (IsFound (D.story disk.old).reads half gate) }
    ensures room { IfOk result (λ found. IfSome found (λ bytes. gate + body_pages (length bytes) + 1 ≤ 511)) }
    ensures only { OnlyReads D.Disk disk.old disk.new }
    ensures reads { IsTrue D.tells → IfOk result (λ found. IfSome found (λ bytes.
        Took (body_pages (length bytes)) 0 0 (D.calls disk.old) (D.calls disk.new))) }
    ensures cause { IfErr result (FailedFrom (D.faults disk.old) (D.faults disk.new)) }
{
    if gate == 511 {
        return Ok(None);
    }
    let first = layout.log(half) + gate + 1;
    let mut page = [0; PAGE_BYTES];
    disk.read(first, &mut page)?;
    match told_length(&page) {
        Some(count) => {
            if gate + pages_for(count) + 1 > 511 {
                return Ok(None);
            }
            let bytes = read_bytes(alloc, disk, first, count, &page)?;
            Ok(Some(bytes))
        }
        None => Ok(None),
    }
}

// How many bytes the body has that begins on this page: its text, its length and the count of its entries at least.
fn told_length(page: &Page) -> Option<usize>
    ensures front { IfSome result (λ count. take 12 page.now ≡ codes "BLOBFRM1" ++ to_be_bytes w32 count) }
    ensures least { IfSome result (λ count. 13 ≤ count) }
    ensures most { IfSome result (λ count. count < 2 ^ 32) }
    ensures none { result ≡ None → (count : ℕ) → 13 ≤ count → count < 2 ^ 32
        → take 12 page.now ≡ codes "BLOBFRM1" ++ to_be_bytes w32 count → ⊥ }
{
    let (text, _) = page.split_at(8);
    let count = u32::from_be_bytes([page[8], page[9], page[10], page[11]]) as usize;
    if text == b"BLOBFRM1".as_slice() && count >= 13 {
        Some(count)
    } else {
        None
    }
}

// So many bytes, which stand from page `first` on. That page was read.
fn read_bytes<D: Disk>(
    alloc: Global,
    disk: &mut D,
    first: u32,
    count: usize,
    page: &Page,
) -> Result<Bytes, IoFault>
    requires within { first + body_pages count ≤ D.size disk.old }
    requires bound { first < 2 ^ 20 }
    requires some { 0 < count }
    requires most { count < 2 ^ 32 }
    ensures bytes { IsTrue D.tells → page.now ≡ (D.story disk.old).reads first
        → IfOk result (λ bytes. bytes ≡ take count (area_of (D.story disk.old).reads first (body_pages count))) }
    ensures long { IfOk result (λ bytes. length bytes ≡ count) }
    ensures only { OnlyReads D.Disk disk.old disk.new }
    ensures reads { IsTrue D.tells → OnOk result (Took (body_pages count - 1) 0 0 (D.calls disk.old) (D.calls disk.new)) }
    ensures cause { IfErr result (FailedFrom (D.faults disk.old) (D.faults disk.new)) }
{
    let mut bytes = Bytes::new(alloc);
    bytes.reserve(alloc, count)?;
    append_page(alloc, page, 0, count, &mut bytes)?;
    append_pages(alloc, disk, first, 1, count, &mut bytes)?;
    Ok(bytes)
}
