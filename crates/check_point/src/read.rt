// Reading a half.

ghost use Rattle.std.specs.Prelude.{◌≡◌, ◌+◌, ◌*◌, ◌≤◌, ◌<◌, length, take, IsTrue, IfOk, IfErr, OnOk};
ghost use Rattle.disk_model.specs.Disks.{OnlyReads};
ghost use Rattle.disk_model.specs.Readings.{FailedFrom};
ghost use Rattle.store_model.specs.Disk.{Took, area_of, page_bytes};
ghost use Rattle.store_model.specs.HalfRefusals.{tuples_bytes};
ghost use Rattle.store_model.specs.Layout.{header_page, states_page, total_pages};
ghost use Rattle.store_model.specs.Log.{body_pages};
ghost use Rattle.store_model.specs.State.{greatest_number};
ghost use Rattle.check_point.specs.Reads.{Finds, HalfCameFrom, IsFit, IsRefused, RefusesHeader, TellsHeader, half_fault, tuples_fault};
ghost use Rattle.check_point.specs.Tuples.{model_tuples};
ghost use Rattle.check_point.specs.declared.read.HalfFault.TheVariants as fault;

use crate::fields::{BadField, Told, read_layout, read_told};
use crate::tuples::{Tuples, TuplesFault, read_tuples};
use blob_base::{Bytes, IoFault, OutOfMemory, PAGE_BYTES};
use disk_model::{Disk, Layout, Page, append_pages};
use std::alloc::Global;

/// What a half tells: its layout, its last number, and the keys with their states.
#[derive(Drop)]
pub struct HalfFound {
    pub layout: Layout,
    pub last: u64,
    pub states: Tuples,
}

/// Why a half isn't read.
#[derive(Clone, Copy, Debug, PartialEq, Eq)]
pub enum HalfFault {
    /// The disk has `have` pages, and the layout that the header tells takes `need`.
    TooSmall { need: u64, have: u64 },
    /// The header breaks a rule at this byte.
    BadHalf { at: u32 },
    /// The states break a rule at this byte of their area.
    BadTuple { at: u32 },
    /// The disk failed.
    Failed,
    /// There was no memory.
    OutOfMemory,
}

impl From<IoFault> for HalfFault {
    ghost from_gives = { λ io e. e ≡ half_fault io };

    fn from(io: IoFault) -> Self {
        match io {
            IoFault::Failed => HalfFault::Failed,
            IoFault::OutOfMemory => HalfFault::OutOfMemory,
        }
    }
}

impl From<OutOfMemory> for HalfFault {
    ghost from_gives = { λ _ e. e ≡ fault.OutOfMemory };

    fn from(_: OutOfMemory) -> Self {
        HalfFault::OutOfMemory
    }
}

impl From<BadField> for HalfFault {
    ghost from_gives = { λ bad e. e ≡ fault.BadHalf bad.at };

    fn from(bad: BadField) -> Self {
        HalfFault::BadHalf { at: bad.at }
    }
}

impl From<TuplesFault> for HalfFault {
    ghost from_gives = { λ tuples e. e ≡ tuples_fault tuples };

    fn from(tuples: TuplesFault) -> Self {
        match tuples {
            TuplesFault::EndEarly => HalfFault::BadHalf { at: 28 },
            TuplesFault::BadTuple { at } => HalfFault::BadTuple { at },
            TuplesFault::OutOfMemory => HalfFault::OutOfMemory,
        }
    }
}

// What a header tells.
#[derive(Clone, Copy)]
struct Header {
    layout: Layout,
    told: Told,
}

/// The layout, the last number and the states of a half. The header and each page that has bytes of the states are read
/// once.
pub fn read_half<D: Disk>(alloc: Global, disk: &mut D, half: u32) -> Result<HalfFound, HalfFault>
    requires half { half < 2 }
    requires disk { 2053 ≤ D.size disk.old }
    ensures found { IsTrue D.tells → IfOk result (Finds (D.size disk.old) (D.story disk.old).reads half) }
    ensures refused { IsTrue D.tells → IfErr result (IsRefused (D.size disk.old) (D.story disk.old).reads half) }

    // Whatever the disk tells, the layout fits it, the states fit the layout, and their keys rise.
    ensures fits { IfOk result (IsFit (D.size disk.old)) }
    ensures only { OnlyReads D.Disk disk.old disk.new }
    ensures reads { IsTrue D.tells → IfOk result (λ found.
        Took (1 + body_pages (length (tuples_bytes (model_tuples found.states)))) 0 0 (D.calls disk.old) (D.calls disk.new)) }
    ensures cause { IfErr result (HalfCameFrom (D.faults disk.old) (D.faults disk.new)) }
{
    let header = read_header(disk, half)?;
    let bytes = read_states(alloc, disk, header.layout, half, header.told.length)?;
    let states = read_tuples(
        alloc,
        bytes.as_slice(),
        header.layout.data_pages(),
        header.told.last,
        header.told.count,
    )?;
    Ok(HalfFound {
        layout: header.layout,
        last: header.told.last,
        states,
    })
}

// What the header of a half tells, whose layout fits the disk.
fn read_header<D: Disk>(disk: &mut D, half: u32) -> Result<Header, HalfFault>
    requires half { half < 2 }
    requires disk { 2053 ≤ D.size disk.old }
    ensures told { IsTrue D.tells → IfOk result (TellsHeader (D.size disk.old) ((D.story disk.old).reads (header_page half))) }
    ensures refused { IsTrue D.tells → IfErr result (RefusesHeader (D.size disk.old) ((D.story disk.old).reads (header_page half))) }
    ensures fits { IfOk result (λ header. total_pages header.layout ≤ D.size disk.old) }
    ensures most { IfOk result (λ header. header.told.last ≤ greatest_number) }
    ensures room { IfOk result (λ header. header.told.length ≤ page_bytes * header.layout.room) }
    ensures only { OnlyReads D.Disk disk.old disk.new }
    ensures reads { IsTrue D.tells → OnOk result (Took 1 0 0 (D.calls disk.old) (D.calls disk.new)) }
    ensures cause { IfErr result (HalfCameFrom (D.faults disk.old) (D.faults disk.new)) }
{
    let mut page = [0; PAGE_BYTES];
    disk.read(1 + half, &mut page)?;
    judge(&page, disk.pages())
}

// What the page of a header tells, on a disk of so many pages.
fn judge(page: &Page, pages: u32) -> Result<Header, HalfFault>
    ensures told { IfOk result (TellsHeader pages page.now) }
    ensures refused { IfErr result (RefusesHeader pages page.now) }
    ensures failed { IfErr result (HalfCameFrom 0 0) }
    ensures fits { IfOk result (λ header. total_pages header.layout ≤ pages) }
    ensures most { IfOk result (λ header. header.told.last ≤ greatest_number) }
    ensures room { IfOk result (λ header. header.told.length ≤ page_bytes * header.layout.room) }
{
    let layout = read_layout(page)?;
    let need = layout.total();
    if pages < need {
        return Err(HalfFault::TooSmall {
            need: u64::from(need),
            have: u64::from(pages),
        });
    }
    let told = read_told(page, layout.room)?;
    Ok(Header { layout, told })
}

// The bytes of the states.
fn read_states<D: Disk>(
    alloc: Global,
    disk: &mut D,
    layout: Layout,
    half: u32,
    count: u32,
) -> Result<Bytes, IoFault>
    requires half { half < 2 }
    requires disk { total_pages layout ≤ D.size disk.old }
    requires room { count ≤ page_bytes * layout.room }
    ensures bytes { IsTrue D.tells → IfOk result (λ bytes.
        bytes ≡ take count (area_of (D.story disk.old).reads (states_page layout half) layout.room)) }
    ensures long { IfOk result (λ bytes. length bytes ≡ count) }
    ensures only { OnlyReads D.Disk disk.old disk.new }
    ensures reads { IsTrue D.tells → OnOk result (Took (body_pages count) 0 0 (D.calls disk.old) (D.calls disk.new)) }
    ensures cause { IfErr result (FailedFrom (D.faults disk.old) (D.faults disk.new)) }
{
    layout.rules();
    let count = count as usize;
    let mut bytes = Bytes::new(alloc);
    bytes.reserve(alloc, count)?;
    append_pages(alloc, disk, layout.states(half), 0, count, &mut bytes)?;
    Ok(bytes)
}
