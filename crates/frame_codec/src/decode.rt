// The entries that a body tells, read back from its bytes.

ghost use Rattle.std.specs.Prelude.{◌≡◌, ◌≤◌, List, [], length, map, IfOk, IfErr, OnOk};
ghost use Rattle.store_model.specs.BodyRefusals.{IsBadBody, IsBadEntry, IsRefusedEntry, IsRefusedWrite, entry_front, told_entries, told_number, told_writes};
ghost use Rattle.store_model.specs.Frame.{Entry as Written, Spells, body_front};
ghost use Rattle.store_model.specs.State.{IsNumber};
ghost use Rattle.frame_codec.specs.Faults.{IfBad};
ghost use Rattle.frame_codec.specs.Reading.{DoEntriesEnd, DoWritesEnd, IsEntryRead};
ghost use Rattle.frame_codec.specs.Values.{model_entries, model_entry, model_write};

use crate::encode::{BODY_FRONT, ENTRY_FRONT};
use crate::fields::{read_entry_front, read_front};
use crate::read_write::read_write;
use crate::{Entries, Entry, FrameFault, MAX_WRITES, Writes};
use std::alloc::Global;

// Adds so many writes of the entry at the front of some bytes, which stands behind these, and tells where they end.
fn read_writes(
    alloc: Global,
    bytes: &[u8],
    pages: u32,
    number: u64,
    count: u8,
    before: &Entries,
    writes: &mut Writes,
) -> Result<usize, FrameFault>
    requires within { entry_front ≤ length bytes.now }
    requires number { IsNumber number }
    requires told { number ≡ told_number bytes.now }
    requires few { count ≤ MAX_WRITES }
    requires count { count ≡ told_writes bytes.now }
    requires none { writes.old ≡ [] }
    ensures read { IfOk result (DoWritesEnd pages (model_entries before.now) number bytes.now (map model_write writes.new)) }
    ensures count { OnOk result (length writes.new ≡ count) }
    ensures bad { IfErr result (λ fault. IfBad fault (IsRefusedWrite pages (model_entries before.now) bytes.now)) }
    ensures place { IfErr result (λ fault. IfBad fault (λ place. place ≤ length bytes.now)) }
{
    let mut at = ENTRY_FRONT;
    'read: for i in 0..count {
        match read_write(alloc, bytes.split_at(at).1, pages, number, before, writes) {
            Ok(read) => {
                at += read.length;
                writes.push(alloc, read.one)?;
            }
            Err(fault) => return Err(fault.behind(at)),
        }
    }
    Ok(at)
}

// An entry, and how many bytes it takes.
#[derive(Drop)]
struct StoredEntry {
    entry: Entry,
    length: usize,
}

// The entry at the front of some bytes, which may stand behind these. Anything may follow it.
fn read_entry(
    alloc: Global,
    bytes: &[u8],
    pages: u32,
    before: &Entries,
) -> Result<StoredEntry, FrameFault>
    ensures read { IfOk result (λ read. IsEntryRead pages (model_entries before.now) bytes.now (model_entry read.entry) read.length) }
    ensures bad { IfErr result (λ fault. IfBad fault (IsBadEntry pages (model_entries before.now) bytes.now)) }
    ensures place { IfErr result (λ fault. IfBad fault (λ place. place ≤ length bytes.now)) }
{
    let front = read_entry_front(bytes, before)?;
    let mut writes = Writes::new(alloc);
    let length = read_writes(
        alloc,
        bytes,
        pages,
        front.number,
        front.count,
        before,
        &mut writes,
    )?;
    Ok(StoredEntry {
        entry: Entry {
            number: front.number,
            session: front.session,
            nth: front.nth,
            writes,
        },
        length,
    })
}

// Adds so many entries of a body, and tells where they end.
fn read_entries(
    alloc: Global,
    bytes: &[u8],
    pages: u32,
    count: u8,
    entries: &mut Entries,
) -> Result<usize, FrameFault>
    requires within { body_front ≤ length bytes.now }
    requires count { count ≡ told_entries bytes.now }
    requires none { entries.old ≡ [] }
    ensures read { IfOk result (DoEntriesEnd pages bytes.now (model_entries entries.new)) }
    ensures count { OnOk result (length entries.new ≡ count) }
    ensures bad { IfErr result (λ fault. IfBad fault (IsRefusedEntry pages bytes.now)) }
{
    let mut at = BODY_FRONT;
    'read: for i in 0..count {
        match read_entry(alloc, bytes.split_at(at).1, pages, entries) {
            Ok(read) => {
                at += read.length;
                entries.push(alloc, read.entry)?;
            }
            Err(fault) => return Err(fault.behind(at)),
        }
    }
    Ok(at)
}

/// The entries that a body tells, in a store of so many data pages.
pub fn decode_frame(alloc: Global, bytes: &[u8], pages: u32) -> Result<Entries, FrameFault>
    ensures spells { IfOk result (λ entries. Spells pages bytes.now (model_entries entries)) }

    // Nothing is said where there is no memory.
    ensures bad { IfErr result (λ fault. IfBad fault (IsBadBody pages bytes.now)) }
    ensures none { IfErr result (λ fault. IfBad fault (λ _. (entries : List Written) → Spells pages bytes.now entries → ⊥)) }
{
    let count = read_front(bytes)?;
    let mut entries = Entries::new(alloc);
    let end = read_entries(alloc, bytes, pages, count, &mut entries)?;
    if end < bytes.len() {
        return Err(FrameFault::BadBody { at: end });
    }
    Ok(entries)
}
