// The bodies of a log, taken behind the states of its half.

ghost use Rattle.std.specs.Prelude.{◌≡◌, ℕ, ◌+◌, ◌^◌, ◌<◌, ◌≤◌, false, List, [], ◌∷◌, length, IfErr, IfOk, IfSome, IsErrOf, IfNone, OnOk, OnSome, IsTrue};
ghost use Rattle.std.specs.List.{All};
ghost use Rattle.blob_base.specs.Faults.{Rose};
ghost use Rattle.blob_base.specs.declared.faults.IoFault.TheVariants.{Failed};
ghost use Rattle.disk_model.specs.Disks.{OnlyReads};
ghost use Rattle.frame_codec.specs.Values.{model_entries, model_entry};
ghost use Rattle.meta_log.specs.Reads.{stored, stored_body};
ghost use Rattle.recover.specs.Faults.{CameFrom, IsFirstBadFault, IsOfLog};
ghost use Rattle.recover.specs.Frames.{Adds, AreStored, DroppedBehind, DroppedBy, IsMade, IsSound, IsUpTo, KeptBehind, KeptBy, greatest_growth, held_of};
ghost use Rattle.relation.specs.Changes.{bytes_limit};
ghost use Rattle.relation.specs.Parts.{encoded_by};
ghost use Rattle.store_model.specs.Cost.{Reads};
ghost use Rattle.store_model.specs.Drops.{AreDroppedLast};
ghost use Rattle.store_model.specs.Frame as model;
ghost use Rattle.store_model.specs.Layout.{data_pages, total_pages};
ghost use Rattle.store_model.specs.LogReading.{HasBodies, StoredBody};
ghost use Rattle.store_model.specs.Reading.{GoesOn, IsBadFrame, KeptIn, Takes, TakesEach, last_number, with_entries};
ghost use Rattle.store_model.specs.State.{greatest_number};

use crate::fault::RecoverFault;
use crate::verifying::verifies;
use blob_base::{IoFault, Numbers, StoreRefusal};
use disk_model::{Disk, Layout};
use frame_codec::{Entries, Entry, FrameFault, MAX_WRITES, decode_frame};
use meta_log::{Body, BodyList, Log, ReadFault};
use relation::{Relation, apply};
use std::alloc::Global;

/// The states that were read so far, the number of the last entry, and those of the entries that were dropped.
#[derive(Drop)]
pub(crate) struct Held {
    pub layout: Layout,
    pub last: u64,
    pub relation: Relation,
    pub dropped: Numbers,
}

// The number of the last of some entries, where they go on behind this one.
fn last_behind(last: u64, entries: &Entries) -> Option<u64>
    requires some { 1 ≤ length entries.now }
    requires most { last ≤ greatest_number }
    ensures goes_on { OnSome result (GoesOn last (model_entries entries.now)) }
    ensures last { IfSome result (λ number. number ≡ last_number last (model_entries entries.now)) }
    ensures none { IfNone result (GoesOn last (model_entries entries.now) → ⊥) }
{
    if entries.get(0).number == last + 1 {
        Some(entries.get(entries.len() - 1).number)
    } else {
        None
    }
}

impl Held {
    // Makes the writes of an entry. One of the last frame is dropped where not all states verify that it sets, and its number
    // is told.
    fn take_entry<D: Disk>(
        &mut self,
        alloc: Global,
        disk: &mut D,
        entry: Entry,
        is_last: bool,
    ) -> Result<(), IoFault>
        requires disk { total_pages self.old.layout ≤ D.size disk.old }
        requires writes { IsUpTo (data_pages self.old.layout) self.old.last (model_entry entry) }
        requires stored { AreStored (data_pages self.old.layout) self.old.last self.old.relation.states }
        requires bytes { encoded_by self.old.relation.states ≤ bytes_limit }
        ensures made { IsTrue D.tells → OnOk result
            (IsMade (D.story disk.old).reads self.old.layout is_last entry self.old.relation.states self.new.relation.states) }
        ensures dropped { IsTrue D.tells → OnOk result
            (Adds (DroppedBy is_last (D.story disk.old).reads self.old.layout) (model_entry entry ∷ []) self.old.dropped self.new.dropped) }
        ensures stored { OnOk result (AreStored (data_pages self.old.layout) self.old.last self.new.relation.states) }
        ensures bytes { OnOk result (encoded_by self.new.relation.states ≤ encoded_by self.old.relation.states + greatest_growth) }
        ensures layout { self.new.layout ≡ self.old.layout }
        ensures last { self.new.last ≡ self.old.last }
        ensures still { IsTrue D.tells → Reads (D.calls disk.old) (D.calls disk.new) }
        ensures only { OnlyReads D.Disk disk.old disk.new }
        ensures failed { IsErrOf result Failed → Rose (D.faults disk.old) (D.faults disk.new) }
    {
        if is_last {
            let does_verify = verifies(disk, self.layout, &entry.writes)?;
            if !does_verify {
                self.dropped.push(alloc, entry.number)?;
                return Ok(());
            }
        }
        self.relation.reserve(alloc, MAX_WRITES)?;
        apply(&mut self.relation, entry.writes);
        Ok(())
    }

    // Takes the entries of a frame, in their order.
    fn take_entries<D: Disk>(
        &mut self,
        alloc: Global,
        disk: &mut D,
        mut entries: Entries,
        is_last: bool,
    ) -> Result<(), IoFault>
        requires disk { total_pages self.old.layout ≤ D.size disk.old }
        requires few { length entries ≤ 16 }
        requires entries { All (IsUpTo (data_pages self.old.layout) self.old.last) (model_entries entries) }
        requires stored { AreStored (data_pages self.old.layout) self.old.last self.old.relation.states }
        requires bytes { encoded_by self.old.relation.states ≤ 2 ^ 60 }
        ensures kept { IsTrue D.tells → OnOk result
            ((kept : List model.Entry) × KeptBy is_last (D.story disk.old).reads self.old.layout (model_entries entries) kept
            × (self.new.relation.states ≡ with_entries self.old.relation.states kept)) }
        ensures dropped { IsTrue D.tells → OnOk result
            (Adds (DroppedBy is_last (D.story disk.old).reads self.old.layout) (model_entries entries) self.old.dropped self.new.dropped) }
        ensures stored { OnOk result (AreStored (data_pages self.old.layout) self.old.last self.new.relation.states) }
        ensures layout { self.new.layout ≡ self.old.layout }
        ensures last { self.new.last ≡ self.old.last }
        ensures still { IsTrue D.tells → Reads (D.calls disk.old) (D.calls disk.new) }
        ensures only { OnlyReads D.Disk disk.old disk.new }
        ensures failed { IsErrOf result Failed → Rose (D.faults disk.old) (D.faults disk.new) }
    {
        'taken: while !entries.is_empty() {
            let entry = entries.remove_first();
            self.take_entry(alloc, disk, entry, is_last)?;
        }
        Ok(())
    }

    // Takes a body of the log. `false` where its frame is bad; then nothing is said of what is held.
    fn take_body<D: Disk>(
        &mut self,
        alloc: Global,
        disk: &mut D,
        body: &Body,
        is_last: bool,
    ) -> Result<bool, IoFault>
        requires disk { total_pages self.old.layout ≤ D.size disk.old }
        requires sound { IsSound self.old }
        ensures taken { IsTrue D.tells → IfOk result (λ taken. IsTrue taken
            → Takes (KeptBy is_last (D.story disk.old).reads self.old.layout) (held_of self.old) (stored_body body.now) (held_of self.new)) }
        ensures bad { IsTrue D.tells → IfOk result (λ taken. taken ≡ false
            → IsBadFrame (KeptBy is_last (D.story disk.old).reads self.old.layout) (held_of self.old) (stored_body body.now)) }
        ensures dropped { IsTrue D.tells → IfOk result (λ taken. IsTrue taken
            → Adds (DroppedBehind is_last (D.story disk.old).reads self.old.layout) (stored_body body.now ∷ []) self.old.dropped self.new.dropped) }
        ensures sound { IfOk result (λ taken. IsTrue taken → IsSound self.new) }
        ensures layout { self.new.layout ≡ self.old.layout }
        ensures still { IsTrue D.tells → Reads (D.calls disk.old) (D.calls disk.new) }
        ensures only { OnlyReads D.Disk disk.old disk.new }
        ensures failed { IsErrOf result Failed → Rose (D.faults disk.old) (D.faults disk.new) }
    {
        let entries = match decode_frame(alloc, body.bytes.as_slice(), self.layout.data_pages()) {
            Ok(entries) => entries,
            Err(FrameFault::BadBody { .. }) => return Ok(false),
            Err(FrameFault::OutOfMemory) => return Err(IoFault::OutOfMemory),
        };
        let Some(last) = last_behind(self.last, &entries) else {
            return Ok(false);
        };
        self.last = last;
        self.take_entries(alloc, disk, entries, is_last)?;
        Ok(self.relation.bytes() <= self.layout.states_bytes())
    }

    // Takes bodies, in their order. The last one is the log's last frame where the gate behind it is closed.
    fn take_bodies<D: Disk>(
        &mut self,
        alloc: Global,
        disk: &mut D,
        half: u32,
        bodies: &BodyList,
        is_closed: bool,
    ) -> Result<(), RecoverFault>
        requires disk { total_pages self.old.layout ≤ D.size disk.old }
        requires sound { IsSound self.old }
        ensures taken { IsTrue D.tells → OnOk result
            (TakesEach (KeptBehind is_closed (D.story disk.old).reads self.old.layout) (held_of self.old) (stored bodies.now) (held_of self.new)) }
        ensures bad { IsTrue D.tells → IfErr result
            (IsFirstBadFault half (KeptBehind is_closed (D.story disk.old).reads self.old.layout) (held_of self.old) (stored bodies.now)) }
        ensures dropped { IsTrue D.tells → OnOk result
            (Adds (DroppedBehind is_closed (D.story disk.old).reads self.old.layout) (stored bodies.now) self.old.dropped self.new.dropped) }
        ensures sound { OnOk result (IsSound self.new) }
        ensures layout { self.new.layout ≡ self.old.layout }
        ensures still { IsTrue D.tells → Reads (D.calls disk.old) (D.calls disk.new) }
        ensures only { OnlyReads D.Disk disk.old disk.new }
        ensures failed { IfErr result (CameFrom (D.faults disk.old) (D.faults disk.new)) }
    {
        'taken: for i in 0..bodies.len() {
            let body = bodies.get(i);
            let is_last = is_closed && i + 1 == bodies.len();
            let is_taken = self.take_body(alloc, disk, body, is_last)?;
            if !is_taken {
                let page = body.page;
                return Err(RecoverFault::Refused {
                    why: StoreRefusal::BadFrame { half, page },
                });
            }
        }
        Ok(())
    }

    /// Takes the log of a half behind its states.
    pub fn take_log<D: Disk>(
        &mut self,
        alloc: Global,
        disk: &mut D,
        half: u32,
    ) -> Result<(), RecoverFault>
        requires half { half < 2 }
        requires disk { total_pages self.old.layout ≤ D.size disk.old }
        requires sound { IsSound self.old }
        ensures taken { IsTrue D.tells → OnOk result
            ((bodies : List StoredBody) × ((gate : ℕ) × (HasBodies (D.story disk.old).reads half bodies gate
            × TakesEach (KeptIn (D.story disk.old).reads self.old.layout) (held_of self.old) bodies (held_of self.new)))) }
        ensures refused { IsTrue D.tells → IfErr result (IsOfLog (D.story disk.old).reads half (held_of self.old)) }
        ensures dropped { IsTrue D.tells → OnOk result
            ((bodies : List StoredBody) × ((gate : ℕ) × (HasBodies (D.story disk.old).reads half bodies gate
            × Adds (AreDroppedLast (D.story disk.old).reads self.old.layout) bodies self.old.dropped self.new.dropped))) }
        ensures sound { OnOk result (IsSound self.new) }
        ensures layout { self.new.layout ≡ self.old.layout }
        ensures still { IsTrue D.tells → OnOk result (Reads (D.calls disk.old) (D.calls disk.new)) }
        ensures only { OnlyReads D.Disk disk.old disk.new }
        ensures failed { IfErr result (CameFrom (D.faults disk.old) (D.faults disk.new)) }
    {
        match Log::read(alloc, disk, self.layout, half) {
            Ok(found) => self.take_bodies(alloc, disk, half, &found.bodies, true),
            Err(ReadFault::BadFrame { page, before }) => {
                self.take_bodies(alloc, disk, half, &before, false)?;
                Err(RecoverFault::Refused {
                    why: StoreRefusal::BadFrame { half, page },
                })
            }
            Err(ReadFault::Failed) => Err(RecoverFault::Failed),
            Err(ReadFault::OutOfMemory) => Err(RecoverFault::OutOfMemory),
        }
    }
}
