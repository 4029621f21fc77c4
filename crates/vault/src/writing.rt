// A frame and its contents, written behind the gate, and its entries, made in the states.

ghost use Rattle.std.specs.Prelude.{◌≡◌, ◌+◌, ◌-◌, ◌*◌, ◌<◌, ◌≤◌, OnOk, IsTrue, length, zip};
ghost use Rattle.std.specs.List.{All, sum_by};
ghost use Rattle.disk_model.specs.Disks.{Caused, OnlyWrites};
ghost use Rattle.frame_codec.specs.Values.{model_entries};
ghost use Rattle.relation.specs.Changes.{with_entries};
ghost use Rattle.relation.specs.Parts.{encoded_by};
ghost use Rattle.store_model.specs.Disk.{Took};
ghost use Rattle.store_model.specs.Images.{Settled};
ghost use Rattle.store_model.specs.Layout.{data_pages, total_pages};
ghost use Rattle.store_model.specs.Log.{at_log, body_pages, open_page};
ghost use Rattle.store_model.specs.Space.{Apart, AreBlocks};
ghost use Rattle.store_model.specs.State.{greatest_number};
ghost use Rattle.vault.specs.Pours.{AreAt, AreWhole, HasRoom, IsSecondPage, Poured, pour_blocks, pour_pages, pours_of_all, requests_at};
ghost use Rattle.vault.specs.Vaults.{InWindows, IsAtRest, IsCommitted, IsHeld, IsNextFrame, IsSound, SameHeld, found_of, turn_pages, turn_syncs, turned_gate};

use crate::making::make_all;
use crate::memory::Memory;
use crate::pouring::pour_all;
use blob_base::{IoFault, Listed};
use disk_model::Disk;
use frame_codec::{Entries, MAX_WRITES};
use group_plan::Queue;

impl Memory {
    /// Writes the contents of the entries whose body lies behind the gate, and opens it.
    pub(crate) fn pour_and_open<D: Disk>(
        &mut self,
        disk: &mut D,
        queue: &Queue,
        entries: &Entries,
        members: &Listed<usize>,
    ) -> Result<(), IoFault>
        requires places { AreAt queue.now entries.now members.now }
        requires disk { total_pages self.old.layout ≤ D.size disk.old }
        requires within { AreBlocks (data_pages self.old.layout) (pour_blocks (pours_of_all (zip (requests_at queue.now members.now) entries.now))) }
        requires apart { Apart (pour_blocks (pours_of_all (zip (requests_at queue.now members.now) entries.now))) }
        requires log { self.old.log.layout ≡ self.old.layout }
        requires some { self.old.log.gate < self.old.log.next }
        ensures poured { IsTrue D.tells → OnOk result (All (Poured (D.story disk.new).reads self.old.layout) (pours_of_all (zip (requests_at queue.now members.now) entries.now))) }
        ensures opened { IsTrue D.tells → OnOk result
            ((D.story disk.new).reads (at_log self.old.log.half self.old.log.gate) ≡ open_page) }
        ensures settled { IsTrue D.tells → OnOk result (Settled (D.story disk.new)) }
        ensures gate { OnOk result (self.new.log ≡ record {
          layout = self.old.log.layout;
          half = self.old.log.half;
          gate = self.old.log.next;
          next = self.old.log.next;
        }) }
        ensures log { self.new.log.layout ≡ self.old.log.layout }
        ensures same { SameHeld self.old self.new }
        ensures wrote { OnlyWrites D.Disk (IsSecondPage self.old.layout (pours_of_all (zip (requests_at queue.now members.now) entries.now)) self.old.log.half self.old.log.gate) disk.old disk.new }
        ensures calls { IsTrue D.tells → OnOk result
            (Took 0 (sum_by pour_pages (pours_of_all (zip (requests_at queue.now members.now) entries.now)) + 1) 1 (D.calls disk.old) (D.calls disk.new)) }
        ensures cause { Caused D.Disk disk.old disk.new result }
    {
        self.log.rules();
        pour_all(disk, self.layout, queue, entries, members)?;
        self.log.open_gate(disk)?;
        disk.sync()
    }

    /// Writes entries and their contents.
    pub(crate) fn write<D: Disk>(
        &mut self,
        disk: &mut D,
        body: &[u8],
        queue: &Queue,
        entries: &Entries,
        members: &Listed<usize>,
    ) -> Result<(), IoFault>
        requires sound { IsSound self.old }
        requires disk { total_pages self.old.layout ≤ D.size disk.old }
        requires frame { IsNextFrame (found_of self.old) body.now (model_entries entries.now) }
        requires places { AreAt queue.now entries.now members.now }
        requires whole { AreWhole queue.now }
        requires within { AreBlocks (data_pages self.old.layout) (pour_blocks (pours_of_all (zip (requests_at queue.now members.now) entries.now))) }
        requires apart { Apart (pour_blocks (pours_of_all (zip (requests_at queue.now members.now) entries.now))) }
        ensures committed { IsTrue D.tells → IsAtRest (D.size disk.old) (D.story disk.old) self.old
            → OnOk result (IsCommitted (D.size disk.new) (D.story disk.new) self.new (model_entries entries.now)) }
        ensures poured { IsTrue D.tells → OnOk result (All (Poured (D.story disk.new).reads self.old.layout) (pours_of_all (zip (requests_at queue.now members.now) entries.now))) }
        ensures none { OnOk result (self.new.log.next ≡ self.new.log.gate) }
        ensures gate { OnOk result (self.new.log.gate ≡ turned_gate self.old.log.gate (body_pages (length body.now) + 1) + 1 + body_pages (length body.now)) }
        ensures held { IsHeld self.new }
        ensures same { SameHeld self.old self.new }
        ensures windows { InWindows D.Disk self.old body.now (pours_of_all (zip (requests_at queue.now members.now) entries.now)) disk.old disk.new }
        ensures calls { IsTrue D.tells → OnOk result
            (Took 0
            (turn_pages (511 - self.old.log.gate) (body_pages (length body.now) + 1) (encoded_by self.old.relation.states)
            + body_pages (length body.now) + 1 + (sum_by pour_pages (pours_of_all (zip (requests_at queue.now members.now) entries.now)) + 1))
            (turn_syncs (511 - self.old.log.gate) (body_pages (length body.now) + 1) + 2) (D.calls disk.old) (D.calls disk.new)) }
        ensures cause { Caused D.Disk disk.old disk.new result }
    {
        self.lay_body(disk, body)?;
        self.pour_and_open(disk, queue, entries, members)
    }

    /// Makes entries in the states.
    pub(crate) fn make(&mut self, entries: Entries)
        requires last { self.old.last + length entries ≤ greatest_number }
        requires spare { length entries * MAX_WRITES ≤ self.old.relation.spare }
        requires room { HasRoom self.old.relation.states entries }
        ensures states { self.new.relation.states ≡ with_entries self.old.relation.states entries }
        ensures last { self.new.last ≡ self.old.last + length entries }
        ensures layout { self.new.layout ≡ self.old.layout }
        ensures log { self.new.log ≡ self.old.log }
        ensures space { self.new.space ≡ self.old.space }
    {
        self.last += entries.len() as u64;
        make_all(&mut self.relation, entries);
    }
}
