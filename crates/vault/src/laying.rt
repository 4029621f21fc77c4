// The body of a frame, laid behind the gate of a log.

ghost use Rattle.std.specs.Prelude.{◌≡◌, ◌+◌, ◌-◌, ◌*◌, ◌<◌, ◌≤◌, OnOk, IsTrue, length};
ghost use Rattle.disk_model.specs.Disks.{Caused, OnlyWrites};
ghost use Rattle.relation.specs.Parts.{encoded_by};
ghost use Rattle.store_model.specs.Disk.{Took, page_bytes};
ghost use Rattle.store_model.specs.Images.{Settled};
ghost use Rattle.store_model.specs.Layout.{total_pages};
ghost use Rattle.store_model.specs.Log.{body_pages};
ghost use Rattle.store_model.specs.Windows.{IsBodyPage};
ghost use Rattle.vault.specs.Vaults.{HasLaid, InFirst, IsAtRest, IsHeld, IsSound, MayHaveTurned, SameHeld, StandsBehind, turn_pages, turn_syncs, turned_gate};

use crate::memory::Memory;
use blob_base::IoFault;
use disk_model::{Disk, pages_for};
use meta_log::LayFault;

impl Memory {
    // Turns where the log has no room for a body and the next gate.
    fn make_room<D: Disk>(&mut self, disk: &mut D, body: &[u8]) -> Result<(), IoFault>
        requires sound { IsSound self.old }
        requires disk { total_pages self.old.layout ≤ D.size disk.old }
        requires short { length body.now ≤ 510 * page_bytes }
        ensures room { OnOk result (body_pages (length body.now) + 1 ≤ 511 - self.new.log.gate) }
        ensures gate { OnOk result (self.new.log.gate ≡ turned_gate self.old.log.gate (body_pages (length body.now) + 1)) }
        ensures rest { IsTrue D.tells → IsAtRest (D.size disk.old) (D.story disk.old) self.old
            → OnOk result (IsAtRest (D.size disk.new) (D.story disk.new) self.new) }
        ensures sound { IsSound self.new }
        ensures same { SameHeld self.old self.new }
        ensures turned { MayHaveTurned D.Disk self.old disk.old disk.new }
        ensures calls { IsTrue D.tells → OnOk result
            (Took 0 (turn_pages (511 - self.old.log.gate) (body_pages (length body.now) + 1) (encoded_by self.old.relation.states))
            (turn_syncs (511 - self.old.log.gate) (body_pages (length body.now) + 1)) (D.calls disk.old) (D.calls disk.new)) }
        ensures cause { Caused D.Disk disk.old disk.new result }
    {
        if self.log.left() < pages_for(body.len()) + 1 {
            self.turn(disk)?;
        }
        Ok(())
    }

    // Lays a body behind the gate, with the next gate, closed, behind it.
    fn lay<D: Disk>(&mut self, disk: &mut D, body: &[u8]) -> Result<(), IoFault>
        requires sound { IsSound self.old }
        requires disk { total_pages self.old.layout ≤ D.size disk.old }
        requires least { 13 ≤ length body.now }
        requires short { length body.now ≤ 510 * page_bytes }
        requires room { body_pages (length body.now) + 1 ≤ 511 - self.old.log.gate }
        ensures stands { IsTrue D.tells → OnOk result
            (StandsBehind (D.story disk.new).reads self.old.log.half self.old.log.gate body.now) }
        ensures settled { IsTrue D.tells → OnOk result (Settled (D.story disk.new)) }
        ensures next { OnOk result (self.new.log.next ≡ self.old.log.gate + 1 + body_pages (length body.now)) }
        ensures gate { self.new.log.gate ≡ self.old.log.gate }
        ensures half { self.new.log.half ≡ self.old.log.half }
        ensures held { IsHeld self.new }
        ensures same { SameHeld self.old self.new }
        ensures wrote { OnlyWrites D.Disk (IsBodyPage self.old.log.half self.old.log.gate body.now) disk.old disk.new }
        ensures calls { IsTrue D.tells → OnOk result
            (Took 0 (body_pages (length body.now) + 1) 1 (D.calls disk.old) (D.calls disk.new)) }
        ensures cause { Caused D.Disk disk.old disk.new result }
    {
        match self.log.lay(disk, body) {
            Ok(()) => disk.sync(),
            Err(LayFault::LogFull { .. }) => unreachable!(),
            Err(LayFault::Failed) => Err(IoFault::Failed),
            Err(LayFault::OutOfMemory) => Err(IoFault::OutOfMemory),
        }
    }

    /// Lays a body behind the gate, on the other half where this one's log has no room.
    pub(crate) fn lay_body<D: Disk>(&mut self, disk: &mut D, body: &[u8]) -> Result<(), IoFault>
        requires sound { IsSound self.old }
        requires disk { total_pages self.old.layout ≤ D.size disk.old }
        requires least { 13 ≤ length body.now }
        requires short { length body.now ≤ 510 * page_bytes }
        ensures laid { OnOk result ((base : D) × HasLaid D.Disk self.old self.new body.now disk.old base disk.new) }
        ensures next { OnOk result (self.new.log.next ≡ self.new.log.gate + 1 + body_pages (length body.now)) }
        ensures gate { OnOk result (self.new.log.gate ≡ turned_gate self.old.log.gate (body_pages (length body.now) + 1)) }
        ensures most { OnOk result (self.new.log.next ≤ 511) }
        ensures two { OnOk result (self.new.log.half < 2) }
        ensures held { IsHeld self.new }
        ensures same { SameHeld self.old self.new }
        ensures window { InFirst D.Disk self.old body.now disk.old disk.new }
        ensures calls { IsTrue D.tells → OnOk result
            (Took 0
            (turn_pages (511 - self.old.log.gate) (body_pages (length body.now) + 1) (encoded_by self.old.relation.states) + body_pages (length body.now) + 1)
            (turn_syncs (511 - self.old.log.gate) (body_pages (length body.now) + 1) + 1) (D.calls disk.old) (D.calls disk.new)) }
        ensures cause { Caused D.Disk disk.old disk.new result }
    {
        self.make_room(disk, body)?;
        self.log.rules();
        self.lay(disk, body)
    }
}
