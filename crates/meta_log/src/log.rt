// The log of a half.

ghost use Rattle.std.specs.Prelude.{◌≡◌, ℕ, ◌+◌, ◌-◌, ◌^◌, ◌<◌, ◌≤◌, length, IsTrue, IfErr, OnErr, OnOk, IsErrOf};
ghost use Rattle.disk_model.specs.Disks.{Caused, OnlyWrites};
ghost use Rattle.store_model.specs.Disk.{Took, zero_page};
ghost use Rattle.store_model.specs.Layout.{total_pages};
ghost use Rattle.store_model.specs.Log.{IsLogPage, at_log, body_page, body_pages, open_page};
ghost use Rattle.meta_log.specs.LayFaults.{LayCameFrom};
ghost use Rattle.meta_log.specs.declared.fault.LayFault.TheVariants.{LogFull};

use crate::LayFault;
use crate::pages::{pages_of, write_pages};
use blob_base::IoFault;
use disk_model::{Disk, Layout, filled};
use std::marker::Model;

/// The log of a half, at its closed gate. A body is laid behind the gate, with the next gate, closed, behind it, and
/// counts from the moment on at which the gate is opened.
#[derive(Drop)]
pub struct Log {
    layout: Layout,
    half: u32,
    gate: u32,
    next: u32,
}

impl Model for Log {
    ghost use Rattle.meta_log.specs.Logs.{Parts, parts_of, IsSound};

    ghost Value = { Parts };

    ghost view = { parts_of };

    ghost invariant = { IsSound };
}

impl Log {
    /// The log of a half at its first gate, with no body behind it.
    pub fn start(layout: Layout, half: u32) -> Log
        requires { half < 2 }
        ensures { result ≡ record { layout = layout; half = half; gate = 0; next = 0 } }
    {
        Log {
            layout,
            half,
            gate: 0,
            next: 0,
        }
    }

    /// The rules that each log keeps.
    pub fn rules(&self)
        ensures half { self.now.half < 2 }
        ensures order { self.now.gate ≤ self.now.next }
        ensures most { self.now.next ≤ 511 }
    {
        // They are known where a field is read.
        let _ = &self.half;
    }

    /// The half.
    pub fn half(&self) -> u32
        ensures { result ≡ self.now.half }
    {
        self.half
    }

    /// How many pages are left behind the gate.
    pub fn left(&self) -> u32
        ensures { result ≡ 511 - self.now.gate }
    {
        511 - self.gate
    }

    /// Writes the pages of a body behind the gate, and the next gate, closed, behind them. After a fault some of these
    /// pages may have been written, and the last of them may read as any bytes.
    pub fn lay<D: Disk>(&mut self, disk: &mut D, body: &[u8]) -> Result<(), LayFault>
        requires disk { total_pages self.old.layout ≤ D.size disk.old }
        requires none { self.old.next ≡ self.old.gate }
        requires least { 13 ≤ length body.now }
        requires most { length body.now < 2 ^ 32 }

        // Where there is no room, nothing has changed.
        ensures full { 511 - self.old.gate < body_pages (length body.now) + 1
            → IsErrOf result (LogFull (body_pages (length body.now) + 1) (511 - self.old.gate)) }
        ensures untouched { 511 - self.old.gate < body_pages (length body.now) + 1 → disk.new ≡ disk.old }

        // The body and the next gate stand behind the gate.
        ensures body { IsTrue D.tells → OnOk result ((i : ℕ) → i < body_pages (length body.now)
            → (D.story disk.new).reads (at_log self.old.half (self.old.gate + 1 + i)) ≡ body_page body.now i) }
        ensures closed { IsTrue D.tells → OnOk result
            ((D.story disk.new).reads (at_log self.old.half (self.old.gate + 1 + body_pages (length body.now))) ≡ zero_page) }
        ensures next { OnOk result (self.new.next ≡ self.old.gate + 1 + body_pages (length body.now)) }

        // What else the log has is kept.
        ensures layout { self.new.layout ≡ self.old.layout }
        ensures half { self.new.half ≡ self.old.half }
        ensures gate { self.new.gate ≡ self.old.gate }
        ensures err { OnErr result (self.new ≡ self.old) }

        // No other page has changed, and a crash leaves each other page as before.
        ensures wrote { OnlyWrites D.Disk
            (IsLogPage self.old.half (self.old.gate + 1) (body_pages (length body.now) + 1)) disk.old disk.new }

        // Each page is written once.
        ensures writes { IsTrue D.tells
            → OnOk result (Took 0 (body_pages (length body.now) + 1) 0 (D.calls disk.old) (D.calls disk.new)) }
        ensures cause { IfErr result (LayCameFrom (body_pages (length body.now) + 1) (511 - self.old.gate)
            (D.faults disk.old) (D.faults disk.new) (D.frugal disk.old)) }
    {
        let need = pages_of(body) + 1;
        let left = self.left();
        if left < need {
            return Err(LayFault::LogFull { need, left });
        }
        // The page behind the body's last is one of zeros: the next gate, closed.
        write_pages(disk, self.layout.log(self.half) + self.gate + 1, need, body)?;
        self.next = self.gate + need;
        Ok(())
    }

    /// Writes the gate, open, and moves to the next one. After a fault the gate may read as any bytes.
    pub fn open_gate<D: Disk>(&mut self, disk: &mut D) -> Result<(), IoFault>
        requires disk { total_pages self.old.layout ≤ D.size disk.old }
        requires some { self.old.gate < self.old.next }
        ensures open { IsTrue D.tells → OnOk result ((D.story disk.new).reads (at_log self.old.half self.old.gate) ≡ open_page) }
        ensures gate { OnOk result (self.new.gate ≡ self.old.next) }

        // What else the log has is kept.
        ensures layout { self.new.layout ≡ self.old.layout }
        ensures half { self.new.half ≡ self.old.half }
        ensures next { self.new.next ≡ self.old.next }
        ensures err { OnErr result (self.new ≡ self.old) }

        // No other page has changed, and a crash leaves each other page as before.
        ensures wrote { OnlyWrites D.Disk (IsLogPage self.old.half self.old.gate 1) disk.old disk.new }
        ensures writes { IsTrue D.tells → OnOk result (Took 0 1 0 (D.calls disk.old) (D.calls disk.new)) }
        ensures cause { Caused D.Disk disk.old disk.new result }
    {
        disk.write(self.layout.log(self.half) + self.gate, &filled(b"GATEOPEN"))?;
        self.gate = self.next;
        Ok(())
    }
}
