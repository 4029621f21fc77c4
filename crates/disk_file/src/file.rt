// A disk over a file.

ghost use Rattle.std.specs.Prelude.{◌≡◌, ◌+◌, ◌-◌, ◌*◌, ◌/◌, ◌^◌, ◌≤◌, ◌↔◌, min, true, false, IfOk, IfErr, IsOk, OnOk, OnErr};
ghost use Rattle.std.specs.Io.KnownBytes.{Keeps};
ghost use Rattle.std.specs.Io.Seek.{MovesTo};
ghost use Rattle.blob_base.specs.Faults.{HasCause};
ghost use Rattle.blob_base.specs.declared.faults.IoFault.TheVariants.{Failed};
ghost use Rattle.disk_file.specs.File.{disk_size, disk_faults, disk_frugal, no_calls, ReadsAt, WritesAt};
ghost use Rattle.disk_model.specs.Disks.{untold};
ghost use Rattle.store_model.specs.Disk.{page_bytes};
ghost use Rattle.disk_model.specs.Frame.{KeepsDisk};

use crate::OpenFailed;
use blob_base::{IoFault, PAGE_BYTES};
use disk_model::{Disk, Page};
use std::fs::{Files, OpenFile, OpenOptions};
use std::io;
use std::io::{Read, Seek, SeekFrom, Write};

/// A disk over a file. It counts each error of the system as a fault, tells nothing of its pages, its images and its
/// calls, and is frugal.
#[derive(Drop)]
pub struct FileDisk<F> {
    file: F,
    size: u32,
    faults: u64,
}

// Where a page begins in the file, in bytes.
fn offset_of(page: u32) -> u64
    ensures { result ≡ page_bytes * page }
{
    PAGE_BYTES as u64 * u64::from(page)
}

// How many pages a disk over a file of so many bytes has: its whole pages, as far as 32 bits count them.
fn pages_of(bytes: u64) -> u32
    ensures { result ≡ min (bytes / page_bytes) (2 ^ 32 - 1) }
{
    (bytes / PAGE_BYTES as u64).min(u64::from(u32::MAX)) as u32
}

// Moves to a page.
fn seek_page<F: Seek>(file: &mut F, page: u32) -> io::Result<()>
    ensures moves { MovesTo (F.stream_position file.old) (F.stream_position file.new) (page_bytes * page) result }
    ensures bytes { Keeps (F.stream_bytes file.old) (F.stream_bytes file.new) }
{
    file.seek(SeekFrom::Start(offset_of(page)))?;
    Ok(())
}

// Reads a page; where the file ends before it does, that is an error.
fn read_page<F: Read + Seek>(file: &mut F, page: u32, into: &mut Page) -> io::Result<()>
    ensures { OnOk result
        (ReadsAt F.stream_position F.stream_bytes F.remaining file.old file.new (page_bytes * page) into.new) }
{
    seek_page(file, page)?;
    file.read_exact(into)
}

// Writes a page.
fn write_page<F: Write + Seek>(file: &mut F, page: u32, from: &Page) -> io::Result<()>
    ensures { OnOk result
        (WritesAt F.stream_position F.stream_bytes F.contents file.old file.new (page_bytes * page) from.now) }
{
    seek_page(file, page)?;
    file.write_all(from)
}

impl<F: Read + Write + Seek + OpenFile + Drop> FileDisk<F> {
    /// A disk of `pages` pages over a new file, all zeros. An older file of that path is emptied first, also where its
    /// new length is then refused.
    pub fn create<R: Files<File = F>>(
        rt: &R,
        path: &str,
        pages: u32,
    ) -> Result<FileDisk<F>, OpenFailed>
        ensures size { IfOk result (λ disk. disk_size disk ≡ pages) }
        ensures faults { IfOk result (λ disk. disk_faults disk ≡ 0) }
    {
        let file = OpenOptions::new()
            .read(true)
            .write(true)
            .create(true)
            .truncate(true)
            .open(rt, path)?;
        file.set_len(offset_of(pages))?;
        Ok(FileDisk {
            file,
            size: pages,
            faults: 0,
        })
    }

    /// A disk over the file of that path, with as many pages as the file's length has whole ones, at most
    /// 4,294,967,295.
    pub fn open<R: Files<File = F>>(rt: &R, path: &str) -> Result<FileDisk<F>, OpenFailed>
        ensures faults { IfOk result (λ disk. disk_faults disk ≡ 0) }
    {
        let file = OpenOptions::new().read(true).write(true).open(rt, path)?;
        let size = pages_of(file.metadata()?.len());
        Ok(FileDisk {
            file,
            size,
            faults: 0,
        })
    }

    // Counts the system's error, if it answered one.
    fn counted(&mut self, answer: io::Result<()>) -> Result<(), IoFault>
        ensures ok { IsOk result ↔ IsOk answer }
        ensures same { OnOk result (self.new.faults ≡ self.old.faults) }
        ensures rises { OnErr result (self.new.faults ≡ min (self.old.faults + 1) (2 ^ 64 - 1)) }
        ensures faults { self.old.faults ≤ self.new.faults }
        ensures fault { IfErr result (λ e. e ≡ Failed) }
        ensures file { self.new.file ≡ self.old.file }
        ensures size { self.new.size ≡ self.old.size }
    {
        match answer {
            Ok(()) => Ok(()),
            Err(_) => {
                self.faults = self.faults.saturating_add(1);
                Err(IoFault::Failed)
            }
        }
    }
}

impl<F: Read + Write + Seek + OpenFile + Drop> Disk for FileDisk<F> {
    ghost tells = { false };

    ghost size = { λ disk. disk.size };

    ghost story = { λ _. untold };

    ghost calls = { λ _. no_calls };

    ghost faults = { λ disk. disk.faults };

    ghost frugal = { λ _. true };

    fn pages(&self) -> u32 {
        self.size
    }

    fn read(&mut self, page: u32, into: &mut Page) -> Result<(), IoFault>
        ensures read { OnOk result
            (ReadsAt F.stream_position F.stream_bytes F.remaining self.old.file self.new.file (page_bytes * page) into.new) }
        ensures keeps { KeepsDisk disk_size disk_faults disk_frugal self.old self.new }
        ensures cause { HasCause disk_faults disk_frugal self.old self.new result }
    {
        let answer = read_page(&mut self.file, page, into);
        self.counted(answer)
    }

    fn write(&mut self, page: u32, from: &Page) -> Result<(), IoFault>
        ensures written { OnOk result
            (WritesAt F.stream_position F.stream_bytes F.contents self.old.file self.new.file (page_bytes * page) from.now) }
        ensures keeps { KeepsDisk disk_size disk_faults disk_frugal self.old self.new }
        ensures cause { HasCause disk_faults disk_frugal self.old self.new result }
    {
        let answer = write_page(&mut self.file, page, from);
        self.counted(answer)
    }

    fn sync(&mut self) -> Result<(), IoFault> {
        let answer = self.file.sync_data();
        self.counted(answer)
    }
}
