// That the syncs of a disk over a file are those of the file, by a file that holds no bytes, counts its calls and fails
// its syncs when told to.

use blob_base::{IoFault, PAGE_BYTES};
use disk_file::FileDisk;
use disk_model::Disk;
use std::alloc::Allocator;
use std::cell::Cell;
use std::fs::{Files, Metadata, OpenFile, OpenOptions};
use std::io;
use std::io::{ErrorKind, Read, Seek, SeekFrom, Write};
use std::process::Abort;

// What the files that it opens took, and whether their syncs are to fail.
#[derive(Drop)]
struct Shelf {
    writes: Cell<u32>,
    syncs: Cell<u32>,
    fails: Cell<bool>,
}

impl Shelf {
    fn new() -> Shelf {
        Shelf {
            writes: Cell::new(0),
            syncs: Cell::new(0),
            fails: Cell::new(false),
        }
    }
}

#[derive(Drop)]
struct ShelfFile<'a> {
    shelf: &'a Shelf,
}

impl<'a> Read for ShelfFile<'a> {
    fn read(&mut self, _: &mut [u8]) -> io::Result<usize> {
        Ok(0)
    }
}

impl<'a> Write for ShelfFile<'a> {
    fn write(&mut self, from: &[u8]) -> io::Result<usize> {
        let writes = &self.shelf.writes;
        writes.set(writes.get().saturating_add(1));
        Ok(from.len())
    }

    fn flush(&mut self) -> io::Result<()> {
        Ok(())
    }
}

impl<'a> Seek for ShelfFile<'a> {
    fn seek(&mut self, to: SeekFrom) -> io::Result<u64> {
        match to {
            SeekFrom::Start(place) => Ok(place),
            _ => Err(io::Error::from(ErrorKind::Unsupported)),
        }
    }
}

impl<'a> OpenFile for ShelfFile<'a> {
    fn metadata(&self) -> io::Result<Metadata> {
        Err(io::Error::from(ErrorKind::Unsupported))
    }

    fn set_len(&self, _: u64) -> io::Result<()> {
        Ok(())
    }

    fn sync_all(&self) -> io::Result<()> {
        let syncs = &self.shelf.syncs;
        syncs.set(syncs.get().saturating_add(1));
        if self.shelf.fails.get() {
            return Err(io::Error::from(ErrorKind::Other));
        }
        Ok(())
    }

    fn sync_data(&self) -> io::Result<()> {
        self.sync_all()
    }
}

// A shelf opens files, and has no other call.
impl<'a> Files for &'a Shelf {
    type File = ShelfFile<'a>;

    type Dir = io::Empty;

    fn open_file(&self, how: &OpenOptions, _: &str) -> io::Result<ShelfFile<'a>> {
        how.check()?;
        Ok(ShelfFile { shelf: *self })
    }

    fn open_dir(&self, _: &str) -> io::Result<io::Empty> {
        Err(io::Error::from(ErrorKind::Unsupported))
    }

    fn metadata(&self, _: &str) -> io::Result<Metadata> {
        Err(io::Error::from(ErrorKind::Unsupported))
    }

    fn symlink_metadata(&self, _: &str) -> io::Result<Metadata> {
        Err(io::Error::from(ErrorKind::Unsupported))
    }

    fn copy(&self, _: &str, _: &str) -> io::Result<u64> {
        Err(io::Error::from(ErrorKind::Unsupported))
    }

    fn rename(&self, _: &str, _: &str) -> io::Result<()> {
        Err(io::Error::from(ErrorKind::Unsupported))
    }

    fn remove_file(&self, _: &str) -> io::Result<()> {
        Err(io::Error::from(ErrorKind::Unsupported))
    }

    fn create_dir(&self, _: &str) -> io::Result<()> {
        Err(io::Error::from(ErrorKind::Unsupported))
    }

    fn remove_dir(&self, _: &str) -> io::Result<()> {
        Err(io::Error::from(ErrorKind::Unsupported))
    }

    fn remove_dir_all<B: Allocator>(&self, _: B, _: &str) -> io::Result<()> {
        Err(io::Error::from(ErrorKind::Unsupported))
    }
}

fn expect_taken<R: Abort>(rt: &R, shelf: &Shelf, writes: u32, syncs: u32) {
    let (wrote, synced) = (shelf.writes.get(), shelf.syncs.get());
    assert!(rt; wrote == writes, "{wrote} writes, not {writes}");
    assert!(rt; synced == syncs, "{synced} syncs, not {syncs}");
}

#[test]
fn each_sync_of_a_file_disk_reaches_the_files_sync_once(rt: HostRuntime) {
    let shelf = Shelf::new();
    let mut disk = FileDisk::create(&&shelf, "disk.img", 3).expect(&rt, "created");
    assert!(rt; disk.pages() == 3);
    expect_taken(&rt, &shelf, 0, 0);
    assert!(rt; disk.write(2, &[7; PAGE_BYTES]) == Ok(()));
    expect_taken(&rt, &shelf, 1, 0);
    assert!(rt; disk.sync() == Ok(()));
    expect_taken(&rt, &shelf, 1, 1);
    assert!(rt; disk.write(0, &[9; PAGE_BYTES]) == Ok(()));
    expect_taken(&rt, &shelf, 2, 1);
    assert!(rt; disk.sync() == Ok(()));
    assert!(rt; disk.sync() == Ok(()));
    expect_taken(&rt, &shelf, 2, 3);
}

#[test]
fn a_sync_that_the_file_fails_is_answered_as_failed(rt: HostRuntime) {
    let shelf = Shelf::new();
    let mut disk = FileDisk::create(&&shelf, "disk.img", 3).expect(&rt, "created");
    assert!(rt; disk.sync() == Ok(()));
    shelf.fails.set(true);
    assert!(rt; disk.sync() == Err(IoFault::Failed));
    assert!(rt; disk.sync() == Err(IoFault::Failed));
    shelf.fails.set(false);
    assert!(rt; disk.sync() == Ok(()));
    expect_taken(&rt, &shelf, 0, 4);
}
