ghost use Rattle.std.specs.Prelude.{◌≡◌, ◌<◌};

use blob_base::{IoFault, PAGE_BYTES};
use disk_file::{FileDisk, OpenFailed};
use disk_model::Disk;
use std::fs;
use std::fs::File;
use std::process::Abort;

const PATH: &str = "tests_base_disk.img";

fn expect_page<D: Disk, R: Abort>(rt: &R, disk: &mut D, page: u32, byte: u8)
    requires { page < D.size disk.old }
    ensures { D.size disk.new ≡ D.size disk.old }
{
    let mut found = [1; PAGE_BYTES];
    let read = disk.read(page, &mut found);
    assert!(rt; read.is_ok(), "page {page}");
    assert!(rt; found == [byte; PAGE_BYTES], "page {page}");
}

fn write_page<D: Disk, R: Abort>(rt: &R, disk: &mut D, page: u32, byte: u8)
    requires { page < D.size disk.old }
    ensures { D.size disk.new ≡ D.size disk.old }
{
    let written = disk.write(page, &[byte; PAGE_BYTES]);
    assert!(rt; written.is_ok(), "page {page}");
}

// What is written to a file's pages is read from them, also through a disk that is opened later.
#[test]
fn pages_of_a_file(rt: HostRuntime) {
    let mut disk = FileDisk::create(&rt, PATH, 3).expect(&rt, "created");
    assert!(rt; disk.pages() == 3);
    write_page(&rt, &mut disk, 2, 9);
    write_page(&rt, &mut disk, 0, 7);
    expect_page(&rt, &mut disk, 0, 7);
    expect_page(&rt, &mut disk, 1, 0);
    expect_page(&rt, &mut disk, 2, 9);
    let synced = disk.sync();
    assert!(rt; synced.is_ok());

    let mut later = FileDisk::open(&rt, PATH).expect(&rt, "opened");
    assert!(rt; later.pages() == 3);
    expect_page(&rt, &mut later, 0, 7);
    expect_page(&rt, &mut later, 1, 0);
    expect_page(&rt, &mut later, 2, 9);

    let mut again = FileDisk::create(&rt, PATH, 2).expect(&rt, "emptied");
    assert!(rt; again.pages() == 2);
    expect_page(&rt, &mut again, 0, 0);
    expect_page(&rt, &mut again, 1, 0);
    fs::remove_file(&rt, PATH).expect(&rt, "removed");
}

// A file that is cut off behind a page and 100 bytes has one page, and a disk that had more reads no further.
#[test]
fn a_file_cut_off(rt: HostRuntime) {
    let path = "tests_base_cut.img";
    let mut disk = FileDisk::create(&rt, path, 3).expect(&rt, "created");
    let file = File::options()
        .write(true)
        .open(&rt, path)
        .expect(&rt, "opened");
    file.set_len(4196).expect(&rt, "cut off");
    let mut bytes = [1; PAGE_BYTES];
    assert!(rt; disk.pages() == 3);
    let short = disk.read(1, &mut bytes);
    assert!(rt; short == Err(IoFault::Failed));
    let past = disk.read(2, &mut bytes);
    assert!(rt; past == Err(IoFault::Failed));
    expect_page(&rt, &mut disk, 0, 0);
    let later = FileDisk::open(&rt, path).expect(&rt, "opened again");
    assert!(rt; later.pages() == 1);
    fs::remove_file(&rt, path).expect(&rt, "removed");
}

#[test]
fn paths_that_are_refused(rt: HostRuntime) {
    assert!(rt; FileDisk::open(&rt, "no-such-file.img").err() == Some(OpenFailed::Refused));
    assert!(rt; FileDisk::open(&rt, "/").err() == Some(OpenFailed::Refused));
    assert!(rt; FileDisk::create(&rt, "/", 1).err() == Some(OpenFailed::Refused));
    assert!(rt;
        FileDisk::create(&rt, "no-such-folder/disk.img", 1).err() == Some(OpenFailed::Refused)
    );
}
