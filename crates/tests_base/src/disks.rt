// Disks and their layout.

ghost use Rattle.std.specs.Prelude.{◌≡◌};

use blob_base::{Bytes64, IoFault, PAGE_BYTES};
use disk_model::{Disk, Layout, MemDisk, Page};
use std::process::Abort;
use std::test::Fail;

// A page whose neighbouring bytes differ.
fn pattern() -> Page {
    let mut page = [0; PAGE_BYTES];
    for i in 0..PAGE_BYTES {
        page[i] = (i % 251) as u8;
    }
    page
}

fn expect_page<R: Abort, D: Disk>(rt: &R, disk: &mut D, page: u32, expected: &Page)
    ensures { D.size disk.new ≡ D.size disk.old }
{
    let mut found = [1; PAGE_BYTES];
    assert!(rt; page < disk.pages());
    assert!(rt; disk.read(page, &mut found) == Ok(()), "page {page}");
    assert!(rt; found == *expected, "page {page}");
}

#[test]
fn a_new_disk_is_all_zeros(rt: HostRuntime) -> Result<(), Fail> {
    let mut disk = MemDisk::new(rt.alloc(), 4, Bytes64::new(rt.alloc()))?;
    assert_eq!(rt; disk.pages(), 4);
    for page in 0..4 {
        expect_page(&rt, &mut disk, page, &[0; PAGE_BYTES]);
    }
    assert_eq!(rt; disk.calls(), (4, 0, 0));
    Ok(())
}

#[test]
fn a_page_that_was_written_is_read_back(rt: HostRuntime) -> Result<(), Fail> {
    let mut disk = MemDisk::new(rt.alloc(), 4, Bytes64::new(rt.alloc()))?;
    assert!(rt; disk.write(2, &[7; PAGE_BYTES]) == Ok(()));
    assert!(rt; disk.write(2, &pattern()) == Ok(()));
    assert!(rt; disk.sync() == Ok(()));
    expect_page(&rt, &mut disk, 1, &[0; PAGE_BYTES]);
    expect_page(&rt, &mut disk, 2, &pattern());
    expect_page(&rt, &mut disk, 3, &[0; PAGE_BYTES]);
    assert_eq!(rt; disk.calls(), (3, 2, 1));
    Ok(())
}

// Each failing call is counted, and a write that fails leaves its bytes on the page.
#[test]
fn a_disk_fails_at_the_chosen_calls(rt: HostRuntime) -> Result<(), Fail> {
    let fails = Bytes64::from_vec([1, 3, 5].to_vec(rt.alloc())?);
    let mut disk = MemDisk::new(rt.alloc(), 4, fails)?;
    let mut page = [1; PAGE_BYTES];
    assert!(rt; disk.write(2, &pattern()) == Err(IoFault::Failed));
    expect_page(&rt, &mut disk, 2, &pattern());
    assert!(rt; disk.read(2, &mut page) == Err(IoFault::Failed));
    assert!(rt; disk.sync() == Ok(()));
    assert!(rt; disk.sync() == Err(IoFault::Failed));
    expect_page(&rt, &mut disk, 3, &[0; PAGE_BYTES]);
    assert_eq!(rt; disk.calls(), (3, 1, 2));
    Ok(())
}

// The pages of a layout by hand: 1 selector, 2 headers, 2 logs of 512, 2 times the room, then 1024 a unit.
#[test]
fn the_pages_of_a_layout(rt: HostRuntime) {
    let smallest = Layout { units: 1, room: 1 };
    assert_eq!(rt; smallest.total(), 2053);
    assert_eq!(rt; (smallest.header(0), smallest.header(1)), (1, 2));
    assert_eq!(rt; (smallest.log(0), smallest.log(1)), (3, 515));
    assert_eq!(rt; (smallest.states(0), smallest.states(1)), (1027, 1028));
    assert_eq!(rt; (smallest.data(), smallest.data_pages()), (1029, 1024));
    let largest = Layout {
        units: 16_384,
        room: 1024,
    };
    assert_eq!(rt; largest.total(), 16_780_291);
    assert_eq!(rt; (largest.states(0), largest.states(1)), (1027, 2051));
    assert_eq!(rt; (largest.data(), largest.data_pages()), (3075, 16_777_216));
}
