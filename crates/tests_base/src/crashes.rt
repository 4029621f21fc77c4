// What crashes leave of a disk in memory, by a table worked out by hand: a page that was written, or whose write failed, is
// pending until a sync succeeds, and every other page stays as it was synced.

use blob_base::{Bytes64, IoFault, PAGE_BYTES};
use disk_model::{Disk, MemDisk, Pick};
use std::process::Abort;
use std::test::Fail;

const PAGES: u32 = 3;

// Each page has one byte all over.
fn expect_pages<R: Abort>(rt: &R, disk: &mut MemDisk, bytes: &[u8; 3]) {
    let mut found = [0; PAGE_BYTES];
    for page in 0..PAGES {
        assert!(rt; page < disk.pages());
        assert!(rt; disk.read(page, &mut found) == Ok(()));
        assert!(rt; found == [bytes[page as usize]; PAGE_BYTES], "page {page}");
    }
}

// A crash behind so many calls leaves these pages with nothing picked, and byte 9 where one that is pending is picked.
fn expect_images<R: Abort + AllocGlobal>(
    rt: &R,
    disk: &MemDisk,
    moment: u64,
    pending: &[bool; 3],
    kept: &[u8; 3],
) {
    let (reads, writes, syncs) = disk.calls();
    assert!(rt; moment <= reads + writes + syncs);
    let mut crashed = disk.crash(rt.alloc(), moment, &[]).expect(rt, "memory");
    expect_pages(rt, &mut crashed, kept);
    for page in 0..PAGES {
        let torn = disk.is_pending(moment, page);
        assert!(rt;
            torn == pending[page as usize],
            "page {page} behind {moment}"
        );
        if torn {
            let pick = Pick {
                page,
                bytes: [9; PAGE_BYTES],
            };
            let mut crashed = disk.crash(rt.alloc(), moment, &[pick]).expect(rt, "memory");
            let mut bytes = *kept;
            bytes[page as usize] = 9;
            expect_pages(rt, &mut crashed, &bytes);
        }
    }
}

// Calls 5, a sync, and 6, a write, fail.
#[test]
fn images_that_crashes_leave(rt: HostRuntime) -> Result<(), Fail> {
    let fails = Bytes64::from_vec([5, 6].to_vec(rt.alloc())?);
    let mut disk = MemDisk::new(rt.alloc(), PAGES, fails)?;
    assert!(rt; disk.write(0, &[1; PAGE_BYTES]) == Ok(()));
    assert!(rt; disk.sync() == Ok(()));
    assert!(rt; disk.write(1, &[2; PAGE_BYTES]) == Ok(()));
    assert!(rt; disk.write(0, &[3; PAGE_BYTES]) == Ok(()));
    assert!(rt; disk.sync() == Err(IoFault::Failed));
    assert!(rt; disk.write(2, &[4; PAGE_BYTES]) == Err(IoFault::Failed));
    assert!(rt; disk.sync() == Ok(()));
    for (moment, pending, kept) in [
        (0, [false, false, false], [0, 0, 0]),
        (1, [true, false, false], [0, 0, 0]),
        (2, [false, false, false], [1, 0, 0]),
        (3, [false, true, false], [1, 0, 0]),
        (4, [true, true, false], [1, 0, 0]),
        (5, [true, true, false], [1, 0, 0]),
        (6, [true, true, true], [1, 0, 0]),
        (7, [false, false, false], [3, 2, 4]),
    ] {
        expect_images(&rt, &disk, moment, &pending, &kept);
    }
    Ok(())
}
