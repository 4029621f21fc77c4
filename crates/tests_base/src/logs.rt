// The log area of a half. That of half 0 begins at page 3, and that of half 1 at page 515.

ghost use Rattle.std.specs.Prelude.{◌≡◌};

use blob_base::{Bytes64, PAGE_BYTES};
use disk_model::{Disk, Layout, MemDisk, Page};
use meta_log::{LayFault, Log};
use std::process::Abort;
use std::test::Fail;

// The smallest layout takes 2053 pages.
const SMALLEST: Layout = Layout { units: 1, room: 1 };

fn expect_page<R: Abort, D: Disk>(rt: &R, disk: &mut D, page: u32, expected: &Page)
    ensures { D.size disk.new ≡ D.size disk.old }
{
    let mut found = [1; PAGE_BYTES];
    assert!(rt; page < disk.pages());
    assert!(rt; disk.read(page, &mut found) == Ok(()), "page {page}");
    assert!(rt; found == *expected, "page {page}");
}

// A page that begins with these bytes, and has zeros behind them.
fn filled<R: Abort>(rt: &R, bytes: &[u8]) -> Page {
    let mut page = [0; PAGE_BYTES];
    assert!(rt; bytes.len() <= PAGE_BYTES);
    page[..bytes.len()].copy_from_slice(bytes);
    page
}

// Its second page has one byte of it. The gate behind it is closed, and stays so when its own is opened.
#[test]
fn a_body_of_4097_bytes_is_laid_and_its_gate_opened(rt: HostRuntime) -> Result<(), Fail> {
    let mut disk = MemDisk::new(rt.alloc(), 2053, Bytes64::new(rt.alloc()))?;
    assert!(rt; disk.write(515, &[9; PAGE_BYTES]) == Ok(()));
    assert!(rt; disk.write(518, &[9; PAGE_BYTES]) == Ok(()));
    assert!(rt; disk.write(519, &[9; PAGE_BYTES]) == Ok(()));
    let mut log = Log::start(SMALLEST, 1);
    assert_eq!(rt; log.half(), 1);
    assert_eq!(rt; log.left(), 511);
    log.lay(&mut disk, &[7; 4097]).expect(&rt, "room");
    assert_eq!(rt; disk.calls(), (0, 6, 0));
    expect_page(&rt, &mut disk, 515, &[9; PAGE_BYTES]);
    expect_page(&rt, &mut disk, 516, &[7; PAGE_BYTES]);
    expect_page(&rt, &mut disk, 517, &filled(&rt, &[7]));
    expect_page(&rt, &mut disk, 518, &[0; PAGE_BYTES]);
    assert!(rt; log.open_gate(&mut disk) == Ok(()));
    assert_eq!(rt; log.left(), 508);
    assert_eq!(rt; disk.calls(), (4, 7, 0));
    expect_page(&rt, &mut disk, 515, &filled(&rt, b"GATEOPEN"));
    expect_page(&rt, &mut disk, 518, &[0; PAGE_BYTES]);
    expect_page(&rt, &mut disk, 519, &[9; PAGE_BYTES]);
    Ok(())
}

// 511 pages and the gate behind them are one more than there are behind the first gate.
#[test]
fn a_body_of_511_pages_is_refused(rt: HostRuntime) -> Result<(), Fail> {
    let mut disk = MemDisk::new(rt.alloc(), 2053, Bytes64::new(rt.alloc()))?;
    let body = vec![in rt.alloc(); 1; 511 * PAGE_BYTES]?;
    let mut log = Log::start(SMALLEST, 0);
    assert!(rt;
        log.lay(&mut disk, &body)
            == Err(LayFault::LogFull {
                need: 512,
                left: 511
            })
    );
    assert_eq!(rt; disk.calls(), (0, 0, 0));
    assert_eq!(rt; log.left(), 511);
    Ok(())
}
