// The log of a half, read back. Each test's half has the smallest layout.

use blob_base::{Bytes64, PAGE_BYTES};
use disk_model::{Disk, Layout, MemDisk};
use meta_log::{Log, ReadFault};
use std::test::Fail;

// The smallest layout takes 2053 pages.
const SMALLEST: Layout = Layout { units: 1, room: 1 };

// Bodies of one page and of two, laid one behind the other. The gates of both are open, and the one behind them is
// closed. The four pages before that and its own are read once.
#[test]
fn two_bodies_are_read(rt: HostRuntime) -> Result<(), Fail> {
    let mut disk = MemDisk::new(rt.alloc(), 2053, Bytes64::new(rt.alloc()))?;
    let mut log = Log::start(SMALLEST, 1);
    let mut short = [7; 13];
    short[..12].copy_from_slice(b"BLOBFRM1\0\0\0\x0d");
    let mut long = [8; 4097];
    long[..12].copy_from_slice(b"BLOBFRM1\0\0\x10\x01");
    log.lay(&mut disk, &short).expect(&rt, "room");
    assert!(rt; log.open_gate(&mut disk) == Ok(()));
    log.lay(&mut disk, &long).expect(&rt, "room");
    assert!(rt; log.open_gate(&mut disk) == Ok(()));
    let calls = disk.calls();
    match Log::read(rt.alloc(), &mut disk, SMALLEST, 1) {
        Ok(found) => {
            assert_eq!(rt; found.gate, 5);
            assert_eq!(rt; found.bodies.len(), 2);
            assert_eq!(rt; found.bodies.get(0).page, 0);
            assert!(rt; found.bodies.get(0).bytes.as_slice() == short.as_slice());
            assert_eq!(rt; found.bodies.get(1).page, 2);
            assert!(rt; found.bodies.get(1).bytes.as_slice() == long.as_slice());
        }
        Err(_) => assert!(rt; false),
    }
    assert_eq!(rt; disk.calls(), (calls.0 + 6, calls.1, calls.2));
    Ok(())
}

// An open gate with a page of zeros behind it.
#[test]
fn an_open_gate_without_a_body_is_refused(rt: HostRuntime) -> Result<(), Fail> {
    let mut disk = MemDisk::new(rt.alloc(), 2053, Bytes64::new(rt.alloc()))?;
    let mut gate = [0; PAGE_BYTES];
    gate[..8].copy_from_slice(b"GATEOPEN");
    assert!(rt; disk.write(3, &gate) == Ok(()));
    match &Log::read(rt.alloc(), &mut disk, SMALLEST, 0) {
        Err(ReadFault::BadFrame { page, before }) => {
            assert_eq!(rt; *page, 0);
            assert!(rt; before.is_empty());
        }
        _ => assert!(rt; false),
    }
    Ok(())
}
