// The format of a disk, and its opening. The pages and their bytes are those of the format, written by hand; each disk has
// the smallest layout, where the data area begins at page 1029.

ghost use Rattle.std.specs.Prelude.{◌≡◌};

use blob_base::{Bytes64, PAGE_BYTES, StoreRefusal};
use disk_model::{Disk, Layout, MemDisk, Page};
use recover::{Found, RecoverFault, format, recover};
use std::process::Abort;
use std::test::Fail;

// It takes 2053 pages.
pub(crate) const SMALLEST: Layout = Layout { units: 1, room: 1 };

// A page that begins with these bytes, and has zeros behind them.
pub(crate) fn page_of<R: Abort>(rt: &R, bytes: &[u8]) -> Page {
    let mut page = [0; PAGE_BYTES];
    assert!(rt; bytes.len() <= PAGE_BYTES);
    page[..bytes.len()].copy_from_slice(bytes);
    page
}

// A page that begins with these bytes, given by two digits each.
pub(crate) fn page_of_hex<R: Abort>(rt: &R, digits: &str) -> Page {
    let mut page = [0; PAGE_BYTES];
    let count = digits.len() / 2;
    assert!(rt; count <= PAGE_BYTES);
    let read = hex::decode_to_slice(digits, &mut page[..count]);
    assert!(rt; read.is_ok());
    page
}

// The body of one entry, number 1, that sets `demo/a` to the content `abc` on data page 0.
pub(crate) fn one_set<R: Abort>(rt: &R) -> Page {
    page_of_hex(
        rt,
        "424c4f4246524d31\
         00000077\
         01\
         0000000000000001\
         00\
         0000000000000001\
         01\
         01\
         0664656d6f2f61\
         00000003\
         0000000000000001\
         ba7816bf8f01cfea414140de5dae2223b00361a396177a9cb410ff61f20015ad\
         6162630000000000000000000000000000000000000000000000000000000000\
         00000000",
    )
}

// A disk that has been formatted, with this body behind its first gate, which is open.
pub(crate) fn disk_with<R: Abort + AllocGlobal>(rt: &R, body: &Page) -> Result<MemDisk, Fail> {
    let mut disk = MemDisk::new(rt.alloc(), 2053, Bytes64::new(rt.alloc()))?;
    assert!(rt; format(&mut disk, SMALLEST) == Ok(()));
    assert!(rt; disk.write(4, body) == Ok(()));
    assert!(rt; disk.write(3, &page_of(rt, b"GATEOPEN")) == Ok(()));
    Ok(disk)
}

fn expect_refused<R: Abort + AllocGlobal, D: Disk>(rt: &R, disk: &mut D, expected: StoreRefusal) {
    match recover(rt.alloc(), disk) {
        Ok(_) => assert!(rt; false),
        Err(fault) => assert!(rt; fault == RecoverFault::Refused { why: expected }),
    }
}

// What was found has no state, and this last number.
pub(crate) fn expect_none<R: Abort>(rt: &R, found: &Found, last: u64) {
    assert!(rt; found.layout == SMALLEST);
    assert_eq!(rt; found.last, last);
    assert!(rt; found.relation.is_empty());
}

pub(crate) fn expect_page<R: Abort, D: Disk>(rt: &R, disk: &mut D, page: u32, expected: &Page)
    ensures { D.size disk.new ≡ D.size disk.old }
{
    let mut found = [1; PAGE_BYTES];
    assert!(rt; page < disk.pages());
    assert!(rt; disk.read(page, &mut found) == Ok(()), "page {page}");
    assert!(rt; found == *expected, "page {page}");
}

// The header of a half without states, of the smallest layout and the last number 0.
const EMPTY_HEADER: &str = "424c4f4248414c46000000010000000100000001000000000000000000000000\
                            00000000";

#[test]
fn a_formatted_disk_opens_without_states(rt: HostRuntime) -> Result<(), Fail> {
    let mut disk = MemDisk::new(rt.alloc(), 2053, Bytes64::new(rt.alloc()))?;
    assert!(rt; disk.write(0, &[9; PAGE_BYTES]) == Ok(()));
    assert!(rt; disk.write(3, &[9; PAGE_BYTES]) == Ok(()));
    assert!(rt; format(&mut disk, SMALLEST) == Ok(()));
    assert_eq!(rt; disk.calls(), (0, 5, 2));
    expect_page(&rt, &mut disk, 0, &[0; PAGE_BYTES]);
    expect_page(&rt, &mut disk, 1, &page_of_hex(&rt, EMPTY_HEADER));
    expect_page(&rt, &mut disk, 3, &[0; PAGE_BYTES]);
    let found = recover(rt.alloc(), &mut disk).expect(&rt, "a store");
    expect_none(&rt, &found, 0);
    assert_eq!(rt; found.log.half(), 1);
    expect_page(&rt, &mut disk, 0, &page_of(&rt, b"HALFONE1"));
    expect_page(&rt, &mut disk, 2, &page_of_hex(&rt, EMPTY_HEADER));
    let again = recover(rt.alloc(), &mut disk).expect(&rt, "a store");
    expect_none(&rt, &again, 0);
    expect_page(&rt, &mut disk, 0, &[0; PAGE_BYTES]);
    Ok(())
}

// The header of half 0 tells one state of 87 bytes, and zeros stand there: a key has a length of 3 at least.
#[test]
fn a_half_without_the_state_that_it_tells(rt: HostRuntime) -> Result<(), Fail> {
    let mut disk = MemDisk::new(rt.alloc(), 2053, Bytes64::new(rt.alloc()))?;
    let header = page_of_hex(
        &rt,
        "424c4f4248414c46000000010000000100000001000000000000000100000001\
         00000057",
    );
    assert!(rt; disk.write(1, &header) == Ok(()));
    expect_refused(&rt, &mut disk, StoreRefusal::BadTuple { half: 0, at: 0 });
    Ok(())
}

// Nothing is written to them.
#[test]
fn disks_that_are_no_store(rt: HostRuntime) -> Result<(), Fail> {
    let mut small = MemDisk::new(rt.alloc(), 2052, Bytes64::new(rt.alloc()))?;
    expect_refused(
        &rt,
        &mut small,
        StoreRefusal::TooSmall {
            need: 2053,
            have: 2052,
        },
    );
    assert_eq!(rt; small.calls(), (0, 0, 1));
    let mut empty = MemDisk::new(rt.alloc(), 2053, Bytes64::new(rt.alloc()))?;
    expect_refused(&rt, &mut empty, StoreRefusal::BadHalf { half: 0, at: 0 });
    let mut bare = disk_with(&rt, &[0; PAGE_BYTES])?;
    let before = bare.calls();
    expect_refused(&rt, &mut bare, StoreRefusal::BadFrame { half: 0, page: 0 });
    assert_eq!(rt; bare.calls().1, before.1);
    Ok(())
}

// Its number is 2, and the half's last number is 0.
#[test]
fn an_entry_whose_number_does_not_go_on_is_refused(rt: HostRuntime) -> Result<(), Fail> {
    let mut body = one_set(&rt);
    body[20] = 2;
    body[50] = 2;
    let mut disk = disk_with(&rt, &body)?;
    expect_refused(&rt, &mut disk, StoreRefusal::BadFrame { half: 0, page: 0 });
    Ok(())
}

// Two keys with one content on data page 0.
#[test]
fn a_page_that_is_owned_twice_is_named(rt: HostRuntime) -> Result<(), Fail> {
    let body = page_of_hex(
        &rt,
        "424c4f4246524d31\
         000000cf\
         01\
         0000000000000001\
         00\
         0000000000000001\
         02\
         01\
         0664656d6f2f61\
         00000003\
         0000000000000001\
         ba7816bf8f01cfea414140de5dae2223b00361a396177a9cb410ff61f20015ad\
         6162630000000000000000000000000000000000000000000000000000000000\
         00000000\
         01\
         0664656d6f2f62\
         00000003\
         0000000000000001\
         ba7816bf8f01cfea414140de5dae2223b00361a396177a9cb410ff61f20015ad\
         6162630000000000000000000000000000000000000000000000000000000000\
         00000000",
    );
    let mut disk = disk_with(&rt, &body)?;
    assert!(rt; disk.pages() == 2053);
    assert!(rt; disk.write(1029, &page_of(&rt, b"abc")) == Ok(()));
    expect_refused(&rt, &mut disk, StoreRefusal::OwnedTwice { page: 0 });
    Ok(())
}

#[test]
fn a_disk_too_small_for_its_layout_is_not_formatted(rt: HostRuntime) -> Result<(), Fail> {
    let mut disk = MemDisk::new(rt.alloc(), 2053, Bytes64::new(rt.alloc()))?;
    let refused = format(&mut disk, Layout { units: 1, room: 2 });
    assert!(rt;
        refused
            == Err(RecoverFault::Refused {
                why: StoreRefusal::TooSmall {
                    need: 2055,
                    have: 2053
                }
            })
    );
    assert_eq!(rt; disk.calls(), (0, 0, 0));
    Ok(())
}

// The format makes five calls, and the test one. Opening makes a sync, three reads (the selector, the header, the gate), two
// writes and a sync, and a write and a sync. Each of them fails in turn, and the disk opens then as before.
#[test]
fn each_call_of_opening_fails(rt: HostRuntime) -> Result<(), Fail> {
    for call in 7..16 {
        let mut fails = Bytes64::new(rt.alloc());
        fails.push(rt.alloc(), call)?;
        let mut disk = MemDisk::new(rt.alloc(), 2053, fails)?;
        assert!(rt; format(&mut disk, SMALLEST) == Ok(()));
        assert!(rt; disk.pages() == 2053);
        assert!(rt; disk.write(4, &one_set(&rt)) == Ok(()));
        match recover(rt.alloc(), &mut disk) {
            Ok(_) => assert!(rt; false),
            Err(fault) => assert!(rt; fault == RecoverFault::Failed),
        }
        let found = recover(rt.alloc(), &mut disk).expect(&rt, "a store");
        expect_none(&rt, &found, 0);
    }
    Ok(())
}
