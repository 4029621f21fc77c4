// What an opening drops of the last frame: the entries of which not all states verify. The pages and their bytes are those of
// the format, written by hand; each disk has the smallest layout, where the data area begins at page 1029.

use crate::openings::{
    SMALLEST, disk_with, expect_none, expect_page, one_set, page_of, page_of_hex,
};
use disk_model::{Disk, MemDisk, Page};
use recover::{Found, recover};
use std::process::Abort;
use std::test::Fail;

// The body of two entries, numbers 1 and 2. They set `demo/a` and `demo/b` to the content `abc`, on data pages 0 and 1.
fn two_sets<R: Abort>(rt: &R) -> Page {
    page_of_hex(
        rt,
        "424c4f4246524d31\
         000000e1\
         02\
         0000000000000001\
         00\
         0000000000000001\
         01\
         01\
         0664656d6f2f61\
         00000003\
         0000000000000001\
         ba7816bf8f01cfea414140de5dae2223b00361a396177a9cb410ff61f20015ad\
         6162630000000000000000000000000000000000000000000000000000000000\
         00000000\
         0000000000000002\
         00\
         0000000000000002\
         01\
         01\
         0664656d6f2f62\
         00000003\
         0000000000000002\
         ba7816bf8f01cfea414140de5dae2223b00361a396177a9cb410ff61f20015ad\
         6162630000000000000000000000000000000000000000000000000000000000\
         00000001",
    )
}

fn write_abc<R: Abort>(rt: &R, disk: &mut MemDisk, page: u32) {
    assert!(rt; page < disk.pages());
    assert!(rt; disk.write(page, &page_of(rt, b"abc")) == Ok(()));
}

fn expect_dropped<R: Abort>(rt: &R, found: &Found, expected: &[u64]) {
    assert!(rt; found.dropped.as_slice() == expected);
}

// The one state that was found is that of this key.
fn expect_one<R: Abort>(rt: &R, found: &Found, expected: &[u8], last: u64) {
    assert!(rt; found.layout == SMALLEST);
    assert_eq!(rt; found.last, last);
    assert_eq!(rt; found.relation.len(), 1);
    let (key, state) = found.relation.nth(0);
    assert!(rt; key.text() == expected);
    assert_eq!(rt; state.size(), 3);
}

#[test]
fn an_entry_of_the_last_frame_is_kept_where_its_content_stands(
    rt: HostRuntime,
) -> Result<(), Fail> {
    let mut disk = disk_with(&rt, &one_set(&rt))?;
    write_abc(&rt, &mut disk, 1029);
    let found = recover(rt.alloc(), &mut disk).expect(&rt, "a store");
    expect_one(&rt, &found, b"demo/a", 1);
    expect_dropped(&rt, &found, &[]);
    expect_page(&rt, &mut disk, 0, &page_of(&rt, b"HALFONE1"));
    let again = recover(rt.alloc(), &mut disk).expect(&rt, "a store");
    expect_one(&rt, &again, b"demo/a", 1);
    expect_dropped(&rt, &again, &[]);
    Ok(())
}

// The half that is turned to has no log, so that the next opening drops none.
#[test]
fn an_entry_of_the_last_frame_is_dropped_where_its_content_is_missing(
    rt: HostRuntime,
) -> Result<(), Fail> {
    let mut disk = disk_with(&rt, &one_set(&rt))?;
    let found = recover(rt.alloc(), &mut disk).expect(&rt, "a store");
    expect_none(&rt, &found, 1);
    expect_dropped(&rt, &found, &[1]);
    let again = recover(rt.alloc(), &mut disk).expect(&rt, "a store");
    expect_none(&rt, &again, 1);
    expect_dropped(&rt, &again, &[]);
    Ok(())
}

#[test]
fn the_entry_behind_one_that_is_dropped_is_kept(rt: HostRuntime) -> Result<(), Fail> {
    let mut disk = disk_with(&rt, &two_sets(&rt))?;
    write_abc(&rt, &mut disk, 1030);
    let found = recover(rt.alloc(), &mut disk).expect(&rt, "a store");
    expect_one(&rt, &found, b"demo/b", 2);
    expect_dropped(&rt, &found, &[1]);
    Ok(())
}

#[test]
fn the_entry_before_one_that_is_dropped_is_kept(rt: HostRuntime) -> Result<(), Fail> {
    let mut disk = disk_with(&rt, &two_sets(&rt))?;
    write_abc(&rt, &mut disk, 1029);
    let found = recover(rt.alloc(), &mut disk).expect(&rt, "a store");
    expect_one(&rt, &found, b"demo/a", 2);
    expect_dropped(&rt, &found, &[2]);
    Ok(())
}

#[test]
fn dropped_entries_are_told_in_their_order(rt: HostRuntime) -> Result<(), Fail> {
    let mut disk = disk_with(&rt, &two_sets(&rt))?;
    let found = recover(rt.alloc(), &mut disk).expect(&rt, "a store");
    expect_none(&rt, &found, 2);
    expect_dropped(&rt, &found, &[1, 2]);
    Ok(())
}

#[test]
fn none_is_dropped_where_all_contents_stand(rt: HostRuntime) -> Result<(), Fail> {
    let mut disk = disk_with(&rt, &two_sets(&rt))?;
    write_abc(&rt, &mut disk, 1029);
    write_abc(&rt, &mut disk, 1030);
    let found = recover(rt.alloc(), &mut disk).expect(&rt, "a store");
    assert_eq!(rt; found.last, 2);
    assert_eq!(rt; found.relation.len(), 2);
    expect_dropped(&rt, &found, &[]);
    Ok(())
}

// Two frames of one entry each, neither of which verifies. The first one is kept, since another frame stands behind it.
#[test]
fn none_is_dropped_of_a_frame_before_the_last(rt: HostRuntime) -> Result<(), Fail> {
    let mut disk = disk_with(&rt, &one_set(&rt))?;
    let mut next = one_set(&rt);
    next[20] = 2;
    next[29] = 2;
    next[38] = b'b';
    next[50] = 2;
    next[118] = 1;
    assert!(rt; disk.pages() == 2053);
    assert!(rt; disk.write(6, &next) == Ok(()));
    assert!(rt; disk.write(5, &page_of(&rt, b"GATEOPEN")) == Ok(()));
    let found = recover(rt.alloc(), &mut disk).expect(&rt, "a store");
    expect_one(&rt, &found, b"demo/a", 2);
    expect_dropped(&rt, &found, &[2]);
    Ok(())
}
