// Bytes of contents, read and verified.

use crate::trial::{blank, expect_page, key_of, opened, page_of, put, verified};
use disk_model::Disk;
use extent_io::Verdict;
use std::test::Fail;
use vault::GatherFault;

#[test]
fn bytes_are_gathered(rt: HostRuntime) -> Result<(), Fail> {
    let mut vault = opened(&rt, blank(&rt)?)?;
    put(&rt, &mut vault, "demo/a", b"abc", 1)?;
    let key = key_of(&rt, "demo/a");
    let mut bytes = [0; 4];
    assert!(rt; vault.gather(&key, 1, 1, &mut bytes) == Ok(2));
    assert!(rt; bytes == *b"bc\0\0");
    let mut two = [0; 2];
    assert!(rt; vault.gather(&key, 1, 0, &mut two) == Ok(2));
    assert!(rt; two == *b"ab");
    assert!(rt; vault.gather(&key, 1, 3, &mut two) == Ok(0));
    let stale = GatherFault::Stale { now: Some(1) };
    assert!(rt; vault.gather(&key, 2, 0, &mut two) == Err(stale));
    let none = GatherFault::Stale { now: None };
    assert!(rt; vault.gather(&key_of(&rt, "demo/b"), 1, 0, &mut two) == Err(none));
    Ok(())
}

// The hash of `abd` is not that of `abc`, which the state keeps.
const KEPT: &str = "ba7816bf8f01cfea414140de5dae2223b00361a396177a9cb410ff61f20015ad";

const FOUND: &str = "a52d159f262b2c6ddb724a61840befc36eb30c88877a4030b65cbe86298449c9";

#[test]
fn a_content_is_verified(rt: HostRuntime) -> Result<(), Fail> {
    let mut vault = opened(&rt, blank(&rt)?)?;
    put(&rt, &mut vault, "demo/a", b"abc", 1)?;
    let key = key_of(&rt, "demo/a");
    assert!(rt; verified(&rt, &mut vault, &key) == Ok(Verdict::Whole));
    let again = opened(&rt, vault.close())?;
    let mut disk = again.close();
    expect_page(&rt, &mut disk, 1029, &page_of(&rt, b"abc"));
    assert!(rt; disk.pages() == 2053);
    assert!(rt; disk.write(1029, &page_of(&rt, b"abd")) == Ok(()));
    let mut damaged = opened(&rt, disk)?;
    let mut want = [0; 32];
    assert!(rt; hex::decode_to_slice(KEPT, &mut want).is_ok());
    let mut got = [0; 32];
    assert!(rt; hex::decode_to_slice(FOUND, &mut got).is_ok());
    assert!(rt; verified(&rt, &mut damaged, &key) == Ok(Verdict::Damaged { link: 0, want, got }));
    Ok(())
}
