// Leads: what they write, and what a later opening finds.

use crate::trial::{
    add_put, blank, expect_page, expect_state, key_of, lead, opened, page_of, page_of_hex, put,
    put_often,
};
use group_plan::Queue;
use std::test::Fail;

// The body of one entry, number 1, that sets `demo/a` to the content `abc` on data page 0.
const ONE_SET: &str = "424c4f4246524d31\
                       00000077\
                       01\
                       0000000000000001\
                       00\
                       0000000000000001\
                       01\
                       01\
                       0664656d6f2f61\
                       00000003\
                       0000000000000001\
                       ba7816bf8f01cfea414140de5dae2223b00361a396177a9cb410ff61f20015ad\
                       6162630000000000000000000000000000000000000000000000000000000000\
                       00000000";

// Opening turned to half 1. The body goes behind its first gate, the next gate behind the body, then the content, and then the
// first gate is opened.
#[test]
fn a_content_is_found_again(rt: HostRuntime) -> Result<(), Fail> {
    let mut vault = opened(&rt, blank(&rt)?)?;
    let (_, writes, syncs) = vault.disk().calls();
    put(&rt, &mut vault, "demo/a", b"abc", 1)?;
    let (_, more_writes, more_syncs) = vault.disk().calls();
    assert!(rt; writes <= more_writes && more_writes - writes == 4);
    assert!(rt; syncs <= more_syncs && more_syncs - syncs == 2);
    assert_eq!(rt; vault.front(), 1);
    expect_state(&rt, &vault, "demo/a", 3, 1);
    let mut disk = vault.close();
    expect_page(&rt, &mut disk, 515, &page_of(&rt, b"GATEOPEN"));
    expect_page(&rt, &mut disk, 516, &page_of_hex(&rt, ONE_SET));
    expect_page(&rt, &mut disk, 517, &page_of(&rt, b""));
    expect_page(&rt, &mut disk, 1029, &page_of(&rt, b"abc"));
    let again = opened(&rt, disk)?;
    assert_eq!(rt; again.front(), 1);
    expect_state(&rt, &again, "demo/a", 3, 1);
    Ok(())
}

// Each frame takes a body's page and a gate, so the log of 511 pages has no room behind 255 of them. A turn syncs twice.
#[test]
fn a_full_log_is_turned(rt: HostRuntime) -> Result<(), Fail> {
    let mut vault = opened(&rt, blank(&rt)?)?;
    put_often(&rt, &mut vault, "demo/a", b"abc", 255)?;
    let (_, writes, syncs) = vault.disk().calls();
    put(&rt, &mut vault, "demo/a", b"abcd", 256)?;
    let (_, more_writes, more_syncs) = vault.disk().calls();
    assert!(rt; writes <= more_writes && more_writes - writes == 8);
    assert!(rt; syncs <= more_syncs && more_syncs - syncs == 4);
    let again = opened(&rt, vault.close())?;
    assert_eq!(rt; again.front(), 256);
    expect_state(&rt, &again, "demo/a", 4, 256);
    Ok(())
}

// Two that change one key aren't of one group, and an empty queue writes nothing.
#[test]
fn members_leave_the_queue(rt: HostRuntime) -> Result<(), Fail> {
    let mut vault = opened(&rt, blank(&rt)?)?;
    let mut queue = Queue::new(rt.alloc());
    add_put(&rt, &mut queue, 0, "demo/a", b"abc")?;
    add_put(&rt, &mut queue, 1, "demo/b", b"abcd")?;
    add_put(&rt, &mut queue, 2, "demo/a", b"")?;
    lead(&rt, &mut vault, &mut queue, &[1, 2]);
    assert_eq!(rt; queue.len(), 1);
    assert_eq!(rt; queue.get(0).session, 2);
    let mut rest = Queue::new(rt.alloc());
    add_put(&rt, &mut rest, 2, "demo/a", b"")?;
    lead(&rt, &mut vault, &mut rest, &[3]);
    assert_eq!(rt; rest.len(), 0);
    let before = vault.disk().calls();
    let mut none = Queue::new(rt.alloc());
    lead(&rt, &mut vault, &mut none, &[]);
    assert!(rt; vault.disk().calls() == before);
    let again = opened(&rt, vault.close())?;
    expect_state(&rt, &again, "demo/a", 0, 3);
    expect_state(&rt, &again, "demo/b", 4, 2);
    assert!(rt; again.look(&key_of(&rt, "demo/c")).is_none());
    Ok(())
}
