// Calls of the disk that fail in a lead.

use crate::trial::{add_put, blank, expect_state, formatted, opened};
use blob_base::Bytes64;
use disk_model::Disk;
use group_plan::Queue;
use std::process::Abort;
use std::test::Fail;
use vault::{Cause, LeadFault, Vault};

// The lead of a put fails, and shuts the vault for good.
fn expect_shut<R: Abort + AllocGlobal, D: Disk>(rt: &R, vault: &mut Vault<D>) -> Result<(), Fail> {
    let shut = LeadFault::Shut { cause: Cause::Disk };
    let mut queue = Queue::new(rt.alloc());
    add_put(rt, &mut queue, 0, "demo/a", b"abc")?;
    assert!(rt; queue.len() == 1);
    match vault.lead(rt.alloc(), &mut queue) {
        Ok(_) => assert!(rt; false, "no fault"),
        Err(fault) => assert!(rt; fault == shut),
    }
    assert!(rt; vault.shut() == Some(Cause::Disk));
    assert!(rt; vault.turn() == Err(shut));
    assert_eq!(rt; queue.len(), 1);
    assert_eq!(rt; vault.front(), 0);
    assert_eq!(rt; vault.history().len(), 0);
    // The body of the entry that sets the key takes 119 bytes.
    assert_eq!(rt; vault.keeping().failed.len(), 119);
    Ok(())
}

// The lead of one put writes the body, the next gate, a sync, the content, the gate and a sync. Where a write fails its bytes
// are on the page. So the content is found where the gate was written.
#[test]
fn each_failed_call_shuts(rt: HostRuntime) -> Result<(), Fail> {
    let (reads, writes, syncs) = opened(&rt, blank(&rt)?)?.disk().calls();
    for i in 1..7 {
        let fails = Bytes64::from_vec([reads + writes + syncs + i].to_vec(rt.alloc())?);
        let disk = formatted(&rt, fails)?;
        let mut vault = opened(&rt, disk)?;
        expect_shut(&rt, &mut vault)?;
        let again = opened(&rt, vault.close())?;
        if i < 5 {
            assert_eq!(rt; again.front(), 0);
            assert!(rt; again.relation().is_empty());
        } else {
            assert_eq!(rt; again.front(), 1);
            expect_state(&rt, &again, "demo/a", 3, 1);
        }
    }
    Ok(())
}

// The turn of a store without states writes a header, a gate, a sync, the selector and a sync.
#[test]
fn each_failed_call_of_a_turn_shuts(rt: HostRuntime) -> Result<(), Fail> {
    let (reads, writes, syncs) = opened(&rt, blank(&rt)?)?.disk().calls();
    for i in 1..6 {
        let fails = Bytes64::from_vec([reads + writes + syncs + i].to_vec(rt.alloc())?);
        let disk = formatted(&rt, fails)?;
        let mut vault = opened(&rt, disk)?;
        let shut = LeadFault::Shut { cause: Cause::Disk };
        assert!(rt; vault.turn() == Err(shut));
        assert!(rt; vault.shut() == Some(Cause::Disk));
        let again = opened(&rt, vault.close())?;
        assert_eq!(rt; again.front(), 0);
    }
    Ok(())
}
