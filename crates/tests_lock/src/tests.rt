// Leads behind a lock, over a disk in memory.

use crate::shared::led;
use blob_base::{Bytes, Bytes64, Key};
use disk_model::{Layout, MemDisk};
use recover::format;
use std::sync::Mutex;
use std::test::Fail;
use txn::Txn;
use vault::{Cause, LeadFault, Vault};

// The layout takes 2053 pages.
const SMALLEST: Layout = Layout { units: 1, room: 1 };

// The first lead makes six calls behind the opening's; the disk fails at the next one.
#[test]
fn a_vault_that_a_lead_has_shut_answers_behind_its_lock(rt: HostRuntime) -> Result<(), Fail> {
    let alloc = rt.alloc();
    let key = Key::read(b"demo/a").expect(&rt, "a key");
    let mut disk = MemDisk::new(alloc, 2053, Bytes64::new(alloc))?;
    assert!(rt; format(&mut disk, SMALLEST) == Ok(()));
    let Ok(vault) = Vault::open(alloc, disk) else {
        return Err(Fail::new("no store"));
    };
    let (reads, writes, syncs) = vault.disk().calls();
    let fails = Bytes64::from_vec([reads + writes + syncs + 7].to_vec(alloc)?);
    let mut disk = MemDisk::new(alloc, 2053, fails)?;
    assert!(rt; format(&mut disk, SMALLEST) == Ok(()));
    let Ok(vault) = Vault::open(alloc, disk) else {
        return Err(Fail::new("no store"));
    };
    let shared = Mutex::new(vault);
    // A lead of one put makes six calls.
    for i in 0..3 {
        let mut txn = Txn::begin(alloc, 0, i + 1, 0);
        let content = Bytes::of(alloc, b"abc")?;
        assert!(rt; txn.put(alloc, &key, content).is_ok());
        let done = led(&rt, alloc, &shared, txn);
        if i == 0 {
            assert!(rt; done.is_ok());
        } else {
            match done {
                Ok(_) => assert!(rt; false, "no fault"),
                Err(fault) => assert!(rt; fault == LeadFault::Shut { cause: Cause::Disk }),
            }
        }
    }
    let vault = shared.into_inner();
    assert!(rt; vault.shut() == Some(Cause::Disk));
    assert_eq!(rt; vault.front(), 1);
    Ok(())
}
