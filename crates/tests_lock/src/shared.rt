// A vault behind a lock.

use disk_model::Disk;
use group_plan::{Queue, Replies};
use std::alloc::Global;
use std::sync::{Mutex, Wait};
use txn::Txn;
use vault::{LeadFault, Vault};

/// Leads a transaction of its own behind the lock. Nothing is asked of the vault, on whatever way out of a call the one before left it.
pub fn led<D: Disk>(
    rt: &impl Wait,
    alloc: Global,
    shared: &Mutex<Vault<D>>,
    txn: Txn,
) -> Result<Replies, LeadFault> {
    let mut queue = Queue::new(alloc);
    queue.push(alloc, txn.seal())?;
    let mut vault = shared.lock(rt);
    vault.lead(alloc, &mut queue)
}
