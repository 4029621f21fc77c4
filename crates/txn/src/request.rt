// Requests: transactions that ask to be committed.

ghost use Rattle.std.specs.Prelude.{◌<◌, ◌≤◌};
ghost use Rattle.std.specs.FinMap as map;
ghost use Rattle.txn.specs.Appends.{AppendsRead};

use crate::Change;
use blob_base::KeyList;

/// The numbers that were read, by keys; none where nothing was there.
pub type Reads = KeyList<Option<u64>>;

/// Changes, by keys.
pub type Changes = KeyList<Change>;

/// A transaction that asks to be committed: its session, below 16; its number, from 1 on, among the transactions that
/// the session began; the greatest number of an entry that it was told of; and what it read and changes, at most 16
/// keys each. A key that it appends to was read with a number.
#[derive(Drop)]
pub struct Request {
    pub session: u8,
    pub nth: u64,
    pub seen: u64,
    pub reads: Reads,
    pub writes: Changes,
    ghost session_known: { session < 16 },
    ghost numbered: { 1 ≤ nth },
    ghost few_reads: { map.len reads ≤ 16 },
    ghost few_writes: { map.len writes ≤ 16 },
    ghost appends_read: { AppendsRead reads writes },
}
