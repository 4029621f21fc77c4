// Refusals.

ghost use Rattle.std.specs.Prelude.{◌≡◌};
ghost use Rattle.txn.specs.declared.refusal.TxnRefusal.TheVariants as refusal;

use blob_base::OutOfMemory;

/// Why a call of a transaction is refused.
#[derive(Clone, Copy, Debug, PartialEq, Eq)]
pub enum TxnRefusal {
    /// The key is untouched, and would be the seventeenth; `keys` is 17.
    TooMany { keys: u32 },
    /// The key was read before with another number than it has now, which is `now`.
    Stale { now: Option<u64> },
    /// Nothing is there.
    Absent,
    /// The content would have so many bytes, more than `MAX_SIZE`.
    TooLong { size: u64 },
    /// There was no memory.
    OutOfMemory,
}

impl From<OutOfMemory> for TxnRefusal {
    ghost from_gives = { λ _ e. e ≡ refusal.OutOfMemory };

    fn from(_: OutOfMemory) -> Self {
        TxnRefusal::OutOfMemory
    }
}
