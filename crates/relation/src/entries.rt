// Objects in the order of their keys.

ghost use Rattle.std.specs.Prelude.{◌≤◌, length, MatchResult};
ghost use Rattle.relation.specs.Entries.{AllBefore, AllBehind, IsAt, entries_of, are_sorted};

use blob_base::Key;
use blob_state::BlobState;
use std::cmp::Ordering;

/// An object's key, and its state, which stays where it is when entries move.
#[derive(Drop)]
pub(crate) struct Entry {
    pub(crate) key: Key,
    pub(crate) state: Box<BlobState>,
}

/// Where a key stands among entries in the order of their keys, or where it would.
pub(crate) fn search(entries: &[Entry], key: &Key) -> Result<usize, usize>
    requires { are_sorted (entries_of entries.now) }
    ensures found { MatchResult result (IsAt (entries_of entries.now) key.now) (λ i.
        (i ≤ length entries.now) × AllBefore (entries_of entries.now) i key.now
        × AllBehind (entries_of entries.now) i key.now) }
{
    let mut low = 0;
    let mut high = entries.len();
    'searched: while low < high {
        let middle = low + (high - low) / 2;
        match entries[middle].key.cmp(key) {
            Ordering::Less => low = middle + 1,
            Ordering::Equal => return Ok(middle),
            Ordering::Greater => high = middle,
        }
    }
    Err(low)
}
