// What is kept of a committed transaction.

ghost use Rattle.std.specs.Prelude.{◌≡◌, IfOk, map};
ghost use Rattle.vault.specs.Keeps.{done_of, print_of as model_print};

use blob_base::{Bytes, Key, Listed, OutOfMemory};
use blob_state::Print;
use frame_codec::{Entry, Write, Writes, append_entry};
use std::alloc::Global;
use txn::{Reads, Request};

/// What is told of the contents that writes set, by their keys, and none where a key went.
pub type Prints = Listed<(Key, Option<Print>)>;

/// A committed transaction: the number of its entry, its session, its number among the transactions that the session began,
/// what it read, what it wrote, and its entry as its frame spells it.
#[derive(Drop)]
pub struct Done {
    pub number: u64,
    pub session: u8,
    pub nth: u64,
    pub reads: Reads,
    pub prints: Prints,
    pub form: Bytes,
}

/// Committed transactions, in the order of their entries.
pub type History = Listed<Done>;

// A copy of what was read.
fn reads_of(alloc: Global, reads: &Reads) -> Result<Reads, OutOfMemory>
    ensures { IfOk result (λ copy. copy ≡ reads.now) }
{
    let mut copy = Reads::new(alloc);
    'copied: for i in 0..reads.len() {
        let (key, number) = reads.nth(i);
        copy.insert(key.copy(), *number)?;
    }
    Ok(copy)
}

// What is told of a write.
fn print_of(one: &Write) -> (Key, Option<Print>)
    ensures { result ≡ model_print one.now }
{
    match one {
        Write::Set { key, state } => {
            let size = state.size();
            let digest = *state.digest();
            (key.copy(), Some(Print { size, digest }))
        }
        Write::Del { key } => (key.copy(), None),
    }
}

// What is told of writes.
fn prints_of(alloc: Global, writes: &Writes) -> Result<Prints, OutOfMemory>
    ensures { IfOk result (λ prints. prints ≡ map model_print writes.now) }
{
    let mut prints = Prints::new(alloc);
    'told: for i in 0..writes.len() {
        prints.push(alloc, print_of(writes.get(i)))?;
    }
    Ok(prints)
}

/// What is kept of a committed request and its entry.
pub(crate) fn make_done(
    alloc: Global,
    request: &Request,
    entry: &Entry,
) -> Result<Done, OutOfMemory>
    ensures { IfOk result (λ done. done ≡ done_of (request.now, entry.now)) }
{
    let reads = reads_of(alloc, &request.reads)?;
    let prints = prints_of(alloc, &entry.writes)?;
    let mut form = Bytes::new(alloc);
    append_entry(alloc, entry, &mut form)?;
    Ok(Done {
        number: entry.number,
        session: entry.session,
        nth: entry.nth,
        reads,
        prints,
        form,
    })
}
