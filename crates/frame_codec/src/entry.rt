// Entries, and what they write.

use crate::Writes;
use blob_base::{Key, Listed};
use blob_state::BlobState;

/// What an entry writes under a key.
#[derive(Drop)]
pub enum Write {
    /// The key has this state.
    Set { key: Key, state: Box<BlobState> },
    /// The key has none.
    Del { key: Key },
}

impl Write {
    ghost use Rattle.std.specs.Prelude.{◌≡◌};
    ghost use Rattle.frame_codec.specs.Writes.{key_of_write};

    /// Its key.
    pub fn key(&self) -> &Key
        ensures { result.now ≡ key_of_write self.now }
    {
        match self {
            Write::Set { key, .. } => key,
            Write::Del { key } => key,
        }
    }
}

/// A committed transaction, as the log has it: its number, the session, the number of the transaction among those that
/// the session began, and what it writes.
#[derive(Drop)]
pub struct Entry {
    pub number: u64,
    pub session: u8,
    pub nth: u64,
    pub writes: Writes,
}

/// Entries, in the order of their numbers.
pub type Entries = Listed<Entry>;
