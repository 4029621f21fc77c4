// Changes of keys.

ghost use Rattle.std.specs.Prelude.{◌≡◌, ◌≤◌, length, IfOk};
ghost use Rattle.store_model.specs.Shape.{greatest_size};
ghost use Rattle.store_model.specs.State.{IsDraft, IsDraftOf};

use blob_base::{Bytes, OutOfMemory};
use blob_state::Draft;
use std::alloc::Global;
use std::marker::Model;

/// A content of at most `MAX_SIZE` bytes, and the draft of its state.
#[derive(Drop)]
pub struct Drafted {
    content: Bytes,
    draft: Box<Draft>,
}

impl Model for Drafted {
    ghost use Rattle.std.specs.Prelude.{List, ℕ};
    ghost use Rattle.txn.specs.Drafts.{IsDraftFor};

    ghost Value = { List ℕ };

    ghost view = { λ drafted. drafted.content };

    ghost invariant = { λ drafted. IsDraftFor drafted.content drafted.draft.value };
}

impl Drafted {
    /// The content with its draft, each byte of which is hashed once. It may have at most 381,669,375 bytes.
    pub fn new(alloc: Global, content: Bytes) -> Result<Drafted, OutOfMemory>
        requires { length content ≤ greatest_size }
        ensures { IfOk result (λ drafted. drafted ≡ content) }
    {
        let Ok(draft) = Draft::put(content.as_slice()) else {
            unreachable!()
        };
        let Ok(draft) = Box::new(alloc, draft) else {
            return Err(OutOfMemory);
        };
        Ok(Drafted { content, draft })
    }

    /// The content.
    pub fn content(&self) -> &[u8]
        ensures value { result.now ≡ self.now }
        ensures most { length result.now ≤ greatest_size }
    {
        self.draft.rules();
        self.content.as_slice()
    }

    /// The draft.
    pub fn draft(&self) -> &Draft
        ensures draft { IsDraftOf result.now self.now }
        ensures rules { IsDraft result.now }
    {
        self.draft.rules();
        &self.draft
    }
}

/// What an append makes of the state that its transaction read: the draft of the longer content, the number of the first
/// full page that isn't kept, and the content's bytes from that page on. The first `moved` of these bytes were there
/// before.
#[derive(Drop)]
pub struct Extension {
    pub draft: Box<Draft>,
    pub from_page: u32,
    pub moved: u32,
    pub rest: Bytes,
    ghost moved_of_rest: { moved ≤ length rest },
}

/// A change of a key.
#[derive(Drop)]
pub enum Change {
    /// The key has this content.
    Put { drafted: Drafted },
    /// The key's content is longer.
    Append { extension: Extension },
    /// The key goes.
    Del,
}
