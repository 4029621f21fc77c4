// The writes of an entry.

ghost use Rattle.std.specs.Prelude.{◌≡◌, ◌==◌, ◌<◌, ◌≤◌, ◌++◌, [], ◌∷◌, length, slice_get, Some, OnOk, OnErr};
ghost use Rattle.frame_codec.specs.Writes.{do_rise, most_writes};

use crate::Write;
use blob_base::OutOfMemory;
use std::alloc::Global;
use std::marker::Model;

/// The greatest number of writes of an entry.
pub const MAX_WRITES: usize = 16;

/// Writes of different keys, in the order of the keys; at most 16.
#[derive(Drop)]
pub struct Writes {
    items: Vec<Write>,
}

impl Model for Writes {
    ghost use Rattle.std.specs.Prelude.{List};
    ghost use Rattle.frame_codec.specs.Writes.{AreWrites};
    ghost use Rattle.frame_codec.specs.declared.entry.Write.{Write as Written};

    ghost Value = { List Written };

    ghost view = { λ writes. writes.items.items };

    ghost invariant = { λ writes. AreWrites writes.items.items };
}

impl Writes {
    /// No writes, which take no memory.
    pub fn new(alloc: Global) -> Writes
        ensures { result ≡ [] }
    {
        Writes {
            items: Vec::new(alloc),
        }
    }

    /// The writes, in the order of their keys; it takes no memory.
    pub fn into_vec(self) -> Vec<Write>
        ensures items { result.items ≡ self }
        ensures most { length self ≤ MAX_WRITES }
    {
        self.items
    }

    /// How many there are.
    pub fn len(&self) -> usize
        ensures len { result ≡ length self.now }
        ensures most { result ≤ MAX_WRITES }
    {
        self.items.len()
    }

    /// Whether there are none.
    pub fn is_empty(&self) -> bool
        ensures { result ≡ (length self.now == 0) }
    {
        self.items.len() == 0
    }

    /// The write at this index, in the order of the keys.
    pub fn get(&self, i: usize) -> &Write
        requires { i < length self.now }
        ensures { slice_get self.now i ≡ Some result.now }
    {
        &self.items[i]
    }

    /// Adds a write, whose key is greater than those of the others.
    pub fn push(&mut self, alloc: Global, one: Write) -> Result<(), OutOfMemory>
        requires few { length self.old < most_writes }
        requires rise { do_rise (self.old ++ one ∷ []) }
        ensures ok { OnOk result (self.new ≡ self.old ++ one ∷ []) }
        ensures err { OnErr result (self.new ≡ self.old) }
    {
        // The list keeps the allocator that it was made with.
        let _ = alloc;
        self.items.push(one)?;
        Ok(())
    }
}
