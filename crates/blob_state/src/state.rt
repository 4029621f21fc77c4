// States of objects.

ghost use Rattle.std.specs.Prelude.{◌≡◌, ◌≤◌, ◌++◌, length, OnOk};
ghost use Rattle.store_model.specs.Holds.{place_of};
ghost use Rattle.store_model.specs.Space.{blocks_of, extent_blocks, tail_blocks};
ghost use Rattle.store_model.specs.State.{IsState, heads_of};
ghost use Rattle.store_model.specs.Tuple.{greatest_tuple, spelling};
ghost use Rattle.blob_state.specs.Values.{extents_of, state_by};

use crate::stored::stored_bytes;
use crate::{Extent, StateParts};
use arrayvec::ArrayVec;
use blob_base::{Key, OutOfMemory, Owned};
use sha_resume::Digest;
use std::alloc::Global;
use std::marker::Model;
use tier_table::{MAX_EXTENTS, tier};

/// The greatest number of an entry.
pub const MAX_NUMBER: u64 = 1 << 62;

/// What is kept of an object's content: its size, its digest and its first bytes, for each extent where it stands and
/// the mark at its end, the page of its tail, and the number of the entry that wrote it.
///
/// A value takes about 4.7 KB, however few extents it has, and a move of it copies them all: pass it by reference, and
/// keep it where it is.
#[derive(Drop)]
pub struct BlobState {
    pub(crate) size: u64,
    pub(crate) born: u64,
    pub(crate) digest: Digest,
    pub(crate) prefix: [u8; 32],
    pub(crate) extents: ArrayVec<Extent, MAX_EXTENTS>,
    pub(crate) tail: Option<u32>,
}

impl Model for BlobState {
    ghost use Rattle.store_model.specs.State.{State, IsState};

    ghost Value = { State };

    ghost use Rattle.blob_state.specs.Fields.{state_of};

    ghost view = { state_of };

    ghost invariant = { λ s. IsState (state_of s) };
}

impl BlobState {
    /// The state that these are the parts of.
    pub fn from_parts(parts: StateParts) -> BlobState
        requires { IsState (state_by parts) }
        ensures { result ≡ state_by parts }
    {
        let prefix = parts.prefix;
        BlobState {
            size: parts.size,
            born: parts.born,
            digest: parts.digest,
            prefix,
            extents: parts.extents,
            tail: parts.tail,
        }
    }

    /// Its parts.
    pub fn into_parts(self) -> StateParts
        ensures parts { state_by result ≡ self }
        ensures rules { IsState self }
    {
        let BlobState {
            size,
            born,
            digest,
            prefix,
            extents,
            tail,
        } = self;
        StateParts {
            size,
            born,
            digest,
            prefix,
            extents,
            tail,
        }
    }

    /// The rules that each state keeps.
    pub fn rules(&self)
        ensures { IsState self.now }
    {
        // They are known where a field is read.
        let _ = &self.size;
    }

    /// How many bytes the content has.
    pub fn size(&self) -> u64
        ensures { result ≡ self.now.size }
    {
        self.size
    }

    /// The number of the entry that wrote it.
    pub fn born(&self) -> u64
        ensures { result ≡ self.now.born }
    {
        self.born
    }

    /// The digest of the content.
    pub fn digest(&self) -> &Digest
        ensures { result.now.bytes ≡ self.now.digest }
    {
        &self.digest
    }

    /// The first 32 bytes of the content, with zeros behind a shorter one.
    pub fn prefix(&self) -> &[u8; 32]
        ensures { result.now ≡ self.now.prefix }
    {
        &self.prefix
    }

    /// Its extents in order.
    pub fn extents(&self) -> &[Extent]
        ensures value { extents_of result.now ≡ self.now.extents }
        ensures most { length result.now ≤ MAX_EXTENTS }
    {
        self.extents.as_slice()
    }

    /// The page of its tail, where it has one.
    pub fn tail(&self) -> Option<u32>
        ensures { result ≡ self.now.tail }
    {
        self.tail
    }

    /// The same state; it takes no memory.
    pub fn copy(&self) -> BlobState
        ensures { result ≡ self.now }
    {
        BlobState {
            size: self.size,
            born: self.born,
            digest: self.digest,
            prefix: self.prefix,
            extents: copy_extents(&self.extents),
            tail: self.tail,
        }
    }

    /// How many bytes it takes where it is stored with this key.
    pub fn encoded(&self, key: &Key) -> usize
        ensures value { result ≡ length (spelling key.now self.now) }
        ensures most { result ≤ greatest_tuple }
    {
        stored_bytes(key, self.extents.len(), self.tail)
    }

    /// Adds head and tier of each extent to what is owned, and its tail's page as tier 0. After an `Err` some of them may
    /// have been added.
    pub fn add_owned(&self, alloc: Global, owned: &mut Owned) -> Result<(), OutOfMemory>
        ensures { OnOk result (owned.new ≡ owned.old ++ blocks_of (place_of self.now)) }
    {
        add_extents(alloc, self.extents.as_slice(), owned)?;
        add_tail(alloc, self.tail, owned)
    }
}

// Adds the heads of extents, each with its tier.
fn add_extents(alloc: Global, extents: &[Extent], owned: &mut Owned) -> Result<(), OutOfMemory>
    requires { length extents.now ≤ MAX_EXTENTS }
    ensures { OnOk result (owned.new ≡ owned.old ++ extent_blocks (heads_of (extents_of extents.now))) }
{
    'added: for i in 0..extents.len() {
        owned.push(alloc, (extents[i].head, tier(i as u32)))?;
    }
    Ok(())
}

// Adds a tail's page.
fn add_tail(alloc: Global, tail: Option<u32>, owned: &mut Owned) -> Result<(), OutOfMemory>
    ensures { OnOk result (owned.new ≡ owned.old ++ tail_blocks tail) }
{
    match tail {
        Some(page) => owned.push(alloc, (page, 0)),
        None => Ok(()),
    }
}

// The same extents.
fn copy_extents(from: &ArrayVec<Extent, MAX_EXTENTS>) -> ArrayVec<Extent, MAX_EXTENTS>
    ensures { result.items ≡ from.now.items }
{
    let mut copy = ArrayVec::new();
    for extent in from.as_slice() {
        copy.push(*extent);
    }
    copy
}
