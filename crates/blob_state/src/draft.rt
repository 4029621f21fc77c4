// Drafts: states that have no place yet.

ghost use Rattle.std.specs.Prelude.{◌≡◌, ℕ, ◌*◌, ◌/◌, ◌<◌, ◌≤◌, List, [], length, take, IfOk, IfErr, OnOk};
ghost use Rattle.store_model.specs.Disk.{page_bytes};
ghost use Rattle.store_model.specs.Hash.{Leads, initial_state};
ghost use Rattle.store_model.specs.Shape.{greatest_size};
ghost use Rattle.store_model.specs.State.{AreAligned, AreMarks, HasExtents, HasTail, IsDraft, IsDraftOf, IsNumber, IsState, MarksTell, Places, Tells, heads_of, marks_of, prefix_of};
ghost use Rattle.blob_state.specs.Values.{draft_by, extents_of, words_of};

use crate::{BlobState, DraftParts, Extent};
use arrayvec::ArrayVec;
use blob_base::PAGE_BYTES;
use sha_resume::{Chain, Digest, Mark};
use std::marker::Model;
use tier_table::{MAX_EXTENTS, TooLong, shape, used};

const PREFIX_BYTES: usize = 32;

/// What is kept of a content before its pages have a place: its size, its digest, its first bytes and its marks. It
/// takes about 4.2 KB.
#[derive(Drop)]
pub struct Draft {
    size: u64,
    digest: Digest,
    prefix: [u8; PREFIX_BYTES],
    marks: ArrayVec<Mark, MAX_EXTENTS>,
}

impl Model for Draft {
    ghost use Rattle.store_model.specs.State.{Draft as Drafted, IsDraft};

    ghost Value = { Drafted };

    ghost use Rattle.blob_state.specs.Fields.{draft_of};

    ghost view = { draft_of };

    ghost invariant = { λ d. IsDraft (draft_of d) };
}

impl Draft {
    /// The draft of a content, each byte of which is hashed once. It fails where the content is longer than `MAX_SIZE`.
    pub fn put(content: &[u8]) -> Result<Draft, TooLong>
        ensures fits { OnOk result (length content.now ≤ greatest_size) }
        ensures too_long { IfErr result (λ _. greatest_size < length content.now) }
        ensures size { IfErr result (λ long. long.size ≡ length content.now) }
        ensures draft { IfOk result (λ draft. IsDraftOf draft content.now) }
        ensures rules { IfOk result IsDraft }
    {
        let shape = shape(content.len() as u64)?;
        let mut marks = ArrayVec::new();
        let chain = hash_extents(content, shape.extents, &mut marks);
        let tail = content.len() / PAGE_BYTES * PAGE_BYTES;
        Ok(Draft {
            size: content.len() as u64,
            digest: chain.finish(&content[tail..]),
            prefix: prefix(content),
            marks,
        })
    }

    /// The draft that these are the parts of.
    pub fn from_parts(parts: DraftParts) -> Draft
        requires { IsDraft (draft_by parts) }
        ensures { result ≡ draft_by parts }
    {
        let prefix = parts.prefix;
        Draft {
            size: parts.size,
            digest: parts.digest,
            prefix,
            marks: parts.marks,
        }
    }

    /// Its parts.
    pub fn into_parts(self) -> DraftParts
        ensures parts { draft_by result ≡ self }
        ensures rules { IsDraft self }
    {
        let Draft {
            size,
            digest,
            prefix,
            marks,
        } = self;
        DraftParts {
            size,
            digest,
            prefix,
            marks,
        }
    }

    /// The rules that each draft keeps.
    pub fn rules(&self)
        ensures { IsDraft self.now }
    {
        // They are known where a field is read.
        let _ = &self.size;
    }

    /// How many bytes the content has.
    pub fn size(&self) -> u64
        ensures { result ≡ self.now.size }
    {
        self.size
    }

    /// The digest of the content.
    pub fn digest(&self) -> &Digest
        ensures { result.now.bytes ≡ self.now.digest }
    {
        &self.digest
    }

    /// The marks at the ends of its extents, in order.
    pub fn marks(&self) -> &[Mark]
        ensures words { words_of result.now ≡ self.now.marks }
        ensures count { length result.now ≡ length self.now.marks }
    {
        self.marks.as_slice()
    }

    /// The state with its extents at these heads and its tail on this page, written by the entry of this number.
    pub fn place(
        &self,
        heads: &ArrayVec<u32, MAX_EXTENTS>,
        tail: Option<u32>,
        born: u64,
    ) -> BlobState
        requires count { length heads.now.items ≡ length self.now.marks }
        requires aligned { AreAligned heads.now.items }
        requires tail { HasTail self.now.size tail }
        requires born { IsNumber born }
        ensures places { Places self.now heads.now.items tail born result }
        ensures rules { IsState result }

        // Wherever the draft of a content is placed, the state is one of the content.
        ensures tells { (content : List ℕ) → IsDraftOf self.now content → Tells result content }
    {
        BlobState {
            size: self.size,
            born,
            digest: self.digest,
            prefix: self.prefix,
            extents: join(heads, &self.marks),
            tail,
        }
    }
}

// Hashes the full pages of a content extent by extent, and adds the mark at the end of each.
fn hash_extents(content: &[u8], extents: u32, marks: &mut ArrayVec<Mark, MAX_EXTENTS>) -> Chain
    requires fits { length content.now ≤ greatest_size }
    requires extents { HasExtents (length content.now) extents }
    requires most { extents ≤ MAX_EXTENTS }
    requires none { marks.old.items ≡ [] }
    ensures told { MarksTell (words_of marks.new.items) content.now }
    ensures sound { AreMarks (words_of marks.new.items) }
    ensures number { length marks.new.items ≡ extents }
    ensures led { Leads initial_state (take (page_bytes * (length content.now / page_bytes)) content.now) result.mark }
    ensures blocks { page_bytes * (length content.now / page_bytes) ≡ 64 * result.count }
{
    let size = content.len() as u64;
    let mut chain = Chain::new();
    let mut start = 0;
    'hashed: for i in 0..extents {
        let end = start + used(size, i) as usize * PAGE_BYTES;
        chain.blocks(&content[start..end]);
        marks.push(chain.mark());
        start = end;
    }
    chain
}

// The first 32 bytes of a content, with zeros behind a shorter one.
fn prefix(content: &[u8]) -> [u8; PREFIX_BYTES]
    ensures { result ≡ prefix_of content.now }
{
    let mut prefix = [0; PREFIX_BYTES];
    let length = content.len().min(PREFIX_BYTES);
    prefix[..length].copy_from_slice(&content[..length]);
    prefix
}

// Each mark with its head.
fn join(
    heads: &ArrayVec<u32, MAX_EXTENTS>,
    marks: &ArrayVec<Mark, MAX_EXTENTS>,
) -> ArrayVec<Extent, MAX_EXTENTS>
    requires { length heads.now.items ≡ length marks.now.items }
    ensures heads { heads_of (extents_of result.items) ≡ heads.now.items }
    ensures marks { marks_of (extents_of result.items) ≡ words_of marks.now.items }
{
    let heads = heads.as_slice();
    let marks = marks.as_slice();
    let mut extents = ArrayVec::new();
    for i in 0..heads.len() {
        extents.push(Extent {
            head: heads[i],
            mark: marks[i],
        });
    }
    extents
}
