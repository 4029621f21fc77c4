// The values that a state has, and the parts of states and drafts.

ghost use Rattle.std.specs.Prelude.{◌≡◌};
ghost use Rattle.store_model.specs.Hash.{initial_state};

use arrayvec::ArrayVec;
use sha_resume::{Digest, Mark, START};
use tier_table::MAX_EXTENTS;

/// An extent of a content: its first page, counted in the data area, and the SHA-256 state after all bytes of the
/// content up to the end of the pages that it uses of this extent.
#[derive(Clone, Copy, Debug, PartialEq, Eq)]
pub struct Extent {
    pub head: u32,
    pub mark: Mark,
}

impl Default for Extent {
    ghost is_default = { λ extent. extent.mark.words ≡ initial_state };

    fn default() -> Extent {
        Extent {
            head: 0,
            mark: START,
        }
    }
}

/// What is told of a content in its place: how many bytes it has, and its digest.
#[derive(Clone, Copy, Debug, PartialEq, Eq)]
pub struct Print {
    pub size: u64,
    pub digest: Digest,
}

/// What a state is made of.
#[derive(Drop)]
pub struct StateParts {
    pub size: u64,
    pub born: u64,
    pub digest: Digest,
    pub prefix: [u8; 32],
    pub extents: ArrayVec<Extent, MAX_EXTENTS>,
    pub tail: Option<u32>,
}

/// What a draft is made of.
#[derive(Drop)]
pub struct DraftParts {
    pub size: u64,
    pub digest: Digest,
    pub prefix: [u8; 32],
    pub marks: ArrayVec<Mark, MAX_EXTENTS>,
}
