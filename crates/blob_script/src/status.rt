// How a run ended.

ghost use Rattle.std.specs.Prelude.{◌≡◌, ◌++◌, codes};
ghost use Rattle.blob_base.specs.Refusals.{refusal_of};
ghost use Rattle.blob_script.specs.Endings.{ending_of};
ghost use Rattle.store_model.specs.Answer.{line_end};
ghost use Rattle.store_model.specs.Closing.{Damaged, exit_status, closing_text, reason_text, refusal_text};

use crate::line::{
    MAX_LINE, line_of, line_with_number, line_with_two, push_number, push_text, push_value,
};
use arrayvec::ArrayVec;
use blob_base::{Key, StoreRefusal};

/// How a run ended.
#[derive(Debug, Drop, PartialEq, Eq)]
pub enum Status {
    /// The script was read to its end.
    Done,
    /// This line is none of those that a script may have. Lines are numbered from 1.
    Malformed {
        line: u64,
    },
    /// This line is none of those that are built.
    NotBuilt {
        line: u64,
    },
    /// The source failed.
    ReadFault,
    /// The sink failed.
    WriteFault,
    /// The disk failed.
    DiskFault,
    /// The disk isn't opened as a store.
    Refused {
        why: StoreRefusal,
    },
    /// There was no memory.
    OutOfMemory,
    /// The words are no form.
    Usage,
    /// The bytes read for this key's content don't lead to what its state keeps. Its links are numbered: one for each
    /// extent, and the last for the digest. This link is the first that fails: the state keeps `want`, and the bytes give
    /// `got`.
    Damaged {
        key: Key,
        link: u32,
        want: [u8; 32],
        got: [u8; 32],
    },
}

impl Status {
    /// The program's exit status.
    pub fn code(&self) -> u8
        ensures { result ≡ exit_status (ending_of self.now) }
    {
        match self {
            Status::Done => 0,
            Status::Malformed { .. } => 2,
            Status::ReadFault => 3,
            Status::WriteFault => 4,
            Status::DiskFault => 5,
            Status::Refused { .. } => 6,
            Status::OutOfMemory => 7,
            Status::Usage => 8,
            Status::Damaged { .. } => 9,
            Status::NotBuilt { .. } => 10,
        }
    }

    /// The line that closes the output, with its end; empty for `Done`. It takes no memory.
    pub fn closing(&self) -> ArrayVec<u8, 256>
        ensures { result.items ≡ closing_text (ending_of self.now) }
    {
        match self {
            Status::Done => ArrayVec::new(),
            Status::Malformed { line } => line_with_number(b"malformed line ", *line),
            Status::NotBuilt { line } => line_with_number(b"not built line ", *line),
            Status::ReadFault => line_of(b"read fault"),
            Status::WriteFault => line_of(b"write fault"),
            Status::DiskFault => line_of(b"disk fault"),
            Status::Refused { why } => refusal_line(why),
            Status::OutOfMemory => line_of(b"out of memory"),
            Status::Usage => line_of(b"usage"),
            Status::Damaged {
                key,
                link,
                want,
                got,
            } => damaged_line(key, *link, want, got),
        }
    }
}

// The line of a disk that isn't opened as a store.
fn refusal_line(why: &StoreRefusal) -> ArrayVec<u8, MAX_LINE>
    ensures { result.items ≡ codes "store refused: " ++ refusal_text (refusal_of why.now) ++ line_end }
{
    match why {
        StoreRefusal::TooSmall { need, have } => {
            line_with_two(b"store refused: too-small ", *need, *have)
        }
        StoreRefusal::BadHalf { half, at } => {
            line_with_two(
                b"store refused: bad-half ",
                u64::from(*half),
                u64::from(*at),
            )
        }
        StoreRefusal::BadTuple { half, at } => {
            line_with_two(
                b"store refused: bad-tuple ",
                u64::from(*half),
                u64::from(*at),
            )
        }
        StoreRefusal::BadFrame { half, page } => {
            line_with_two(
                b"store refused: bad-frame ",
                u64::from(*half),
                u64::from(*page),
            )
        }
        StoreRefusal::OwnedTwice { page } => {
            line_with_number(b"store refused: owned-twice ", u64::from(*page))
        }
    }
}

// The line of a key whose content isn't what its state keeps.
fn damaged_line(key: &Key, link: u32, want: &[u8; 32], got: &[u8; 32]) -> ArrayVec<u8, MAX_LINE>
    ensures { result.items ≡ reason_text (Damaged key.now link want.now got.now) ++ line_end }
{
    let mut line = ArrayVec::new();
    push_text(&mut line, b"damaged ");
    push_text(&mut line, key.text());
    push_text(&mut line, b" ");
    push_number(&mut line, u64::from(link));
    push_text(&mut line, b" ");
    push_value(&mut line, want);
    push_text(&mut line, b" ");
    push_value(&mut line, got);
    push_text(&mut line, b"\n");
    line
}
