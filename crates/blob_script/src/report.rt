// The lines of reports: what is printed of a store that was formatted, shown or checked. They take no memory.

ghost use Rattle.std.specs.Prelude.{◌≡◌, ◌++◌, codes, decimal};
ghost use Rattle.hex.specs.Hex.{encode_lower};
ghost use Rattle.store_model.specs.Answer.{line_end};

use crate::line::{line_with_number, push_number, push_text, push_value};
use arrayvec::ArrayVec;
use blob_base::Key;
use sha_resume::Digest;

/// The line of a format: how many pages the store takes.
pub fn formatted_line(pages: u32) -> ArrayVec<u8, 256>
    ensures { result.items ≡ codes "formatted " ++ decimal pages ++ line_end }
{
    line_with_number(b"formatted ", u64::from(pages))
}

/// The line of a key: the size of its content, its digest, and the number of the entry that wrote it.
pub fn state_line(key: &Key, size: u64, digest: &Digest, born: u64) -> ArrayVec<u8, 256>
    ensures { result.items
        ≡ key.now ++ codes " " ++ decimal size ++ codes " " ++ encode_lower digest.now.bytes ++ codes " " ++ decimal born ++ line_end }
{
    let mut line = ArrayVec::new();
    push_text(&mut line, key.text());
    push_text(&mut line, b" ");
    push_number(&mut line, size);
    push_text(&mut line, b" ");
    push_value(&mut line, &digest.bytes);
    push_text(&mut line, b" ");
    push_number(&mut line, born);
    push_text(&mut line, b"\n");
    line
}

/// The line behind the keys of a show: the number of the last entry.
pub fn last_line(last: u64) -> ArrayVec<u8, 256>
    ensures { result.items ≡ codes "last " ++ decimal last ++ line_end }
{
    line_with_number(b"last ", last)
}

/// The last line of a check: how many states there are, and how many of them are damaged.
pub fn checked_line(states: u64, damaged: u64) -> ArrayVec<u8, 256>
    ensures { result.items ≡ codes "checked " ++ decimal states ++ codes " damaged " ++ decimal damaged ++ line_end }
{
    let mut line = ArrayVec::new();
    push_text(&mut line, b"checked ");
    push_number(&mut line, states);
    push_text(&mut line, b" damaged ");
    push_number(&mut line, damaged);
    push_text(&mut line, b"\n");
    line
}
