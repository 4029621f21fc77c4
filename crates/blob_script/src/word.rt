// The words of a line.

ghost use Rattle.std.specs.Prelude.{◌≡◌, ◌==◌, ◌↔◌, map, bytes_eq, IfOk, IsTrue};
ghost use Rattle.std.specs.List.{slice_split};

use blob_base::OutOfMemory;
use std::alloc::Global;

// Whether a word is this text.
pub(crate) fn is(word: &[u8], text: &[u8]) -> bool
    ensures value { result ≡ bytes_eq word.now text.now }
    ensures same { IsTrue result ↔ (word.now ≡ text.now) }
{
    word == text
}

// The parts between the blanks.
pub(crate) fn words_of(alloc: Global, line: &[u8]) -> Result<Vec<&[u8]>, OutOfMemory>
    ensures { IfOk result (λ words. map (λ word. word.now) words.items ≡ slice_split (λ byte. byte == 32) line.now) }
{
    Ok(line.split(|byte| *byte == b' ').collect(alloc)?)
}
