// Verifying a content that is in memory, link by link.

ghost use Rattle.std.specs.Prelude.{◌≡◌, ℕ, ◌+◌, ◌≤◌, List, length};
ghost use Rattle.store_model.specs.Verify.{FailsFirst, LeadsTo, given};
ghost use Rattle.extent_io.specs.Pages.{part_begin};
ghost use Rattle.extent_io.specs.declared.verdict.Verdict.TheVariants.{Damaged, Whole};

use crate::links::{kept_value, last_link, value_over};
use crate::verdict::Verdict;
use blob_base::PAGE_BYTES;
use blob_state::BlobState;
use tier_table::used;

/// Verifies a content in memory against a state of its size, up to the first link that fails: the bytes of each extent lead
/// from the mark before them to its own, and the last of them with the tail to the digest. Each byte is hashed once.
pub fn check(state: &BlobState, content: &[u8]) -> Verdict
    requires { length content.now ≡ state.now.size }
    ensures whole { result ≡ Whole → LeadsTo content.now state.now }
    ensures damaged { (link : ℕ) (want got : List ℕ) → result ≡ Damaged link want got
        → FailsFirst (given content.now state.now) state.now link want got }
{
    state.rules();
    let mut begin = 0;
    for link in 0..last_link(state) + 1 {
        let end = part_end(state, content.len(), link, begin);
        let want = kept_value(state, link);
        let got = value_over(state, link, &content[begin..end]);
        if want != got {
            return Verdict::Damaged { link, want, got };
        }
        begin = end;
    }
    Verdict::Whole
}

// Where the bytes of a link end in a content of the state's size, which begin there.
fn part_end(state: &BlobState, size: usize, link: u32, begin: usize) -> usize
    requires size { size ≡ state.now.size }
    requires link { link ≤ length state.now.extents }
    requires begin { begin ≡ part_begin state.now link }
    ensures from { begin ≤ result }
    ensures end { result ≡ part_begin state.now (link + 1) }
    ensures within { result ≤ size }
{
    state.rules();
    if link < last_link(state) {
        begin + used(state.size(), link) as usize * PAGE_BYTES
    } else {
        size
    }
}
